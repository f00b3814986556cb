// The message that an Act of a roll made.
ghost use Rattle.std.specs.Prelude.{◌≡◌, ◌<◌, true, false, MatchOption};
ghost use Rattle.bench.specs.ByRecord.{act_of};
ghost use Rattle.bench.specs.Answers.{state_of};
ghost use Rattle.run.specs.Roll.{offered_at, priority_at};
ghost use Rattle.run.specs.RollSteps.{unmade, length_for};
ghost use Rattle.run.specs.MadeBytes.{no_act, made_by, GivesMade};

use super::Kind;
use super::calling::offer_in;
use super::roll::Roll;
use bench::{Bench, Made, Refusal};
use message::{BLOCK_WIDTH, HEAD_LENGTH};

fn is_no_act(roll: Roll, event: usize) -> bool
    ensures { result ≡ no_act roll.entry.bytes.now event }
{
    if roll.events() <= event {
        return true;
    }
    roll.kind_at(event) != Kind::Act
}

// A message of k blocks has 16 + 10 k bytes.
#[tactic(auto, unfolding(crate::specs::RollSteps::length_for))]
fn message_length(answer: Result<Made, Refusal>) -> usize
    ensures { result ≡ length_for answer }
{
    match answer {
        Ok(Made::Log(k) | Made::Proposal(k)) => HEAD_LENGTH + BLOCK_WIDTH * usize::from(k),
        Ok(Made::Nothing) | Err(_) => 0,
    }
}

// The Act whose body starts at this place, and the length of what it made.
pub(crate) fn act_in(
    bench: Bench,
    names: &mut [u64],
    counts: &mut [u16],
    totals: &mut [u32],
    roll: &[u8],
    at: usize,
    out: &mut [u8],
) -> usize
    requires { at < 4294967296 }
    ensures { GivesMade
        (made_by (act_of (state_of bench names.old counts.old totals.old) (offered_at roll.now at)
        (priority_at roll.now at) out.old).answer.reply) out.old result out.new }
{
    let offer = offer_in(roll, at);
    let acted = calls::act(bench, names, counts, totals, out, offer);
    message_length(acted.answer)
}

// A roll that has an Act at this event. None where the roll has another form, there is no such event or it is no Act.
pub(crate) fn acting<'a>(bytes: &'a [u8], event: usize) -> Option<Roll<'a>>
    ensures { MatchOption result (unmade bytes.now event ≡ true)
        (λ r. (unmade r.bytes.now event ≡ false) × (r.bytes.now ≡ bytes.now)) }
{
    let roll = Roll::read(bytes)?;
    if is_no_act(roll, event) {
        return None;
    }
    Some(roll)
}
