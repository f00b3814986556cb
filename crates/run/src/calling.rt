// One event of a roll: its call is made.
ghost use Rattle.std.specs.Prelude.{◌≡◌, ◌<◌};
ghost use Rattle.bench.specs.Record.{bench_with};
ghost use Rattle.bench.specs.Answers.{held_with};
ghost use Rattle.bench.specs.Calls.{act};
ghost use Rattle.run.specs.Roll.{offered_at, priority_at, fresh_buffer, call_at};
ghost use Rattle.run.specs.RollSteps.{offer_at, Lies, EventGives};

use super::roll::Roll;
use super::{Answered, Kind};
use agreement::Given;
use bench::{Head, MOST_BYTES, Offer, Rows};
use calls::parts;
use message::number::number_in;

// The body of an Act, which starts at this place.
pub(crate) fn offer_in(roll: &[u8], at: usize) -> Offer
    requires { at < 4294967296 }
    ensures { result ≡ offer_at roll.now at }
{
    Offer {
        name: number_in(roll, at),
        priority: number_in(roll, at + 8),
        count: number_in(roll, at + 16),
    }
}

// An Act, whose body starts at this place. It is apart from the other calls so that the head is copied for it alone. What the outgoing
// buffer holds shows nowhere, so that one serves all Acts.
fn act_event(
    h: Head,
    rows: &mut Rows,
    names: &mut [u64],
    counts: &mut [u16],
    totals: &mut [u32],
    out: &mut [u8; MOST_BYTES],
    roll: &[u8],
    at: usize,
) -> Given<Answered, Head>
    requires { at < 4294967296 }
    ensures { EventGives (act (offered_at roll.now at) (priority_at roll.now at) fresh_buffer)
        (held_with (bench_with h rows.old) names.old counts.old totals.old)
        result.answer
        (held_with (bench_with result.after rows.new) names.new counts.new totals.new) }
{
    let offer = offer_in(roll, at);
    let acted = parts::act(h, rows, names, counts, totals, out, offer);
    Given {
        answer: Answered::Acted(acted.answer),
        after: acted.after,
    }
}

// Event i, whose body starts at this place.
pub(crate) fn call_event(
    h: Head,
    rows: &mut Rows,
    names: &mut [u64],
    counts: &mut [u16],
    totals: &mut [u32],
    out: &mut [u8; MOST_BYTES],
    roll: Roll,
    i: usize,
    at: usize,
) -> Given<Answered, Head>
    requires { Lies roll.bytes.now i at }
    ensures { EventGives (call_at roll.entry.bytes.now i at)
        (held_with (bench_with h rows.old) names.old counts.old totals.old)
        result.answer
        (held_with (bench_with result.after rows.new) names.new counts.new totals.new) }
{
    match roll.kind_at(i) {
        Kind::Begin => {
            let beat = number_in(roll.bytes, at);
            let begun = parts::begin(h, rows, names, counts, totals, beat);
            Given {
                answer: Answered::Begun(beat, begun.answer),
                after: begun.after,
            }
        }
        Kind::Receive => {
            let end = at + roll.length_at(i);
            let received = parts::receive(h, rows, names, counts, totals, &roll.bytes[at..end]);
            Given {
                answer: Answered::Taken(received.answer),
                after: received.after,
            }
        }
        Kind::Act => act_event(h, rows, names, counts, totals, out, roll.bytes, at),
    }
}
