// Begin, Receive, Act and Find on a record in its parts: the head by value, and the rows lent, to Find those alone that matter to it.
// Whoever keeps the parts apart between calls pays for no copy of the record.
ghost use Rattle.std.specs.Prelude.{◌≡◌, []};
ghost use Rattle.bench.specs.Calendar.{view_of, place_in, act_at};
ghost use Rattle.bench.specs.Record.{bench_from, bench_with, beat_of};
ghost use Rattle.bench.specs.ByRecord.{begin_of, receive_of, act_of, find_of};
ghost use Rattle.bench.specs.Answers.{held_with, core_with, offered, BeginGives, ReceiveGives, ActGives, FindGives};
ghost use Rattle.bench.specs.Support.{SupportGives};
ghost use Rattle.calls.specs.Steps.{given_of};

use super::acts::act_at;
use super::beginning::begun;
use super::calendar::act_of;
use super::counting::read_at;
use super::filing::take;
use super::limits::{judge, judge_by};
use super::record::{beat_of, is_idle, is_not_above_last};
use super::totals::find_in;
use agreement::{Answer, Given};
use bench::{Counted, Entry, Head, LAST_BEAT, MOST_BYTES, Made, Offer, Refusal, Rows};

// Refused: the head is as it was. The calls that give a head back test one cause after the other, and not with `?`: the head then goes
// through a `Result`, which took a refused call from 29 to 45 ns.
#[inline(always)]
fn refused<A: Copy>(h: Head, why: Refusal) -> Given<Result<A, Refusal>, Head>
    ensures { result ≡ record { answer = Err why; after = h } }
{
    Given {
        answer: Err(why),
        after: h,
    }
}

// A refusal leaves the head as it was.
#[inline(always)]
fn given<A: Copy>(h: Head, r: Result<Given<A, Head>, Refusal>) -> Given<Result<A, Refusal>, Head>
    ensures { result ≡ given_of h r }
{
    match r {
        Ok(g) => Given {
            answer: Ok(g.answer),
            after: g.after,
        },
        Err(why) => Given {
            answer: Err(why),
            after: h,
        },
    }
}

// Begin: the gathering of a beat starts. Refused: 9, 8, 9 by the totals, 10, 20.
pub fn begin(
    h: Head,
    rows: &mut Rows,
    names: &[u64],
    counts: &[u16],
    totals: &[u32],
    beat: u32,
) -> Given<Result<(), Refusal>, Head>
    ensures { BeginGives (begin_of (held_with (bench_with h rows.old) names.now counts.now totals.now) beat)
        result.answer (bench_with result.after rows.new) names.now counts.now totals.now }
{
    if let Err(why) = judge(h, rows, names, counts, totals) {
        return refused(h, why);
    }
    if LAST_BEAT < beat {
        return refused(h, Refusal::Beat);
    }
    if is_not_above_last(h, beat) {
        return refused(h, Refusal::NotAbove);
    }
    Given {
        answer: Ok(()),
        after: begun(h, rows, beat),
    }
}

// Receive: a message is filed. Refused: 9, 8, 9 by the totals, 22, 1 to 6, 21.
pub fn receive(
    h: Head,
    rows: &mut Rows,
    names: &mut [u64],
    counts: &mut [u16],
    totals: &[u32],
    message: &[u8],
) -> Given<Result<Answer, Refusal>, Head>
    ensures { ReceiveGives
        (receive_of (held_with (bench_with h rows.old) names.old counts.old totals.now) message.now)
        result.answer (bench_with result.after rows.new) names.new counts.new totals.now }
{
    if let Err(why) = judge(h, rows, names, counts, totals) {
        return refused(h, why);
    }
    if is_idle(h) {
        return refused(h, Refusal::NoGathering);
    }
    given(h, take(h, rows, names, counts, message))
}

// Act: the gathering ends, and what the calendar asks at its beat is done; an offered block, of name zero where there is none,
// and a priority serve a proposal. Refused: 9, 8, 9 by the totals, 11, 22.
pub fn act(
    h: Head,
    rows: &mut Rows,
    names: &mut [u64],
    counts: &mut [u16],
    totals: &mut [u32],
    out: &mut [u8],
    offer: Offer,
) -> Given<Result<Made, Refusal>, Head>
    ensures { ActGives
        (act_of (held_with (bench_with h rows.old) names.old counts.old totals.old) (offered offer)
        offer.priority out.old)
        result.answer (bench_with result.after rows.new) names.new counts.new totals.new out.new }
{
    if let Err(why) = judge(h, rows, names, counts, totals) {
        return refused(h, why);
    }
    if out.len() < MOST_BYTES {
        return refused(h, Refusal::Buffer);
    }
    if is_idle(h) {
        return refused(h, Refusal::NoGathering);
    }
    let made = act_at(h, rows, names, counts, totals, out, offer);
    Given {
        answer: Ok(made.answer),
        after: made.after,
    }
}

// Find: where the entry of a number stands in the decided log. The priorities do not matter to it. Refused: 9, 8, 9 by the totals, 23.
pub fn find(
    h: Head,
    even: &[u8; 32],
    odd: &[u8; 32],
    proposed: &[u8; 32],
    names: &[u64],
    counts: &[u16],
    totals: &[u32],
    entry: u32,
) -> Result<Entry, Refusal>
    ensures { FindGives
        (find_of (held_with (bench_from h even.now odd.now proposed.now []) names.now
        counts.now totals.now) entry) result names.now counts.now totals.now }
{
    judge_by(h, even, odd, proposed, names, counts, totals)?;
    find_in(totals, h.decided, entry)
}

// What the act of the head's beat reads of the agreement before; proposals do not matter to it. It is no call: nothing is refused,
// and nothing changes.
pub fn support(h: Head, even: &[u8; 32], odd: &[u8; 32], names: &[u64], counts: &[u16]) -> Counted
    ensures { SupportGives
        (core_with (bench_from h even.now odd.now [] []) names.now counts.now)
        (view_of (beat_of (bench_from h even.now odd.now [] [])))
        (act_at (place_in (beat_of (bench_from h even.now odd.now [] [])))) result }
{
    let beat = beat_of(h);
    read_at(h, even, odd, names, counts, beat / 4, act_of(beat))
}
