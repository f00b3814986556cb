// The calls of a bench, on its record by value and three lent lists: the names and the counts of blocks, and the running totals of the
// decided log's counts. What each gives is defined in crate bench (specs/ByRecord.antt), for every record, list, message and buffer; a
// refused call changes nothing. A record is taken into its parts, and put together once.
#![tactic(auto)]

mod acts;
mod beginning;
mod calendar;
mod counting;
mod deciding;
mod filing;
mod limits;
mod making;
pub mod parts;
mod record;
mod seeing;
mod totals;

ghost use Rattle.bench.specs.Calendar.{view_of, place_in, act_at};
ghost use Rattle.std.specs.Prelude.{◌≡◌};
ghost use Rattle.bench.specs.Record.{bench_of, bench_with, beat_of};
ghost use Rattle.bench.specs.ByRecord.{open_of, begin_of, receive_of, act_of, find_of};
ghost use Rattle.bench.specs.Answers.{lent_as, core_with, state_of, offered, OpenGives, BeginGives, ReceiveGives, ActGives, FindGives};
ghost use Rattle.bench.specs.Support.{SupportGives};

use agreement::{Answer, Given};
use bench::{Bench, Counted, Entry, Head, Made, Offer, Refusal, Rows};
use limits::{is_out_of_range, is_short};
use record::fresh;

// Open: a fresh bench. Refused: 7, 8; the record beside a refusal is of no bench.
pub fn open(
    n: u8,
    own: u8,
    names: &[u64],
    counts: &[u16],
    totals: &[u32],
) -> Given<Result<(), Refusal>, Bench>
    ensures { OpenGives (open_of n own (lent_as names.now counts.now totals.now))
        (lent_as names.now counts.now totals.now) result.answer (bench_of result.after) names.now
        counts.now totals.now }
{
    if is_out_of_range(n, own) {
        return Given {
            answer: Err(Refusal::Numbers),
            after: fresh(0, 0),
        };
    }
    if is_short(names, counts, totals) {
        return Given {
            answer: Err(Refusal::Lists),
            after: fresh(0, 0),
        };
    }
    Given {
        answer: Ok(()),
        after: fresh(n, own),
    }
}

// The record put together again, from its rows and the head after a call.
fn whole<A: Copy>(rows: Rows, given: Given<A, Head>) -> Given<A, Bench>
    ensures answer { result.answer ≡ given.answer }
    ensures after { bench_of result.after ≡ bench_with given.after rows }
{
    Given {
        answer: given.answer,
        after: Bench {
            rows,
            head: given.after,
        },
    }
}

// Begin: the gathering of a beat starts. Refused: 9, 8, 9 by the totals, 10, 20.
pub fn begin(
    bench: Bench,
    names: &[u64],
    counts: &[u16],
    totals: &[u32],
    beat: u32,
) -> Given<Result<(), Refusal>, Bench>
    ensures { BeginGives (begin_of (state_of bench names.now counts.now totals.now) beat) result.answer
        (bench_of result.after) names.now counts.now totals.now }
{
    let mut rows = bench.rows;
    let given = parts::begin(bench.head, &mut rows, names, counts, totals, beat);
    whole(rows, given)
}

// Receive: a message is filed. Refused: 9, 8, 9 by the totals, 22, 1 to 6, 21.
pub fn receive(
    bench: Bench,
    names: &mut [u64],
    counts: &mut [u16],
    totals: &[u32],
    message: &[u8],
) -> Given<Result<Answer, Refusal>, Bench>
    ensures { ReceiveGives
        (receive_of (state_of bench names.old counts.old totals.now) message.now) result.answer
        (bench_of result.after) names.new counts.new totals.now }
{
    let mut rows = bench.rows;
    let given = parts::receive(bench.head, &mut rows, names, counts, totals, message);
    whole(rows, given)
}

// Act: the gathering ends, and what the calendar asks at its beat is done; an offered block, of name zero where there is none,
// and a priority serve a proposal. Refused: 9, 8, 9 by the totals, 11, 22.
pub fn act(
    bench: Bench,
    names: &mut [u64],
    counts: &mut [u16],
    totals: &mut [u32],
    out: &mut [u8],
    offer: Offer,
) -> Given<Result<Made, Refusal>, Bench>
    ensures { ActGives
        (act_of (state_of bench names.old counts.old totals.old) (offered offer) offer.priority out.old)
        result.answer (bench_of result.after) names.new counts.new totals.new out.new }
{
    let mut rows = bench.rows;
    let given = parts::act(bench.head, &mut rows, names, counts, totals, out, offer);
    whole(rows, given)
}

// Find: where the entry of a number stands in the decided log. Nothing changes. Refused: 9, 8, 9 by the totals, 23. Here and in
// `support` the arrays that matter are copied one by one: a reference into the record had the compiler copy all of its rows.
pub fn find(
    bench: Bench,
    names: &[u64],
    counts: &[u16],
    totals: &[u32],
    entry: u32,
) -> Result<Entry, Refusal>
    ensures { FindGives (find_of (state_of bench names.now counts.now totals.now) entry) result
        names.now counts.now totals.now }
{
    let even = bench.rows.even;
    let odd = bench.rows.odd;
    let proposed = bench.rows.proposed;
    parts::find(
        bench.head, &even, &odd, &proposed, names, counts, totals, entry,
    )
}

// What the act of the record's beat reads of the agreement before. It is no call: nothing is refused, and nothing changes.
pub fn support(bench: Bench, names: &[u64], counts: &[u16]) -> Counted
    ensures { SupportGives (core_with (bench_of bench) names.now counts.now) (view_of (beat_of (bench_of bench)))
        (act_at (place_in (beat_of (bench_of bench)))) result }
{
    let even = bench.rows.even;
    let odd = bench.rows.odd;
    parts::support(bench.head, &even, &odd, names, counts)
}
