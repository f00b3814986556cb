// Begin, Receive and Act on a record that is lent and found moved on: each takes the record out, makes the call by value and stores
// the record that it gave. So each is that call, and promises what it does, with the record behind the reference in place of the
// one taken and the one given back. A refusal stores the record as it was. The look-up leaves the record alone and has no such form.
#![tactic(auto)]

ghost use Rattle.bench.specs.Record.{bench_of};
ghost use Rattle.bench.specs.ByRecord.{begin_of, receive_of, act_of};
ghost use Rattle.bench.specs.Answers.{state_of, offered, BeginGives, ReceiveGives, ActGives};

use agreement::Answer;
use bench::{Bench, Made, Offer, Refusal};

// Refused: 9, 8, 9 by the totals, 10, 20.
pub fn begin(
    bench: &mut Bench,
    names: &[u64],
    counts: &[u16],
    totals: &[u32],
    beat: u32,
) -> Result<(), Refusal>
    ensures { BeginGives
        (begin_of (state_of bench.old names.now counts.now totals.now) beat) result
        (bench_of bench.new) names.now counts.now totals.now }
{
    let given = calls::begin(*bench, names, counts, totals, beat);
    *bench = given.after;
    given.answer
}

// Refused: 9, 8, 9 by the totals, 22, 1 to 6, 21.
pub fn receive(
    bench: &mut Bench,
    names: &mut [u64],
    counts: &mut [u16],
    totals: &[u32],
    message: &[u8],
) -> Result<Answer, Refusal>
    ensures { ReceiveGives
        (receive_of (state_of bench.old names.old counts.old totals.now) message.now)
        result (bench_of bench.new) names.new counts.new totals.now }
{
    let given = calls::receive(*bench, names, counts, totals, message);
    *bench = given.after;
    given.answer
}

// Refused: 9, 8, 9 by the totals, 11, 22.
pub fn act(
    bench: &mut Bench,
    names: &mut [u64],
    counts: &mut [u16],
    totals: &mut [u32],
    out: &mut [u8],
    offer: Offer,
) -> Result<Made, Refusal>
    ensures { ActGives
        (act_of (state_of bench.old names.old counts.old totals.old) (offered offer) offer.priority out.old)
        result (bench_of bench.new) names.new counts.new totals.new out.new }
{
    let given = calls::act(*bench, names, counts, totals, out, offer);
    *bench = given.after;
    given.answer
}
