// A gathering with one message, on one lent record: Begin, Receive and Act in a row.
ghost use Rattle.bench.specs.Answers.{state_of, offered};
ghost use Rattle.schedules.specs.Gathering.{gathering_of, GatheringGives};

use agreement::Answer;
use bench::{Bench, Made, Offer, Refusal};

// The three answers.
#[derive(Clone, Copy)]
pub struct Gathered {
    pub started: Result<(), Refusal>,
    pub taken: Result<Answer, Refusal>,
    pub made: Result<Made, Refusal>,
}

// A block may be offered, with the priority that a proposal of it has.
pub fn gather(
    bench: &mut Bench,
    names: &mut [u64],
    counts: &mut [u16],
    totals: &mut [u32],
    out: &mut [u8],
    message: &[u8],
    beat: u32,
    offer: Offer,
) -> Gathered
    ensures { GatheringGives (state_of bench.old names.old counts.old totals.old)
        (gathering_of beat message.now (offered offer) offer.priority out.old) result bench.new
        names.new counts.new totals.new out.new }
{
    let started = lent::begin(bench, names, counts, totals, beat);
    let taken = lent::receive(bench, names, counts, totals, message);
    let made = lent::act(bench, names, counts, totals, out, offer);
    Gathered {
        started,
        taken,
        made,
    }
}
