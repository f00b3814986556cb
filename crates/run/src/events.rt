// The events of a roll: each call is made, and its line written where lines are asked for. Text, page and made message go through this
// one loop.
ghost use Rattle.std.specs.Prelude.{◌≤◌};
ghost use Rattle.bench.specs.Answers.{state_of};
ghost use Rattle.run.specs.Roll.{events_of};
ghost use Rattle.run.specs.RollSteps.{LinesFit, Runs};

use super::calling::call_event;
use super::lines::{Stands, tell};
use super::roll::Roll;
use super::{MARK_LENGTH, SIZES_LENGTH};
use agreement::Given;
use bench::{Bench, MOST_BYTES};

// The first calls, one after the other: where the text ends, and the record after them. The lent lists and the totals stay three slices:
// a struct that holds a `&mut` needs clauses of separation logic. Whether lines are written stays a flag: with a type parameter in its
// place this function stands twice, the call of an event goes into neither, and a refused call takes 62 instructions more, of 365.
pub(crate) fn run_events(
    bench: Bench,
    names: &mut [u64],
    counts: &mut [u16],
    totals: &mut [u32],
    roll: Roll,
    calls: usize,
    text: &mut [u8],
    at: usize,
    prints: bool,
) -> Given<usize, Bench>
    requires { (calls ≤ events_of roll.bytes.now) × LinesFit prints 0 at text.old }
    ensures { Runs prints roll.entry.bytes.now calls
        (state_of bench names.old counts.old totals.old) at text.old
        (state_of result.after names.new counts.new totals.new) result.answer text.new }
{
    let events = roll.events();
    let mut body = SIZES_LENGTH + MARK_LENGTH * events;
    let mut head = bench.head;
    let mut rows = bench.rows;
    let mut out = [0; MOST_BYTES];
    let mut p = at;
    for i in 0..calls {
        let called = call_event(
            head, &mut rows, names, counts, totals, &mut out, roll, i, body,
        );
        head = called.after;
        let stands = Stands {
            decided: head.decided,
            parted: head.parted,
        };
        p = tell(text, p, prints, called.answer, stands);
        body += roll.length_at(i);
    }
    Given {
        answer: p,
        after: Bench { rows, head },
    }
}
