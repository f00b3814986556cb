// The acts by the calendar (specs/Calendar.antt of crate bench).
ghost use Rattle.bench.specs.Calendar.{view_of, place_in, act_at};
ghost use Rattle.bench.specs.Record.{bench_with, beat_of};
ghost use Rattle.bench.specs.ByRecord.{over, acted_of};
ghost use Rattle.bench.specs.Answers.{core_with, offered};
ghost use Rattle.calls.specs.Steps.{bare, Acting, ActLeaves};

use super::calendar::{Act, act_of};
use super::deciding::{decide, snap_view};
use super::making::{propose, vote};
use super::record::beat_of;
use agreement::Given;
use bench::{Head, Made, Offer, Rows};

// The gathering is over, and the act of its beat is done.
pub(crate) fn act_at(
    h: Head,
    rows: &mut Rows,
    names: &mut [u64],
    counts: &mut [u16],
    totals: &mut [u32],
    out: &mut [u8],
    offer: Offer,
) -> Given<Made, Head>
    requires { Acting h rows.old names.old counts.old totals.old out.old }
    ensures { ActLeaves totals.old h.decided
        (acted_of (over (core_with (bench_with h rows.old) names.old counts.old)) (offered offer) offer.priority
        out.old (view_of (beat_of (bare h))) (act_at (place_in (beat_of (bare h)))))
        result.answer (bench_with result.after rows.new) names.new counts.new totals.new out.new }
{
    let beat = beat_of(h);
    let v = beat / 4;
    let mut b = h;
    b.gathering = 0;
    match act_of(beat) {
        Act::Proposing => propose(b, rows, names, counts, out, v, offer),
        Act::Voting => vote(b, rows, names, counts, out, v),
        Act::Deciding => {
            let c = decide(b, rows, names, counts, totals, v);
            Given {
                answer: Made::Nothing,
                after: snap_view(c, rows, v, false),
            }
        }
        Act::Snapping => Given {
            answer: Made::Nothing,
            after: snap_view(b, rows, v, true),
        },
    }
}
