// A beat begins: views no longer open are forgotten.
ghost use Rattle.std.specs.Prelude.{◌≡◌, ◌≤◌};
ghost use Rattle.agreement.specs.Record.{agreement_from};
ghost use Rattle.agreement.specs.Proposals.{proposals_from};
ghost use Rattle.bench.specs.Calendar.{last_beat};
ghost use Rattle.bench.specs.Record.{bench_with};
ghost use Rattle.bench.specs.ByRecord.{kept_agreement, kept_proposals, begun_bench};

use super::calendar::{LOGS, PROPOSALS};
use agreement::{Marks, Shown};
use bench::{Head, Rows};

// An agreement whose window has passed is forgotten.
fn kept_agreement(beat: u32, g: Marks, lengths: &mut [u8; 32]) -> Marks
    ensures { agreement_from result lengths.new ≡ kept_agreement beat (agreement_from g lengths.old) }
{
    if LOGS.is_shut(g.view, beat) {
        agreement::clear(lengths);
        return agreement::empty(0);
    }
    g
}

// The same of the proposals. Kept beside it: their priorities are cleared too, and a trait for both would be longer.
fn kept_proposals(beat: u32, g: Shown, lengths: &mut [u8; 32], priorities: &mut [u64; 32]) -> Shown
    ensures { proposals_from result lengths.new priorities.new ≡ kept_proposals beat
        (proposals_from g lengths.old priorities.old) }
{
    if PROPOSALS.is_shut(g.view, beat) {
        agreement::clear(lengths);
        agreement::clear_priorities(priorities);
        return agreement::proposing::empty(0);
    }
    g
}

// The record with the gathering of this beat under way.
pub(crate) fn begun(h: Head, rows: &mut Rows, beat: u32) -> Head
    requires { beat ≤ last_beat }
    ensures { bench_with result rows.new ≡ begun_bench (bench_with h rows.old) beat }
{
    let mut c = h;
    c.even = kept_agreement(beat, h.even, &mut rows.even);
    c.odd = kept_agreement(beat, h.odd, &mut rows.odd);
    c.shown = kept_proposals(beat, h.shown, &mut rows.proposed, &mut rows.priorities);
    c.next = beat + 1;
    c.gathering = 1;
    c
}
