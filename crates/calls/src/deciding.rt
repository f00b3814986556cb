// Deciding, and the snapshots.
ghost use Rattle.std.proofs.Math.Option.{some};
ghost use Rattle.message.specs.Store.{log_at};
ghost use Rattle.calls.specs.Steps.{Settling, Deciding, Settles, Decides, Snaps};

use super::calendar::Act;
use super::record::{is_even, of_view};
use super::seeing::{Listed, seen};
use super::totals::extend_totals;
use agreement::snap;
use bench::{DECIDED_PLACE, Head, Rows};
use message::LAST_VIEW;
use message::store::{copy, is_prefix};

// The log is decided: it extends the decided log, is a prefix of it, or the mark is set.
fn settle(h: Head, names: &mut [u64], counts: &mut [u16], log: Listed) -> Head
    requires { Settling h names.old counts.old log.at log.blocks }
    ensures { Settles h names.old counts.old
        (some (log_at names.old counts.old log.at log.blocks)) result names.new counts.new }
{
    let Listed { at, blocks } = log;
    let old = h.decided as usize;
    let new = blocks as usize;
    let mut c = h;
    if is_prefix(names, counts, DECIDED_PLACE, old, at, new) {
        copy(names, counts, at, DECIDED_PLACE, new);
        c.decided = blocks as u16;
        return c;
    }
    if is_prefix(names, counts, at, new, DECIDED_PLACE, old) {
        return h;
    }
    c.parted = 1;
    c
}

// The longest log with grade 2 of the view before v, where there is one, is decided, and the totals of its new blocks are written.
pub(crate) fn decide(
    h: Head,
    rows: &Rows,
    names: &mut [u64],
    counts: &mut [u16],
    totals: &mut [u32],
    v: u32,
) -> Head
    requires { Deciding h names.old counts.old totals.old }
    ensures { Decides h rows.now names.old counts.old totals.old v result
        names.new counts.new totals.new }
{
    let Some(log) = seen(h, rows, names, counts, v, Act::Deciding) else {
        return h;
    };
    let c = settle(h, names, counts, log);
    extend_totals(counts, totals, h.decided, c.decided);
    c
}

// A snapshot of view v is taken, the second or the first, where there is such a view. Kept as two branches, as in filing, and a bool, as
// crate agreement takes it.
pub(crate) fn snap_view(h: Head, rows: &mut Rows, v: u32, second: bool) -> Head
    ensures { Snaps h rows.old v second result rows.new }
{
    if LAST_VIEW < v {
        return h;
    }
    let mut c = h;
    if is_even(v) {
        let g = of_view(h.even, &mut rows.even, v);
        c.even = snap(g, second);
        return c;
    }
    let g = of_view(h.odd, &mut rows.odd, v);
    c.odd = snap(g, second);
    c
}
