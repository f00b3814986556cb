// The record in its parts: a head of numbers, and the rows beside it. Fresh, and what it has of a view.
ghost use Rattle.std.specs.Prelude.{◌≡◌};
ghost use Rattle.message.specs.Choice.{pick};
ghost use Rattle.agreement.specs.Record.{agreement_from};
ghost use Rattle.agreement.specs.Proposals.{proposals_from};
ghost use Rattle.bench.specs.Layout.{is_even, logs_place};
ghost use Rattle.bench.specs.Record.{bench_of, fresh_bench, of_view, proposed_in, beat_of, not_above_last, idle};
ghost use Rattle.calls.specs.Steps.{bare};

use agreement::{Marks, Shown};
use bench::{Bench, Head, ODD_PLACE, Rows};

// Nothing filed, no beat begun, nothing decided.
pub(crate) fn fresh(n: u8, own: u8) -> Bench
    ensures { bench_of result ≡ fresh_bench n own }
{
    let head = Head {
        next: 0,
        n,
        own,
        decided: 0,
        parted: 0,
        gathering: 0,
        even: agreement::empty(0),
        odd: agreement::empty(0),
        shown: agreement::proposing::empty(0),
    };
    let rows = Rows {
        priorities: [0; 32],
        even: [0; 32],
        odd: [0; 32],
        proposed: [0; 32],
    };
    Bench { rows, head }
}

// No gathering is under way.
pub(crate) fn is_idle(h: Head) -> bool
    ensures { result ≡ idle (bare h) }
{
    !(h.gathering != 0) | (h.next == 0)
}

// The last begun beat; 0 where none was begun.
pub(crate) fn beat_of(h: Head) -> u32
    ensures { result ≡ beat_of (bare h) }
{
    if h.next == 0 {
        return 0;
    }
    h.next - 1
}

// A beat that is not above the last begun.
pub(crate) fn is_not_above_last(h: Head, beat: u32) -> bool
    ensures { result ≡ not_above_last (bare h) beat }
{
    beat < h.next
}

// A view of the even slot.
pub(crate) fn is_even(v: u32) -> bool
    ensures { result ≡ is_even v }
{
    v % 2 == 0
}

// The place of the first of a view's logs.
pub(crate) fn logs_place(v: u32) -> u32
    ensures { result ≡ logs_place v }
{
    if is_even(v) {
        return 0;
    }
    ODD_PLACE
}

// The agreement in the slot of a view's parity: its marks, and the blocks of its logs. Kept as two tests: one of any type would be no
// shorter.
pub(crate) fn marks_of(h: Head, v: u32) -> Marks
    ensures { result ≡ pick (is_even v) h.even h.odd }
{
    if is_even(v) {
        return h.even;
    }
    h.odd
}

pub(crate) fn lengths_of<'a>(even: &'a [u8; 32], odd: &'a [u8; 32], v: u32) -> &'a [u8; 32]
    ensures { result.now ≡ pick (is_even v) even.now odd.now }
{
    if is_even(v) {
        return even;
    }
    odd
}

// The slot's agreement where it is of view v; else of view v nothing is filed.
pub(crate) fn of_view(g: Marks, lengths: &mut [u8; 32], v: u32) -> Marks
    ensures { agreement_from result lengths.new ≡ of_view (agreement_from g lengths.old) v }
{
    if g.view == v {
        return g;
    }
    agreement::clear(lengths);
    agreement::empty(v)
}

// The same of the proposals. Kept beside it: their priorities are cleared too, and a trait for both would be longer than the two.
pub(crate) fn shown_of(
    g: Shown,
    lengths: &mut [u8; 32],
    priorities: &mut [u64; 32],
    v: u32,
) -> Shown
    ensures { proposals_from result lengths.new priorities.new ≡ proposed_in
        (proposals_from g lengths.old priorities.old) v }
{
    if g.view == v {
        return g;
    }
    agreement::clear(lengths);
    agreement::clear_priorities(priorities);
    agreement::proposing::empty(v)
}
