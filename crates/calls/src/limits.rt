// Refusals 7, 8 and 9, the last by the totals too. What a record within its limits is stands in crate bench (specs/Record.antt); all
// 32 places of each array are looked at.
ghost use Rattle.std.specs.Prelude.{◌≡◌, ◌||◌, ltb, []};
ghost use Rattle.message.specs.Limits.{last_view};
ghost use Rattle.bench.specs.Layout.{out_of_range, short_lists};
ghost use Rattle.bench.specs.Record.{bench_from, bench_with, any_place, names_beyond, beyond};
ghost use Rattle.bench.specs.Answers.{lent_as, held_with};
ghost use Rattle.calls.specs.Steps.{bad_sets, Judges};

use super::totals::are_unlike;
use agreement::sets::{exceeds, meet, reaches};
use agreement::tally::are_over;
use agreement::{MOST_SENDERS, Marks, Shown};
use bench::{Head, LAST_BEAT, LEAST_LENT, Refusal, Rows};
use message::{LAST_VIEW, MOST_BLOCKS};

// n or the own number is out of range.
pub(crate) fn is_out_of_range(n: u8, own: u8) -> bool
    ensures { result ≡ out_of_range n own }
{
    (n == 0) | ((MOST_SENDERS < n as usize) | (n <= own))
}

// A lent list is too short.
pub(crate) fn is_short(names: &[u64], counts: &[u16], totals: &[u32]) -> bool
    ensures { result ≡ short_lists (lent_as names.now counts.now totals.now) }
{
    ((names.len() < LEAST_LENT) | (counts.len() < LEAST_LENT)) | (totals.len() < MOST_BLOCKS)
}

// A set of an agreement names n or above, a sender is in V and in E, or one of a snapshot is in neither. Sets of which the same is
// asked are asked together.
fn are_bad_sets(g: Marks, n: u8) -> bool
    ensures { result ≡ bad_sets n g }
{
    let s = g.voters | g.equivocators;
    let snapped = g.one.senders | g.two.senders;
    reaches(s | snapped, n) | (meet(g.voters, g.equivocators) | exceeds(snapped, s))
}

// The lengths apart, which are tested for both agreements and the proposals together.
fn is_beyond_agreement(g: Marks, n: u8) -> bool
    ensures { result ≡ (ltb last_view g.view || bad_sets n g) }
{
    (LAST_VIEW < g.view) | are_bad_sets(g, n)
}

fn is_beyond_proposals(g: Shown, n: u8) -> bool
    ensures { result ≡ (ltb last_view g.view || (any_place (names_beyond n g.filed) || any_place (names_beyond n g.aside))) }
{
    (LAST_VIEW < g.view) | reaches(g.filed | g.aside, n)
}

// The record is beyond its limits. Priorities have none.
fn is_beyond(h: Head, even: &[u8; 32], odd: &[u8; 32], proposed: &[u8; 32]) -> bool
    ensures { result ≡ beyond (bench_from h even.now odd.now proposed.now []) }
{
    let n = h.n;
    is_out_of_range(n, h.own)
        | ((LAST_BEAT + 1 < h.next)
            | ((MOST_BLOCKS < h.decided as usize)
                | (are_over(even, odd, proposed, MOST_BLOCKS)
                    | (is_beyond_agreement(h.even, n)
                        | (is_beyond_agreement(h.odd, n) | is_beyond_proposals(h.shown, n))))))
}

// What every call on a record is refused by: 9, 8, 9 by the totals, the first of them that is so. Priorities do not matter to it. It is
// put into each call, so that the head is not copied for it.
#[inline(always)]
pub(crate) fn judge_by(
    h: Head,
    even: &[u8; 32],
    odd: &[u8; 32],
    proposed: &[u8; 32],
    names: &[u64],
    counts: &[u16],
    totals: &[u32],
) -> Result<(), Refusal>
    ensures { Judges (held_with (bench_from h even.now odd.now proposed.now []) names.now counts.now totals.now) result }
{
    if is_beyond(h, even, odd, proposed) {
        return Err(Refusal::Record);
    }
    if is_short(names, counts, totals) {
        return Err(Refusal::Lists);
    }
    if are_unlike(counts, totals, h.decided) {
        return Err(Refusal::Record);
    }
    Ok(())
}

// The same by the rows.
#[inline(always)]
pub(crate) fn judge(
    h: Head,
    rows: &Rows,
    names: &[u64],
    counts: &[u16],
    totals: &[u32],
) -> Result<(), Refusal>
    ensures { Judges (held_with (bench_with h rows.now) names.now counts.now totals.now) result }
{
    judge_by(
        h,
        &rows.even,
        &rows.odd,
        &rows.proposed,
        names,
        counts,
        totals,
    )
}
