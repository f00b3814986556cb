// What an act sees: the log that it uses, by the grade of the agreement before that it reads, and the log it votes for.
ghost use Rattle.std.specs.Prelude.{◌≡◌, ◌-◌, []};
ghost use Rattle.agreement.specs.Limits.{place_of};
ghost use Rattle.agreement.specs.Record.{agreement_from};
ghost use Rattle.agreement.specs.Grades.{Gives, grade_of};
ghost use Rattle.agreement.specs.Proposals.{proposals_from, choice_of, Chooses};
ghost use Rattle.bench.specs.Layout.{logs_place, proposals_place};
ghost use Rattle.bench.specs.Record.{bench_from, bench_with, of_view, proposed_in};
ghost use Rattle.bench.specs.ByRecord.{used_of};
ghost use Rattle.bench.specs.Answers.{core_with};
ghost use Rattle.bench.specs.Tested.{Usable};
ghost use Rattle.calls.specs.Steps.{row_of, Finds, ballot_of};

use super::calendar::{Act, grade_read};
use super::record::{lengths_of, logs_place, marks_of};
use agreement::grading::grade;
use agreement::proposing::choose;
use agreement::{Longest, Marks};
use bench::{Head, PROPOSALS_PLACE, Rows};
use message::MOST_BLOCKS;

// A log in the lists: this many blocks, from this place on.
#[derive(Clone, Copy)]
pub(crate) struct Listed {
    pub(crate) at: usize,
    pub(crate) blocks: u8,
}

// The empty log, at any sender's place.
pub(crate) const EMPTY: Longest = Longest {
    sender: 0,
    blocks: 0,
};

// The place of sender i's log in the agreement of the view before v. For v = 0 there is none, and of the empty log nothing is read.
fn place_before(v: u32, i: u8) -> usize
    ensures { result ≡ place_of (logs_place (v - 1)) i }
{
    logs_place(v.saturating_sub(1)) as usize + MOST_BLOCKS * (i as usize)
}

// The longest log with this grade in a slot, as far as the slot is of view v.
fn graded(
    g: Marks,
    lengths: &[u8; 32],
    names: &[u64],
    counts: &[u16],
    base: u32,
    v: u32,
    k: u8,
) -> Option<Longest>
    ensures { Gives (grade_of names.now counts.now base (of_view (agreement_from g lengths.now) v) k)
        names.now counts.now base result }
{
    if g.view == v {
        return grade(g, lengths, names, counts, base, k);
    }
    None
}

// The log that the act of a row uses in view v. For view 0 candidate and lock are the empty log, and there is no decision. Proposals do
// not matter to it.
pub(crate) fn used(
    h: Head,
    even: &[u8; 32],
    odd: &[u8; 32],
    names: &[u64],
    counts: &[u16],
    v: u32,
    act: Act,
) -> Option<Longest>
    ensures { Gives (used_of (core_with (bench_from h even.now odd.now [] []) names.now counts.now) v (row_of act))
        names.now counts.now (logs_place (v - 1)) result }
{
    let k = grade_read(act)?;
    if v == 0 {
        if k < 2 {
            return Some(EMPTY);
        }
        return None;
    }
    let before = v - 1;
    graded(
        marks_of(h, before),
        lengths_of(even, odd, before),
        names,
        counts,
        logs_place(before),
        before,
        k,
    )
}

// The same log, by its place in the lists.
pub(crate) fn seen(
    h: Head,
    rows: &Rows,
    names: &[u64],
    counts: &[u16],
    v: u32,
    act: Act,
) -> Option<Listed>
    ensures { Finds (used_of (core_with (bench_with h rows.now) names.now counts.now) v (row_of act))
        names.now counts.now result }
{
    let Some(longest) = used(h, &rows.even, &rows.odd, names, counts, v, act) else {
        return None;
    };
    Some(Listed {
        at: place_before(v, longest.sender),
        blocks: longest.blocks,
    })
}

// Whose proposal of view v is voted for, given the lock.
fn best(h: Head, rows: &Rows, names: &[u64], counts: &[u16], v: u32, lock: Listed) -> Option<u8>
    ensures { Chooses
        (choice_of names.now counts.now proposals_place
        (proposed_in (proposals_from h.shown rows.now.proposed rows.now.priorities) v) lock.at lock.blocks) result }
{
    let g = h.shown;
    if g.view == v {
        return choose(
            g,
            &rows.proposed,
            &rows.priorities,
            names,
            counts,
            PROPOSALS_PLACE,
            lock.at,
            lock.blocks as usize,
        );
    }
    None
}

// The log voted for: the best proposal of view v that has the lock as a prefix, else the lock; none without a lock.
pub(crate) fn ballot(h: Head, rows: &Rows, names: &[u64], counts: &[u16], v: u32) -> Option<Listed>
    requires { Usable (core_with (bench_with h rows.now) names.now counts.now) }
    ensures { Finds (ballot_of (core_with (bench_with h rows.now) names.now counts.now) v)
        names.now counts.now result }
{
    let Some(lock) = seen(h, rows, names, counts, v, Act::Voting) else {
        return None;
    };
    let Some(j) = best(h, rows, names, counts, v, lock) else {
        return Some(lock);
    };
    let sender = j as usize;
    Some(Listed {
        at: PROPOSALS_PLACE as usize + MOST_BLOCKS * sender,
        blocks: rows.proposed[sender],
    })
}
