// What an act reads of the agreement before (specs/Support.antt of crate bench), with its counts.
ghost use Rattle.std.specs.Prelude.{◌≡◌, ◌≤◌, []};
ghost use Rattle.agreement.specs.Limits.{most_senders};
ghost use Rattle.agreement.specs.Record.{agreement_from};
ghost use Rattle.agreement.specs.Grades.{Placed, log_of};
ghost use Rattle.agreement.specs.Tally.{supporters_of};
ghost use Rattle.bench.specs.Record.{bench_from, of_view};
ghost use Rattle.bench.specs.Answers.{core_with};
ghost use Rattle.bench.specs.Support.{or_empty, SupportGives};
ghost use Rattle.calls.specs.Steps.{row_of, CountsIn};

use super::calendar::{Act, grade_read};
use super::record::{lengths_of, logs_place, marks_of};
use super::seeing::{EMPTY, used};
use agreement::grading::serving;
use agreement::{Longest, Marks, tally};
use bench::{Counted, Head};

// How many support the log of a grade, or the empty log where there is none.
fn supporters(
    g: Marks,
    lengths: &[u8; 32],
    names: &[u64],
    counts: &[u16],
    base: u32,
    among: u32,
    grade: Option<Longest>,
) -> usize
    requires { Placed grade }
    ensures { (result ≡ supporters_of names.now counts.now base (agreement_from g lengths.now) among
        (or_empty (log_of names.now counts.now base grade))) × (result ≤ most_senders) }
{
    let longest = grade.unwrap_or(EMPTY);
    tally::supporters(
        g,
        lengths,
        names,
        counts,
        base,
        among,
        longest.sender,
        longest.blocks,
    )
}

// The counts of a grade of a slot, as far as the slot is of view v: else nobody is heard.
fn counted(
    g: Marks,
    lengths: &[u8; 32],
    names: &[u64],
    counts: &[u16],
    base: u32,
    v: u32,
    k: u8,
    grade: Option<Longest>,
) -> Counted
    requires { Placed grade }
    ensures { CountsIn names.now counts.now base
        (of_view (agreement_from g lengths.now) v) k grade result }
{
    if g.view == v {
        let s = serving(g, k);
        return Counted {
            grade,
            supporters: supporters(g, lengths, names, counts, base, s.senders, grade),
            senders: tally::senders(g),
        };
    }
    Counted {
        grade,
        supporters: 0,
        senders: 0,
    }
}

// What the act of a row reads in view v. Proposals do not matter to it.
pub(crate) fn read_at(
    h: Head,
    even: &[u8; 32],
    odd: &[u8; 32],
    names: &[u64],
    counts: &[u16],
    v: u32,
    act: Act,
) -> Counted
    ensures { SupportGives (core_with (bench_from h even.now odd.now [] []) names.now counts.now) v (row_of act) result }
{
    let grade = used(h, even, odd, names, counts, v, act);
    let nobody = Counted {
        grade,
        supporters: 0,
        senders: 0,
    };
    let Some(k) = grade_read(act) else {
        return nobody;
    };
    if v == 0 {
        return nobody;
    }
    let before = v - 1;
    counted(
        marks_of(h, before),
        lengths_of(even, odd, before),
        names,
        counts,
        logs_place(before),
        before,
        k,
        grade,
    )
}
