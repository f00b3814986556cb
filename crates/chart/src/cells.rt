// The cells of the chart. What an act reads shows in what it does, once with a message and once without, and without a snapshot.
use super::answers::{Answer, Mark};
use super::asking::{snapshot, taken};
use super::beats::{beat_of, moved};
use super::replica::{Deed, Kind};
use super::way::Way;

// The rows of a view.
#[derive(Clone, Copy)]
enum Row {
    ProposalsTaken,
    ProposalsRead,
    LogMade,
    LogsTaken,
    Snapshot,
    Grade,
}

const ROWS_OF_VIEW: [Row; 6] = [
    Row::ProposalsTaken,
    Row::ProposalsRead,
    Row::LogMade,
    Row::LogsTaken,
    Row::Snapshot,
    Row::Grade,
];

pub(crate) const ROWS: u32 = ROWS_OF_VIEW.len() as u32;

pub(crate) const COLUMNS: u32 = 12;

// What fits no case is not the same as anything.
fn is_same(a: Option<Deed>, b: Option<Deed>) -> bool {
    a.is_some() && a == b
}

// What the act of this beat does of the view's agreement on a way that lacks snapshot one, or two.
pub(crate) fn lacking(lacks: Way, beat: u32) -> Answer {
    let deed = lacks.deed(beat);
    let heard = Way::heard(lacks.view);
    if is_same(deed, heard.deed(beat)) {
        return Answer::Same;
    }
    if is_same(deed, heard.without_log().deed(beat)) {
        return Answer::Unheard;
    }
    Answer::Odd
}

// Grade 0 needs no snapshot, grade 1 snapshot two, and grade 2 snapshot one.
fn grade_of(one: Answer, two: Answer) -> Answer {
    match (one, two) {
        (Answer::Same, Answer::Same) => Answer::GradeZero,
        (Answer::Same, Answer::Unheard) => Answer::GradeOne,
        (Answer::Unheard, Answer::Same) => Answer::GradeTwo,
        _ => Answer::Odd,
    }
}

// The grade that the act of this beat reads of the view's agreement.
pub(crate) fn grade(view: u32, beat: u32) -> Answer {
    let heard = Way::heard(view);
    let unheard = heard.without_log().deed(beat);
    if is_same(heard.deed(beat), unheard) {
        return Answer::No;
    }
    if unheard.is_none() {
        return Answer::Odd;
    }
    grade_of(
        lacking(heard.without_one(), beat),
        lacking(heard.without_two(), beat),
    )
}

// The LOG of this view, with so many blocks, is what was made.
fn is_made(deed: Deed, blocks: u8, view: u32) -> bool {
    deed.made
        == Some(Mark {
            answer: Answer::Log(blocks),
            view,
        })
}

// The LOG heard has one block.
fn log_made(view: u32, deed: Option<Deed>) -> Answer {
    match deed {
        Some(deed) if is_made(deed, 1, view) => Answer::Yes,
        Some(_) => Answer::No,
        None => Answer::Odd,
    }
}

// Whether it makes that of the PROPOSAL, which has one block more, in its place.
fn proposal_read(view: u32, alone: Option<Deed>, heard: Option<Deed>) -> Answer {
    if is_same(alone, heard) {
        return Answer::No;
    }
    match (alone, heard) {
        (Some(alone), Some(heard)) if is_made(alone, 1, view) && is_made(heard, 2, view) => {
            Answer::Yes
        }
        _ => Answer::Odd,
    }
}

fn answer(row: Row, view: u32, beat: u32) -> Answer {
    let before = Way::heard(moved(view, 0, 1));
    match row {
        Row::ProposalsTaken => taken(Kind::Proposal, view, beat),
        Row::ProposalsRead => proposal_read(
            view,
            before.deed(beat),
            before.with_proposal().deed(beat),
        ),
        Row::LogMade => log_made(view, before.deed(beat)),
        Row::LogsTaken => taken(Kind::Log, view, beat),
        Row::Snapshot => snapshot(view, beat),
        Row::Grade => grade(view, beat),
    }
}

// Column k of a row of view v or, behind those, of the next view; the script says rows by number.
pub(crate) fn cell(v: u32, row: u32, k: u32) -> Answer {
    answer(
        ROWS_OF_VIEW[(row % ROWS) as usize],
        moved(v, row / ROWS, 0),
        beat_of(v, k),
    )
}
