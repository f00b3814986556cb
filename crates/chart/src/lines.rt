// What the act of a beat reads, makes, decides and stores, sought among the views near that of the beat.
use super::answers::{Answer, Mark};
use super::asking::snapshot;
use super::beats::{beat_of, moved};
use super::cells::{grade, lacking};
use super::replica::Deed;
use super::way::Way;

#[derive(Clone, Copy, PartialEq, Eq)]
pub(crate) struct Line {
    pub(crate) reads: Option<Mark>,
    // what it does without snapshot one, and without two, of what it reads
    pub(crate) one: Answer,
    pub(crate) two: Answer,
    pub(crate) makes: Option<Mark>,
    pub(crate) decides: bool,
    pub(crate) stores: Option<Mark>,
}

// The views of a line are counted from so many before v, and 0 is none.
pub(crate) const NEAR: u32 = 3;

// An act that reads, or stores, of two agreements fits no case.
fn joined(found: Option<Mark>, answer: Answer, view: u32) -> Option<Mark> {
    if answer == Answer::No {
        return found;
    }
    let answer = if found.is_none() { answer } else { Answer::Odd };
    Some(Mark { answer, view })
}

// What the act has by this answer of the two views before v, of v and of the next.
fn find<F: Fn(u32) -> Answer>(v: u32, answer: F) -> Option<Mark>
    requires { F.IsAlwaysCallable answer }
{
    let mut found = None;
    for view in moved(v, 0, 2)..moved(v, 2, 0) {
        found = joined(found, answer(view), view);
    }
    found
}

// What fits no case is of view 0.
fn made(deed: Option<Deed>) -> Option<Mark> {
    match deed {
        Some(deed) => deed.made,
        None => Some(Mark {
            answer: Answer::Odd,
            view: 0,
        }),
    }
}

// The log read where nobody was heard shows in the message made: it is made of the empty log.
fn unheard(made: Option<Mark>, v: u32) -> Option<Mark> {
    let answer = match made?.answer {
        Answer::Log(0) | Answer::Proposal(1) => Answer::EmptyLog,
        _ => Answer::Odd,
    };
    Some(Mark { answer, view: v })
}

// Counted from v, so that the lines of two views can be compared.
fn counted(v: u32, mark: Option<Mark>) -> Option<Mark> {
    mark.map(|m| Mark {
        view: moved(m.view, NEAR, v),
        ..m
    })
}

// Where nothing is read, no snapshot matters.
fn lacked(found: Option<Mark>, lacks: Way, beat: u32) -> Answer {
    match found {
        Some(_) => lacking(lacks, beat),
        None => Answer::No,
    }
}

// The act of column k of view v.
pub(crate) fn line_at(v: u32, k: u32) -> Line {
    let beat = beat_of(v, k);
    let reads = find(v, |view| grade(view, beat));
    let stores = find(v, |view| snapshot(view, beat));
    let heard = Way::heard(reads.map_or(v, |m| m.view));
    let way = if reads.is_some() {
        heard
    } else {
        heard.without_log()
    };
    let deed = way.deed(beat);
    let makes = made(deed);
    Line {
        reads: counted(v, reads.or(unheard(makes, v))),
        one: lacked(reads, heard.without_one(), beat),
        two: lacked(reads, heard.without_two(), beat),
        makes: counted(v, makes),
        decides: deed.is_some_and(|d| d.decides),
        stores: counted(v, stores),
    }
}
