// A row of the table: what its clauses have done so far, and what its last clause asks for.
use super::log::{front, log_bytes, proposal_bytes, sender};
use agreement::{Answer, Marks, SPAN, Shown, filing, grading, proposing};
use message::{MOST_BLOCKS, store};
use script::Clause;
use std::{fmt, io};

// The lock stands in the lists past the logs of all senders, as the log of one more.
const LOCK: u8 = 32;

const PLACES: usize = SPAN + MOST_BLOCKS;

// The lists, the agreement and the blocks of its logs, the proposals with their blocks and priorities, the answer to the last
// message, and the number of the lock's blocks. Names and counts are kept two lists, and the arrays of 32 beside the
// marks, since agreement takes them so.
#[derive(Clone, Copy)]
pub(crate) struct Row {
    names: [u64; PLACES],
    counts: [u16; PLACES],
    marks: Marks,
    lengths: [u8; 32],
    shown: Shown,
    proposed: [u8; 32],
    priorities: [u64; 32],
    answer: Answer,
    lock: u8,
}

// A log in print: its blocks in brackets, each by its name, and by its entry count where that is not 1; of more than three, the
// first three and how many there are.
#[derive(Clone, Copy)]
struct Log<'a> {
    names: &'a [u64],
    counts: &'a [u16],
    blocks: u8,
}

impl fmt::Display for Log<'_> {
    fn fmt<W: fmt::Write>(&self, f: &mut fmt::Formatter<W>) -> fmt::Result {
        let shown = usize::from(self.blocks.min(3));
        write!(f, "[")?;
        for (i, (name, count)) in self.names.iter().zip(self.counts).take(shown).enumerate() {
            if 0 < i {
                write!(f, ",")?;
            }
            write!(f, "{name}")?;
            if *count != 1 {
                write!(f, "/{count}")?;
            }
        }
        if 3 < self.blocks {
            write!(f, ",.. of {}", self.blocks)?;
        }
        write!(f, "]")
    }
}

// Kept in each program: no crate below both prints.
fn word_for(answer: Answer) -> &'static str {
    match answer {
        Answer::First => "first",
        Answer::Second => "second",
        Answer::Known => "known",
    }
}

impl Row {
    pub(crate) fn empty() -> Row {
        Row {
            names: [0; PLACES],
            counts: [0; PLACES],
            marks: agreement::empty(0),
            lengths: [0; 32],
            shown: proposing::empty(0),
            proposed: [0; 32],
            priorities: [0; 32],
            answer: Answer::Known,
            lock: 0,
        }
    }

    // ---- the clauses that do something

    fn send(&mut self, c: Clause) {
        let bytes = log_bytes(c);
        let filed = filing::file(
            self.marks,
            &mut self.lengths,
            &mut self.names,
            &mut self.counts,
            0,
            front(&bytes, c),
            sender(c),
        );
        self.answer = filed.answer;
        self.marks = filed.after;
    }

    fn propose(&mut self, c: Clause) {
        let bytes = proposal_bytes(c);
        let filed = proposing::file(
            self.shown,
            &mut self.proposed,
            &mut self.priorities,
            &mut self.names,
            &mut self.counts,
            0,
            front(&bytes, c),
            sender(c),
            c.number(b'y'),
        );
        self.answer = filed.answer;
        self.shown = filed.after;
    }

    fn set_lock(&mut self, c: Clause) {
        store::file(&mut self.names, &mut self.counts, SPAN, &log_bytes(c));
        self.lock = c.digits(b'[');
    }

    // A LOG, snapshot one or snapshot two.
    fn send_or_snap(&mut self, c: Clause) {
        match c.mark() {
            Some(b'e') => self.marks = agreement::snap(self.marks, false),
            Some(b'o') => self.marks = agreement::snap(self.marks, true),
            _ => self.send(c),
        }
    }

    // ---- the clauses that ask

    // The log at this sender's place.
    fn log(&self, sender: u8, blocks: u8) -> Log<'_> {
        let at = MOST_BLOCKS * usize::from(sender);
        Log {
            names: self.names.get(at..).unwrap_or(&[]),
            counts: self.counts.get(at..).unwrap_or(&[]),
            blocks,
        }
    }

    fn print_grade(&self, rt: &impl Print, grade: u8) -> io::Result<()> {
        match grading::grade(
            self.marks,
            &self.lengths,
            &self.names,
            &self.counts,
            0,
            grade,
        ) {
            Some(log) => rt.print(self.log(log.sender, log.blocks)),
            None => rt.print("none"),
        }
    }

    // Whose proposal is voted for, or the lock, and the log of the vote.
    fn print_vote(&self, rt: &impl Print) -> io::Result<()> {
        match proposing::choose(
            self.shown,
            &self.proposed,
            &self.priorities,
            &self.names,
            &self.counts,
            0,
            SPAN,
            usize::from(self.lock),
        ) {
            Some(i) => {
                let blocks = self.proposed.get(usize::from(i)).copied().unwrap_or(0);
                print!(rt; "{i} {}", self.log(i, blocks))
            }
            None => print!(rt; "lock {}", self.log(LOCK, self.lock)),
        }
    }

    // What the clause asks for, behind a colon. Kept as a match on letters, here and below: the script says them.
    fn print_found(&self, rt: &impl Print, c: Clause) -> io::Result<()> {
        print!(rt; ": ")?;
        match c.word() {
            Some(b'g') => self.print_grade(rt, c.byte(b'e')),
            Some(b'a') => rt.print(word_for(self.answer)),
            _ => self.print_vote(rt),
        }
    }
}

impl Row {
    // The clause that ends the line asks, and the next row starts from nothing.
    pub(crate) fn take(&mut self, rt: &impl Print, c: Clause) -> io::Result<()> {
        if c.end == Some(b'\n') {
            self.print_found(rt, c)?;
            *self = Row::empty();
            return Ok(());
        }
        match c.word() {
            Some(b's') => self.send_or_snap(c),
            Some(b'p') => self.propose(c),
            Some(b'l') => self.set_lock(c),
            _ => {}
        }
        Ok(())
    }
}
