// The calls on a record: a clause says what a call is handed, and the answer is written behind it.
ghost use Rattle.std.specs.Prelude.{◌≤◌};

use super::form;
use super::form::LONGEST;
use super::gathering::gather;
use super::print::{Act, Place, say, word_for};
use super::turn::Turn;
use agreement::Answer;
use bench::{Bench, Entry, LEAST_LENT, MOST_BYTES, Made, Offer, Refusal};
use message::MOST_BLOCKS;
use script::Clause;
use std::io;

// The length that the clause has behind this mark, at most that of all there is; all there is where it has none.
fn length(c: Clause, mark: u8, most: usize) -> usize
    ensures { result ≤ most }
{
    match c.place(mark) {
        0 => most,
        said => said.min(most),
    }
}

// "act offering 5, priority 9": the offered block has one entry.
fn offer(c: Clause) -> Offer {
    Offer {
        name: c.number(b'g'),
        priority: c.number(b'y'),
        count: 1,
    }
}

// The record and the lent lists, in the form that the calls take. They are not cleared for a fresh bench: no call reads of them what its
// bench has not filed.
#[derive(Drop)]
pub(crate) struct Replica {
    bench: Bench,
    names: [u64; LEAST_LENT],
    counts: [u16; LEAST_LENT],
    totals: [u32; MOST_BLOCKS],
}

impl Replica {
    pub(crate) fn fresh() -> Replica {
        let names = [0u64; LEAST_LENT];
        let counts = [0u16; LEAST_LENT];
        let totals = [0u32; MOST_BLOCKS];
        Replica {
            bench: calls::open(1, 0, &names, &counts, &totals).after,
            names,
            counts,
            totals,
        }
    }

    // "bench 0 of 4" or "open 0 of 4", also with the length of a list, as "name 6207", "count 6207" or "total 63". The number of its own
    // stands behind one of the two words.
    fn open(&mut self, c: Clause) -> Result<(), Refusal> {
        let i = length(c, b'e', LEAST_LENT);
        let j = length(c, b't', LEAST_LENT);
        let k = length(c, b'l', MOST_BLOCKS);
        let opened = calls::open(
            c.byte(b'f'),
            c.byte(b'h') | c.byte(b'n'),
            &self.names[..i],
            &self.counts[..j],
            &self.totals[..k],
        );
        self.bench = opened.after;
        opened.answer
    }

    // "begin 4". This call and those below may say the length of the totals, as "total 63".
    fn begin(&mut self, c: Clause) -> Result<(), Refusal> {
        let k = length(c, b'l', MOST_BLOCKS);
        let begun = calls::begin(
            self.bench,
            &self.names,
            &self.counts,
            &self.totals[..k],
            c.long(b'n'),
        );
        self.bench = begun.after;
        begun.answer
    }

    // "view 1 LOG [5] from 1"
    fn receive(&mut self, c: Clause) -> Result<Answer, Refusal> {
        let mut space = [0; LONGEST];
        let k = length(c, b'l', MOST_BLOCKS);
        let received = calls::receive(
            self.bench,
            &mut self.names,
            &mut self.counts,
            &self.totals[..k],
            form::write(&mut space, c),
        );
        self.bench = received.after;
        received.answer
    }

    // "act", "act offering 5, priority 9" or "act into 655 bytes"
    fn act(&mut self, c: Clause) -> Result<Made, Refusal> {
        let mut out = [0u8; MOST_BYTES];
        let size = length(c, b'o', MOST_BYTES);
        let k = length(c, b'l', MOST_BLOCKS);
        let totals = &mut self.totals[..];
        let acted = calls::act(
            self.bench,
            &mut self.names,
            &mut self.counts,
            &mut totals[..k],
            &mut out[..size],
            offer(c),
        );
        self.bench = acted.after;
        acted.answer
    }

    // "find 4"
    fn find(&self, c: Clause) -> Result<Entry, Refusal> {
        let k = length(c, b'l', MOST_BLOCKS);
        calls::find(
            self.bench,
            &self.names,
            &self.counts,
            &self.totals[..k],
            c.long(b'd'),
        )
    }

    // "total 2 to 9" is no call: that total is written over, as nobody should.
    fn spoil(&mut self, c: Clause) {
        if let Some(total) = self.totals.get_mut(c.place(b'l')) {
            *total = c.long(b'o');
        }
    }

    fn say_act(&self, rt: &impl Print, answer: Result<Made, Refusal>) -> io::Result<()> {
        let after = self.bench.head;
        say(rt, answer.map(|made| Act { made, after }))
    }

    // Where a clause says nothing, as behind the bar of a row that goes on with its bench, the record stays. Kept as a match on letters: the
    // script says them.
    fn call(&mut self, rt: &impl Print, c: Clause) -> io::Result<()> {
        match c.word() {
            // of "bench 0 of 4" no answer is written
            Some(b'b') if 0 < c.digits(b'h') => {
                let _ = self.open(c);
                Ok(())
            }
            Some(b'o') => say(rt, self.open(c).map(|()| "ok")),
            Some(b'b') => say(rt, self.begin(c).map(|()| "ok")),
            Some(b'v') => say(rt, self.receive(c).map(word_for)),
            Some(b'a') => {
                let answer = self.act(c);
                self.say_act(rt, answer)
            }
            Some(b'f') => say(rt, self.find(c).map(Place)),
            Some(b't') => {
                self.spoil(c);
                Ok(())
            }
            _ => Ok(()),
        }
    }

    // The three clauses are done before the last two are written.
    fn lend(
        &mut self,
        rt: &impl Print,
        begin: Clause,
        receive: Clause,
        act: Clause,
    ) -> io::Result<()> {
        begin.write(rt)?;
        let mut space = [0; LONGEST];
        let k = length(begin, b'l', MOST_BLOCKS);
        let totals = &mut self.totals[..];
        let gathered = gather(
            &mut self.bench,
            &mut self.names,
            &mut self.counts,
            &mut totals[..k],
            &mut [0; MOST_BYTES],
            form::write(&mut space, receive),
            begin.long(b'n'),
            offer(act),
        );
        say(rt, gathered.started.map(|()| "ok"))?;
        begin.write_end(rt)?;
        receive.write(rt)?;
        say(rt, gathered.taken.map(word_for))?;
        receive.write_end(rt)?;
        act.write(rt)?;
        self.say_act(rt, gathered.made)?;
        act.write_end(rt)
    }

    pub(crate) fn take(&mut self, rt: &impl Print, turn: Turn) -> io::Result<()> {
        match turn {
            Turn::Call(c) => {
                c.write(rt)?;
                self.call(rt, c)?;
                c.write_end(rt)
            }
            Turn::Lent(begin, receive, act) => self.lend(rt, begin, receive, act),
        }
    }
}
