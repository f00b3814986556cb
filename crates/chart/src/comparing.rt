// Whether the charts of other views are that of the first, counted from each view's first beat.
use super::cells::{COLUMNS, ROWS, cell};
use super::lines::line_at;
use super::words::Words;
use script::Clause;
use std::io;

// The view whose chart is written.
pub(crate) const FIRST: u32 = 1;

// The chart has the rows of two views, and behind them the lines of four acts.
fn is_alike(v: u32) -> bool {
    (0..2 * ROWS).all(|row| (0..COLUMNS).all(|k| cell(v, row, k) == cell(FIRST, row, k)))
        && (0..4).all(|k| line_at(v, k) == line_at(FIRST, k))
}

impl<'a, P: Print> Words<'a, P> {
    // The other views stand behind the letters from a to h.
    fn say_asked(&self, c: Clause) -> io::Result<()> {
        for letter in b'a'..=b'h' {
            print!(self.rt; ", {}", c.number(letter))?;
        }
        Ok(())
    }

    // Writes down each view whose chart is unlike, and behind them all whether there was one.
    fn say_others(&self, c: Clause) -> io::Result<()> {
        let mut unlike = false;
        for letter in b'a'..=b'h' {
            let v = c.long(letter);
            if !is_alike(v) {
                self.say(b'U', unlike.into())?;
                print!(self.rt; "{v}")?;
                unlike = true;
            }
        }
        self.say(b'A', unlike.into())?;
        Ok(())
    }

    // Which are asked, and which of them are unlike.
    pub(crate) fn say_comparison(&self, c: Clause) -> io::Result<()> {
        self.say_asked(c)?;
        print!(self.rt; ": ")?;
        self.say_others(c)
    }
}
