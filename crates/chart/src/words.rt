// Writing the answers, by the words of the script.
use super::answers::Mark;
use super::beats::{beat_of, moved};
use super::cells::{COLUMNS, cell};
use super::lines::{NEAR, line_at};
use super::replica::Replica;
use script::Clauses;
use std::io;

// The clauses whose words the answers are written by, and where they are written to.
#[derive(Drop)]
pub(crate) struct Words<'a, P> {
    pub(crate) rt: &'a P,
    pub(crate) script: Clauses<'a>,
}

// How the views of a line, which are counted from near v, are written: as counted, or by number, where v is this.
#[derive(Clone, Copy)]
pub(crate) enum Views {
    Counted,
    Numbered(u32),
}

// How many digits a number is written with.
fn digits_of(x: u32) -> usize {
    x.checked_ilog10().map_or(1, |power| power as usize + 1)
}

impl<'a, P: Print> Words<'a, P> {
    // Writes the word of a column for this answer, and gives the width that stands with it.
    pub(crate) fn say(&self, column: u8, answer: usize) -> io::Result<usize> {
        for c in self.script {
            if c.capital() == Some(column) && c.place(column) == answer {
                c.write(self.rt)?;
                return Ok(c.place(b'w'));
            }
        }
        print!(self.rt; "?")?;
        Ok(0)
    }

    // Gives the width of the view.
    fn say_view(&self, views: Views, view: u32) -> io::Result<usize> {
        match views {
            Views::Counted => self.say(b'V', view as usize),
            Views::Numbered(v) => {
                let number = moved(v, view, NEAR);
                print!(self.rt; "{number}")?;
                Ok(digits_of(number))
            }
        }
    }

    // The word, and the view behind it where it has a width for it. What is not there has the number and the view 0.
    fn say_mark(&self, column: u8, mark: Option<Mark>, views: Views) -> io::Result<()> {
        let (answer, view) = mark.map_or((0, 0), |m| (usize::from(m.answer), m.view));
        let width = self.say(column, answer)?;
        if 0 < width {
            let k = self.say_view(views, view)?;
            if k <= width {
                self.say(b'P', width - k)?;
            }
        }
        Ok(())
    }

    // The act of column k of view v, or that its beat does not begin.
    pub(crate) fn say_line(&self, views: Views, v: u32, k: u32) -> io::Result<()> {
        let begun = Replica::fresh().begin(beat_of(v, k));
        let refusal = begun.err().map_or(0, u8::from);
        if 0 < self.say(b'B', refusal.into())? {
            let line = line_at(v, k);
            self.say_mark(b'R', line.reads, views)?;
            self.say(b'W', line.one.into())?;
            self.say(b'W', line.two.into())?;
            self.say_mark(b'M', line.makes, views)?;
            self.say(b'D', line.decides.into())?;
            self.say_mark(b'S', line.stores, views)?;
        }
        Ok(())
    }

    pub(crate) fn say_cells(&self, v: u32, row: u32) -> io::Result<()> {
        for k in 0..COLUMNS {
            self.say(b'C', cell(v, row, k).into())?;
        }
        Ok(())
    }
}
