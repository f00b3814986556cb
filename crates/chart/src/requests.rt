// What a clause asks for, by its first letter; each number by the letter before it.
use super::asking::taken;
use super::beats::moved;
use super::comparing::FIRST;
use super::replica::Kind;
use super::words::{Views, Words};
use script::Clause;
use std::io;

impl<'a, P: Print> Words<'a, P> {
    // Whether this is the last view is asked too.
    fn say_doubt(&self, view: u32) -> io::Result<()> {
        self.say(b'L', taken(Kind::Log, view, 0).into())?;
        self.say(b'N', taken(Kind::Log, moved(view, 1, 0), 0).into())?;
        Ok(())
    }

    // Kept as a match on letters: the script says them.
    pub(crate) fn take(&self, c: Clause) -> io::Result<()> {
        let number = c.long(b't');
        match c.word() {
            Some(b'n') => print!(self.rt; "\n"),
            Some(b'c') => self.say_cells(FIRST, number),
            Some(b'a') => self.say_line(Views::Counted, FIRST, number),
            Some(b'b') => self.say_line(Views::Numbered(number / 4), number / 4, number % 4),
            Some(b'o') => self.say_comparison(c),
            Some(b'l') => self.say_doubt(number),
            _ => Ok(()),
        }
    }
}
