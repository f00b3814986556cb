// The turns of a script, one after the other.
ghost use Rattle.std.specs.Prelude.{◌≤◌, length};
ghost use Rattle.std.specs.Iterator.{at_most};

use script::{Clause, Clauses};

// The call of a clause, or "lent: begin 1; view 0 LOG [5] from 1; act": three clauses on one lent record.
#[derive(Clone, Copy)]
pub(crate) enum Turn<'a> {
    Call(Clause<'a>),
    Lent(Clause<'a>, Clause<'a>, Clause<'a>),
}

#[derive(Clone, Copy)]
pub(crate) struct Turns<'a> {
    clauses: Clauses<'a>,
}

// The next clause, and one that says nothing where none is left.
fn following<'a>(clauses: &mut Clauses<'a>) -> Clause<'a>
    ensures { length clauses.new.rest.now ≤ length clauses.old.rest.now }
{
    clauses.next().unwrap_or(Clause::empty())
}

impl<'a> Turns<'a> {
    pub(crate) fn new(clauses: Clauses<'a>) -> Turns<'a> {
        Turns { clauses }
    }
}

impl<'a> Iterator for Turns<'a> {
    type Item = Turn<'a>;

    ghost remaining = { λ s. at_most (length s.clauses.rest.now) };

    fn next(&mut self) -> Option<Turn<'a>> {
        let first = self.clauses.next()?;
        if first.word() != Some(b'l') {
            return Some(Turn::Call(first));
        }
        let second = following(&mut self.clauses);
        let third = following(&mut self.clauses);
        Some(Turn::Lent(first, second, third))
    }
}
