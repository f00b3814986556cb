// The scripts of the test programs: a program reads its rows from standard input, writes them out again and does what they say.
// A row is a line of clauses, each ended by a semicolon or by the end of the line. Of a clause with a bar in it what stands before
// the last bar is written, and what stands behind it is read. From a # on to the end of its line stands a comment, and nothing is
// read of a clause that has one.
#![tactic(auto)]

ghost use Rattle.std.specs.Prelude.{◌≤◌, ◌<◌, ◌+◌, ◌-◌, ◌%◌, ◌^◌, min, length, ◌≡◌, IfOk, MatchOption, None, [], find, reverse, drop, get_or, eqb, cond, not};
ghost use Rattle.std.specs.Char.{is_ascii_digit, is_ascii_uppercase, IsAsciiDigit};
ghost use Rattle.std.specs.Iterator.{at_most};
ghost use Rattle.std.specs.List.{position_or_len, suffix_len};
ghost use Rattle.script.specs.Clauses.{is_stop, is_line_end, said_place, before_bar, end_by, IsFront};
ghost use Rattle.script.specs.Marks.{is_mark, digits_behind, number_behind, with_digit};

use std::io;
use std::io::Read;

// What a clause says. A number is known by the mark before it, which is the last letter, bracket or slash.
#[derive(Clone, Copy)]
pub struct Clause<'a> {
    // What is written of it.
    pub text: &'a [u8],
    // What is read of it.
    pub said: &'a [u8],
    // What ended it, a semicolon or a line end; none where nothing of it is written.
    pub end: Option<u8>,
}

// The mark of the digits that stand before the first mark.
pub const NO_MARK: u8 = 0;

// The digits behind a mark, as one number: those of [5,6] as 56.
#[derive(Clone, Copy)]
struct Number {
    value: u64,
    digits: u8,
}

// Numbers have at most 19 digits.
const MOST: u64 = 1000000000000000000;

impl Number {
    const NONE: Number = Number {
        value: 0,
        digits: 0,
    };

    // One digit more, as far as there is room.
    fn with(self, digit: u8) -> Number
        requires { 48 ≤ digit × digit < 58 }
        ensures value { result.value ≡ with_digit self.value digit }
        ensures digits { result.digits ≡ min (self.digits + 1) 255 }
    {
        let value = if self.value < MOST {
            10 * self.value + u64::from(digit - b'0')
        } else {
            self.value
        };
        Number {
            value,
            digits: self.digits.saturating_add(1),
        }
    }
}

fn is_mark(b: u8) -> bool
    ensures { result ≡ is_mark b }
{
    b'A' <= b || b == b'/'
}

impl<'a> Clause<'a> {
    // The clause that says nothing, and of which nothing is written.
    pub fn empty() -> Clause<'a>
        ensures text { result.text.now ≡ [] }
        ensures said { result.said.now ≡ [] }
        ensures end { result.end ≡ None }
    {
        Clause {
            text: &[],
            said: &[],
            end: None,
        }
    }

    // Of a clause with a comment in it nothing is read.
    fn of(front: &'a [u8], comment: bool) -> Clause<'a>
        ensures text { result.text.now ≡ cond comment front.now (before_bar front.now) }
        ensures said { result.said.now ≡ cond comment [] (drop (said_place front.now) front.now) }
    {
        let place = front.len() - said_length(front);
        Clause {
            text: if comment || place == 0 {
                front
            } else {
                &front[..place - 1]
            },
            said: if comment { &[] } else { &front[place..] },
            end: None,
        }
    }

    fn ended(self, by: u8) -> Clause<'a>
        ensures text { result.text.now ≡ self.entry.text.now }
        ensures said { result.said.now ≡ self.entry.said.now }
        ensures end { result.end ≡ end_by self.entry.text.now by }
    {
        let end = if self.text.is_empty() { None } else { Some(by) };
        Clause { end, ..self }
    }

    // The first letter.
    pub fn word(&self) -> Option<u8>
        ensures { result ≡ find is_mark self.now.said.now }
    {
        self.said.iter().copied().find(|b| is_mark(*b))
    }

    // The last mark.
    pub fn mark(&self) -> Option<u8>
        ensures { result ≡ find is_mark (reverse self.now.said.now) }
    {
        self.said.iter().rev().copied().find(|b| is_mark(*b))
    }

    // The last capital letter.
    pub fn capital(&self) -> Option<u8>
        ensures { result ≡ find is_ascii_uppercase (reverse self.now.said.now) }
    {
        self.said
            .iter()
            .rev()
            .copied()
            .find(|b| b.is_ascii_uppercase())
    }

    fn behind(&self, mark: u8) -> Number
        ensures value { result.value ≡ number_behind mark self.now.said.now }
        ensures digits { result.digits ≡ min (length (digits_behind mark self.now.said.now)) 255 }
    {
        // Most marks that are asked for are nowhere in the clause.
        if mark != NO_MARK && !self.said.contains(&mark) {
            return Number::NONE;
        }
        let mut last = NO_MARK;
        let mut number = Number::NONE;
        for b in self.said {
            if is_mark(*b) {
                last = *b;
            } else if b.is_ascii_digit() && last == mark {
                number = number.with(*b);
            }
        }
        number
    }

    // The number behind this mark, 0 where there is none.
    pub fn number(&self, mark: u8) -> u64
        ensures { result ≡ number_behind mark self.now.said.now }
    {
        self.behind(mark).value
    }

    // How many digits stand behind this mark.
    pub fn digits(&self, mark: u8) -> u8
        ensures { result ≡ min (length (digits_behind mark self.now.said.now)) 255 }
    {
        self.behind(mark).digits
    }

    // The same number for a place or a length, and its last bits in 32, 16 and 8. Kept as one method for each: a generic one needs
    // a trait with an impl for each width.
    pub fn place(&self, mark: u8) -> usize
        ensures { result ≡ number_behind mark self.now.said.now }
    {
        self.number(mark) as usize
    }

    pub fn long(&self, mark: u8) -> u32
        ensures { result ≡ number_behind mark self.now.said.now % 2 ^ 32 }
    {
        (self.number(mark) & 0xffff_ffff) as u32
    }

    pub fn short(&self, mark: u8) -> u16
        ensures { result ≡ number_behind mark self.now.said.now % 2 ^ 16 }
    {
        (self.number(mark) & 0xffff) as u16
    }

    pub fn byte(&self, mark: u8) -> u8
        ensures { result ≡ number_behind mark self.now.said.now % 2 ^ 8 }
    {
        (self.number(mark) & 0xff) as u8
    }

    // What is written of it.
    pub fn write(&self, rt: &impl Print) -> io::Result<()> {
        rt.write_all(self.text)
    }

    pub fn write_end(&self, rt: &impl Print) -> io::Result<()> {
        match self.end {
            Some(end) => rt.write_all(&[end]),
            None => Ok(()),
        }
    }
}

// The clauses of a script, one after the other; what is left of it.
#[derive(Clone, Copy)]
pub struct Clauses<'a> {
    rest: &'a [u8],
}

impl<'a> Clauses<'a> {
    pub fn new(script: &'a [u8]) -> Clauses<'a>
        ensures { result.rest.now ≡ script.now }
    {
        Clauses { rest: script }
    }
}

fn is_stop(b: u8) -> bool
    ensures { result ≡ is_stop b }
{
    matches!(b, b';' | b'\n' | b'#')
}

// How many bytes stand before the end of the clause, or before a comment in it.
fn stop_place(script: &[u8]) -> usize
    ensures place { result ≡ position_or_len is_stop script.now }
    ensures bound { result ≤ length script.now }
{
    script.iter().take_while(|b| !is_stop(**b)).count()
}

// How many stand before the end of the line.
fn line_end(script: &[u8]) -> usize
    ensures place { result ≡ position_or_len is_line_end script.now }
    ensures bound { result ≤ length script.now }
{
    script.iter().take_while(|b| **b != b'\n').count()
}

// How many stand behind the last bar; all where there is none.
fn said_length(front: &[u8]) -> usize
    ensures length { result ≡ suffix_len (λ b. not (eqb b 124)) front.now }
    ensures bound { result ≤ length front.now }
{
    front.iter().rev().take_while(|b| **b != b'|').count()
}

fn is_comment(behind: &[u8]) -> bool
    ensures { result ≡ eqb (get_or behind.now 0 0) 35 }
{
    matches!(behind.first(), Some(b'#'))
}

// A comment goes on to the end of its line.
fn from_end(behind: &[u8], comment: bool) -> &[u8]
    ensures place { result.now ≡ cond comment (drop (position_or_len is_line_end behind.now) behind.now) behind.now }
    ensures bound { length result.now ≤ length behind.now }
{
    if comment {
        &behind[line_end(behind)..]
    } else {
        behind
    }
}

// What ends the clause, and what is left behind it. The end of the script ends a line.
fn split_end(tail: &[u8]) -> (u8, &[u8])
    ensures end { result.0 ≡ get_or tail.now 0 10 }
    ensures left { result.1.now ≡ drop 1 tail.now }
    ensures length { length result.1.now ≡ length tail.now - 1 }
{
    match tail.split_first() {
        Some((end, left)) => (*end, left),
        None => (b'\n', tail),
    }
}

impl<'a> Iterator for Clauses<'a> {
    type Item = Clause<'a>;

    // It ends at the end of the script alone, and each clause leaves less of it, just what stands behind it.
    ghost next_gives = { λ s r t. MatchOption r ((s.rest.now ≡ []) × (t.rest.now ≡ [])) (λ c. (length t.rest.now < length s.rest.now) × IsFront s.rest.now c t.rest.now) };

    ghost remaining = { λ s. at_most (length s.rest.now) };

    fn next(&mut self) -> Option<Clause<'a>> {
        if self.rest.is_empty() {
            return None;
        }
        let (front, behind) = self.rest.split_at(stop_place(self.rest));
        let comment = is_comment(behind);
        let (end, left) = split_end(from_end(behind, comment));
        self.rest = left;
        Some(Clause::of(front, comment).ended(end))
    }
}

// Reads until the space is full or the input ends: what stands at its front. Kept as a loop: what std reads at once has to fill the space
// or lies in a Vec.
pub fn read_full<'a, R: Read>(reader: &mut R, space: &'a mut [u8]) -> io::Result<&'a [u8]>
    ensures { IfOk result (λ text. length text.now ≤ length space.old) }
{
    let mut done = 0;
    while done < space.len() {
        let n = reader.read(&mut space[done..])?;
        if n == 0 {
            break;
        }
        done += n;
    }
    Ok(&space[..done])
}
