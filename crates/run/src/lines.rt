// The lines of a roll's text, put into lent bytes by hand, as its digits are (texts.rt).
ghost use Rattle.std.specs.Prelude.{◌+◌, ◌≤◌, ◌++◌, length};
ghost use Rattle.agreement.specs.Sets.{is_yes};
ghost use Rattle.bench.specs.Refusals.{refusal_number};
ghost use Rattle.run.specs.Texts.{ascii, decimal, most_digits};
ghost use Rattle.run.specs.Roll.{benches_of, own_of};
ghost use Rattle.run.specs.RollText.{no_roll_text, first_line, mark_text};
ghost use Rattle.run.specs.RollSteps.{line_room, start_text, taken_text, stand_text, acted_text, answer_text, Puts, PutsWithin, told, LineFits, LineEnds};

use super::Answered;
use super::roll::Roll;
use super::texts::{put_decimal, put_word};
use agreement::Answer;
use bench::{Made, Refusal};

// What stands after a call: the number of decided blocks, and the mark, which any number but zero sets.
#[derive(Clone, Copy)]
pub(crate) struct Stands {
    pub(crate) decided: u16,
    pub(crate) parted: u16,
}

// A word, and a number after it.
fn put_numbered(text: &mut [u8], at: usize, word: &[u8], x: u32) -> usize
    requires { at + length word.now + most_digits ≤ length text.old }
    ensures { PutsWithin (length word.now + most_digits) (word.now ++ decimal x) at text.old result text.new }
{
    let p = put_word(text, at, word);
    put_decimal(text, p, x)
}

pub(crate) fn put_first_line(text: &mut [u8], roll: Roll) -> usize
    requires { line_room ≤ length text.old }
    ensures { PutsWithin line_room (first_line (own_of roll.entry.bytes.now) (benches_of roll.entry.bytes.now)) 0 text.old result text.new }
{
    let own = roll.own();
    let benches = roll.benches();
    let p = put_numbered(text, 0, b"bench ", own as u32);
    let q = put_numbered(text, p, b" of ", benches as u32);
    put_word(text, q, b"\n")
}

pub(crate) fn put_no_roll(text: &mut [u8]) -> usize
    requires { line_room ≤ length text.old }
    ensures { Puts no_roll_text 0 text.old result text.new }
{
    put_word(text, 0, b"roll ?\n")
}

// A refusal: its number ends the line.
fn put_refused(text: &mut [u8], at: usize, word: &[u8], why: Refusal) -> usize
    requires { at + length word.now + 11 ≤ length text.old }
    ensures { PutsWithin (length word.now + 11) (word.now ++ (decimal (refusal_number why) ++ ascii "\n")) at text.old result text.new }
{
    let number = u8::from(why);
    let p = put_numbered(text, at, word, u32::from(number));
    put_word(text, p, b"\n")
}

fn put_start(text: &mut [u8], at: usize, answer: Result<(), Refusal>) -> usize
    requires { at + 12 ≤ length text.old }
    ensures { PutsWithin 12 (start_text answer) at text.old result text.new }
{
    match answer {
        Ok(()) => put_word(text, at, b" ok\n"),
        Err(why) => put_refused(text, at, b" ", why),
    }
}

fn put_begun(text: &mut [u8], at: usize, beat: u32, answer: Result<(), Refusal>) -> usize
    requires { at + line_room ≤ length text.old }
    ensures { PutsWithin line_room (ascii "begin " ++ (decimal beat ++ start_text answer)) at text.old result text.new }
{
    let p = put_word(text, at, b"begin ");
    let q = put_decimal(text, p, beat);
    put_start(text, q, answer)
}

fn put_taken(text: &mut [u8], at: usize, answer: Result<Answer, Refusal>) -> usize
    requires { at + line_room ≤ length text.old }
    ensures { PutsWithin line_room (taken_text answer) at text.old result text.new }
{
    match answer {
        Ok(Answer::First) => put_word(text, at, b"take first\n"),
        Ok(Answer::Second) => put_word(text, at, b"take second\n"),
        Ok(Answer::Known) => put_word(text, at, b"take known\n"),
        Err(why) => put_refused(text, at, b"take ", why),
    }
}

// The mark, and the line's end.
fn put_mark(text: &mut [u8], at: usize, parted: u16) -> usize
    requires { at + 8 ≤ length text.old }
    ensures { PutsWithin 8 (mark_text (is_yes parted) ++ ascii "\n") at text.old result text.new }
{
    if parted != 0 {
        return put_word(text, at, b" parted\n");
    }
    put_word(text, at, b"\n")
}

// What stands: the decided blocks, and the mark.
fn put_stand(text: &mut [u8], at: usize, stands: Stands) -> usize
    requires { at + 19 ≤ length text.old }
    ensures { PutsWithin 19 (stand_text stands.decided (is_yes stands.parted)) at text.old result text.new }
{
    let p = put_numbered(text, at, b" ", stands.decided as u32);
    put_mark(text, p, stands.parted)
}

// What was made: its kind's word, its blocks, and what stands.
fn put_made(text: &mut [u8], at: usize, word: &[u8], k: u8, stands: Stands) -> usize
    requires { (at + line_room ≤ length text.old) × (length word.now ≤ 19) }
    ensures { PutsWithin line_room (word.now ++ (decimal k ++ stand_text stands.decided (is_yes stands.parted))) at text.old result text.new }
{
    let p = put_numbered(text, at, word, k as u32);
    put_stand(text, p, stands)
}

fn put_acted(text: &mut [u8], at: usize, answer: Result<Made, Refusal>, stands: Stands) -> usize
    requires { at + line_room ≤ length text.old }
    ensures { PutsWithin line_room (acted_text stands.decided (is_yes stands.parted) answer) at text.old result text.new }
{
    match answer {
        Ok(Made::Nothing) => put_made(text, at, b"act none ", 0, stands),
        Ok(Made::Log(k)) => put_made(text, at, b"act log ", k, stands),
        Ok(Made::Proposal(k)) => put_made(text, at, b"act proposal ", k, stands),
        Err(why) => put_refused(text, at, b"act ", why),
    }
}

// The line of an event, by what it answered and what stands after it.
fn put_line(text: &mut [u8], at: usize, answer: Answered, stands: Stands) -> usize
    requires { at + line_room ≤ length text.old }
    ensures { PutsWithin line_room (answer_text stands.decided (is_yes stands.parted) answer) at text.old result text.new }
{
    match answer {
        Answered::Begun(beat, start) => put_begun(text, at, beat, start),
        Answered::Taken(taken) => put_taken(text, at, taken),
        Answered::Acted(made) => put_acted(text, at, made, stands),
    }
}

// The same where lines are asked for.
pub(crate) fn tell(
    text: &mut [u8],
    at: usize,
    prints: bool,
    answer: Answered,
    stands: Stands,
) -> usize
    requires { LineFits prints at text.old }
    ensures puts { Puts (told prints (answer_text stands.decided (is_yes stands.parted) answer)) at text.old
        result text.new }
    ensures line_ends { LineEnds prints at result }
{
    if prints {
        return put_line(text, at, answer, stands);
    }
    at
}
