// Words and numbers into the text; each function answers where the text goes on. Text and place stay two parameters, here and in what
// writes lines and pages: a struct that holds a `&mut` needs clauses of separation logic.
ghost use Rattle.std.specs.Prelude.{◌≡◌, ◌+◌, ◌*◌, ◌<◌, ◌≤◌, length};
ghost use Rattle.run.specs.Texts.{digits, decimal, most_digits};
ghost use Rattle.run.specs.RollSteps.{Puts, PutsWithin, PutsJust, pair_of};

pub(crate) fn put_word(text: &mut [u8], at: usize, word: &[u8]) -> usize
    requires { at + length word.now ≤ length text.old }
    ensures { Puts word.now at text.old result text.new }
{
    for (i, b) in word.iter().enumerate() {
        text[at + i] = *b;
    }
    at + word.len()
}

// The two digits of a number below 100, a zero before one digit alone.
fn put_pair(text: &mut [u8], at: usize, x: u32) -> usize
    requires { (at + 2 ≤ length text.old) × (x < 100) }
    ensures { PutsJust 2 (pair_of x) at text.old result text.new }
{
    text[at] = 48 + (x / 10) as u8;
    text[at + 1] = 48 + (x % 10) as u8;
    at + 2
}

// The digits of x, at most so many pairs of them.
fn put_digits(text: &mut [u8], at: usize, x: u32, pairs: usize) -> usize
    requires { at + 2 * pairs ≤ length text.old }
    ensures { PutsWithin (2 * pairs) (digits (2 * pairs) x) at text.old result text.new }
{
    if pairs == 0 {
        return at;
    }
    if x < 10 {
        text[at] = 48 + x as u8;
        return at + 1;
    }
    if x < 100 {
        return put_pair(text, at, x);
    }
    let p = put_digits(text, at, x / 100, pairs - 1);
    put_pair(text, p, x % 100)
}

// One digit, or two: the most numbers have no more, and are written without a call of the recursion. Kept, and not the digits of the
// crate itoa: those go through a buffer and are copied, and a refused call then takes 425 instructions in place of 365.
pub(crate) fn put_decimal(text: &mut [u8], at: usize, x: u32) -> usize
    requires { at + most_digits ≤ length text.old }
    ensures { PutsWithin most_digits (decimal x) at text.old result text.new }
{
    if x < 10 {
        text[at] = 48 + x as u8;
        return at + 1;
    }
    if x < 100 {
        return put_pair(text, at, x);
    }
    put_digits(text, at, x, 5)
}
