// Prints the text of a roll read from standard input. What the text is, and that it fits, is the library's promise; here bytes are
// only read and written.
#![tactic(auto)]

use script::read_full;
use std::io;

fn print_text(rt: &impl Print, roll: &[u8], text: &mut [u8]) -> io::Result<()> {
    let end = run::roll_text(roll, text);
    rt.write_all(&text[..end])
}

// The space is one byte longer than the longest roll, so that a longer one is seen to be longer; the rest of it is not read.
fn main(rt: HostRuntime) -> io::Result<()> {
    let mut space = [0u8; run::MOST_ROLL + 1];
    let mut text = [0u8; run::MOST_ROLL];
    let roll = read_full(&mut rt.reader(), &mut space)?;
    print_text(&rt, roll, &mut text)
}
