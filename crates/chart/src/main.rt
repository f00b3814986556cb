// The calendar of a view and of two overlapping agreements, as a chart that the engine itself fills in: for every beat a bench is
// opened and asked. No beat of the calendar is written down; a column is only counted from the first beat of view v, 4v. The file
// stdin has the layout: each line up to its bar, and behind the bar what to ask.
#![tactic(auto)]

mod answers;
mod asking;
mod beats;
mod cells;
mod comparing;
mod lines;
mod replica;
mod requests;
mod way;
mod words;

use script::{Clauses, read_full};
use std::io;
use words::Words;

// Twice as long as the script, so that lines can be added; what does not fit is not read.
const MOST: usize = 8192;

// A clause with a capital letter is a word, to be written with the answers.
fn run(rt: &impl Print, script: Clauses) -> io::Result<()> {
    let words = Words { rt, script };
    for c in script {
        if c.capital().is_none() {
            c.write(rt)?;
            words.take(c)?;
            c.write_end(rt)?;
        }
    }
    Ok(())
}

fn main(rt: HostRuntime) -> io::Result<()> {
    let mut space = [0u8; MOST];
    let script = read_full(&mut rt.reader(), &mut space)?;
    run(&rt, Clauses::new(script))
}
