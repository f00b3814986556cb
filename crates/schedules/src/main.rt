// Document 01's schedules without a star through the compiled calls, a line for each, and a few more of their kind: what each call
// was handed, and what came back. An act's answer is what was made, its blocks, and the decided blocks, with the mark; a look-up's is
// the block's place, and the place inside it. The rows are read from standard input, without the answers.
#![tactic(auto)]

mod form;
mod gathering;
mod print;
mod schedule;
mod turn;

use schedule::Replica;
use script::{Clauses, read_full};
use std::io;
use turn::Turns;

fn do_rows(rt: &impl Print, turns: Turns) -> io::Result<()> {
    let mut replica = Replica::fresh();
    for turn in turns {
        replica.take(rt, turn)?;
    }
    Ok(())
}

fn main(rt: HostRuntime) -> io::Result<()> {
    let mut space = [0u8; 16384];
    let script = read_full(&mut rt.reader(), &mut space)?;
    do_rows(&rt, Turns::new(Clauses::new(script)))
}
