// Messages and logs through the compiled code, a line for each vector: what is proved of the source is seen here of a program.
// The vectors stand in the file stdin, each with the call to make behind a bar.
#![tactic(auto)]

mod print;
mod step;

use script::{Clauses, read_full};
use std::io;
use step::Memory;

// Twice as long as the script, so that rows can be added; what does not fit is not read.
const MOST: usize = 8192;

// Clause after clause: it is written, then taken, and what it asks for stands behind it. Kept in each program: a function of script
// that prints could promise nothing.
fn run(rt: &impl Print, script: &[u8], memory: &mut Memory) -> io::Result<()> {
    for c in Clauses::new(script) {
        c.write(rt)?;
        memory.take(rt, c)?;
        c.write_end(rt)?;
    }
    Ok(())
}

fn main(rt: HostRuntime) -> io::Result<()> {
    let mut space = [0u8; MOST];
    let script = read_full(&mut rt.reader(), &mut space)?;
    run(&rt, script, &mut Memory::fresh())
}
