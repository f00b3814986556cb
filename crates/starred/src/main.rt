// The table of schedules (agreement, proofs/Starred.antt) through the compiled code: the rows are read from standard input, in the
// table's order, and each is written with what is found.
#![tactic(auto)]

mod log;
mod row;

use row::Row;
use script::{Clauses, read_full};
use std::io;

// Clause after clause: it is written, then taken, and what it asks for stands behind it. Kept in each program: a function of script
// that prints could promise nothing.
fn run(rt: &impl Print, script: &[u8], row: &mut Row) -> io::Result<()> {
    for c in Clauses::new(script) {
        c.write(rt)?;
        row.take(rt, c)?;
        c.write_end(rt)?;
    }
    Ok(())
}

fn main(rt: HostRuntime) -> io::Result<()> {
    let mut space = [0u8; 8192];
    let script = read_full(&mut rt.reader(), &mut space)?;
    run(&rt, script, &mut Row::empty())
}
