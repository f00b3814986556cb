// What a clause asks for: the call by its first letter, each number by the letter before it.
use super::print::print_read;
use message::{BLOCK_WIDTH, HEAD_LENGTH, MOST_BLOCKS, store, writer};
use script::Clause;
use std::io;

// The longest message; the writer's buffer has room for just that.
const MOST_BYTES: usize = HEAD_LENGTH + BLOCK_WIDTH * MOST_BLOCKS;

// What the calls work on, in the form that they take. Logs stand in the lists, `of` so many blocks `at` a place; messages to be read in
// the bytes, and those written in `out`.
#[derive(Clone, Copy)]
pub(crate) struct Memory {
    bytes: [u8; 666],
    out: [u8; MOST_BYTES],
    names: [u64; 128],
    counts: [u16; 128],
}

// What is read in the first so many bytes.
fn print_front(rt: &impl Print, bytes: &[u8], length: usize) -> io::Result<()> {
    match bytes.get(..length) {
        Some(front) => print_read(rt, front),
        None => Ok(()),
    }
}

impl Memory {
    pub(crate) fn fresh() -> Memory {
        Memory {
            bytes: [0; 666],
            out: [7; MOST_BYTES],
            names: [0; 128],
            counts: [0; 128],
        }
    }

    // As in `block at 66, name 9, with 3`.
    fn set_block(&mut self, c: Clause) {
        let at = c.place(b't');
        if at < 128 {
            self.names[at] = c.number(b'e');
            self.counts[at] = c.short(b'h');
        }
    }

    // As in `edit byte 36 to 7`.
    fn set_byte(&mut self, c: Clause) {
        if let Some(byte) = self.bytes.get_mut(c.place(b'e')) {
            *byte = c.byte(b'o');
        }
    }

    fn byte_at(&self, at: usize) -> u8 {
        self.out.get(at).copied().unwrap_or(0)
    }

    fn print_name(&self, rt: &impl Print, at: usize) -> io::Result<()> {
        match self.names.get(at) {
            Some(name) => rt.print(*name),
            None => Ok(()),
        }
    }

    // Writing the log as a LOG or, with a block more, as a PROPOSAL; filing it, comparing it, copying it. Kept as a match on letters,
    // here and below: the script says them.
    fn call(&mut self, word: u8, c: Clause) -> bool {
        let at = c.place(b't');
        let of = c.place(b'f');
        let from = c.byte(b'm');
        let view = c.long(b'w');
        let out = &mut self.out;
        let names = &mut self.names;
        let counts = &mut self.counts;
        match word {
            b'w' => writer::write_log(out, names, counts, at, of, from, view),
            b'p' => writer::write_proposal(
                out,
                names,
                counts,
                at,
                of,
                c.number(b'k'),
                c.short(b'h'),
                from,
                view,
                c.number(b'y'),
            ),
            b'f' => store::file(names, counts, at, out),
            b'm' => store::matches(out, names, counts, at, of),
            b's' => store::is_prefix(names, counts, at, of, c.place(b'n'), c.place(b'g')),
            _ => store::copy(names, counts, at, c.place(b'o'), of),
        }
    }

    // The answer is written only of a clause that has an end.
    fn print_call(&mut self, rt: &impl Print, word: u8, c: Clause) -> io::Result<()> {
        let answer = if self.call(word, c) { "yes" } else { "no" };
        match c.end {
            Some(_) => rt.print(answer),
            None => Ok(()),
        }
    }
}

impl Memory {
    pub(crate) fn take(&mut self, rt: &impl Print, c: Clause) -> io::Result<()> {
        let Some(word) = c.word() else {
            return Ok(());
        };
        match word {
            b'r' => print_front(rt, &self.bytes, c.place(b's'))?,
            b'a' => print_front(rt, &self.out, c.place(b's'))?,
            b'b' => self.set_block(c),
            b'e' => self.set_byte(c),
            b'l' => rt.print(self.byte_at(c.place(b'e')))?,
            b'n' => self.print_name(rt, c.place(b'e'))?,
            _ => self.print_call(rt, word, c)?,
        }
        Ok(())
    }
}
