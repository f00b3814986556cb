// The messages that are handed in, of any form, refused ones too: a clause as "view 1 LOG [5,.. of 64] from 1 in 25 bytes" in bytes.
// All blocks have the name of the first.
ghost use Rattle.std.specs.Prelude.{◌≤◌};

use message::{BLOCK_WIDTH, HEAD_LENGTH, MOST_BLOCKS};
use script::Clause;

// The longest is a block longer than a message may be.
pub(crate) const LONGEST: usize = HEAD_LENGTH + BLOCK_WIDTH * MOST_BLOCKS + BLOCK_WIDTH;

fn blocks_of(c: Clause) -> u8 {
    match c.number(b'f') {
        0 => c.digits(b'['),
        _ => c.byte(b'f'),
    }
}

// Kept a number: messages of no kind are handed in too.
fn kind_of(c: Clause) -> u8 {
    match c.capital() {
        Some(b'G') => 1,
        Some(b'L') => 2,
        _ => c.byte(b'd'),
    }
}

// The writer of the crate message makes LOGs of up to 64 blocks.
fn written_blocks(blocks: u8) -> usize
    ensures { result ≤ 64 }
{
    usize::from(blocks).min(MOST_BLOCKS)
}

// The entries of all blocks, as "each 65535", or one.
fn entries(c: Clause) -> u16 {
    match c.digits(b'h') {
        0 => 1,
        _ => c.short(b'h'),
    }
}

// Those of the first blocks may be said one by one, a digit for each, as "counts 3,0,2".
fn entry_counts(c: Clause) -> [u16; MOST_BLOCKS] {
    let mut counts = [entries(c); MOST_BLOCKS];
    let mut digits = c.number(b's');
    for count in counts[..written_blocks(c.digits(b's'))].iter_mut().rev() {
        *count = (digits % 10) as u16;
        digits /= 10;
    }
    counts
}

// A LOG is written, and then the bytes that say another block count or another kind. The message has as many bytes as the clause says,
// or as its blocks make where it says no number.
pub(crate) fn write<'a>(space: &'a mut [u8; LONGEST], c: Clause) -> &'a [u8] {
    let names = [c.number(b'['); MOST_BLOCKS];
    let counts = entry_counts(c);
    let blocks = blocks_of(c);
    let k = written_blocks(blocks);
    message::writer::write_log(space, &names, &counts, 0, k, c.byte(b'm'), c.long(b'w'));
    space[0] = blocks;
    space[2] = kind_of(c);
    let size = match c.place(b'n') {
        0 => HEAD_LENGTH + BLOCK_WIDTH * usize::from(blocks),
        said => said,
    };
    &space[..size.min(LONGEST)]
}
