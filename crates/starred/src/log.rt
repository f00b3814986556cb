// The log that a clause names. A digit in brackets is the name of a block.
use message::{BLOCK_WIDTH, HEAD_LENGTH, MOST_BLOCKS, writer};
use script::{Clause, NO_MARK};

// The longest LOG.
const MOST_BYTES: usize = HEAD_LENGTH + BLOCK_WIDTH * MOST_BLOCKS;

// The number in front of all words.
pub(crate) fn sender(c: Clause) -> u8 {
    c.byte(NO_MARK)
}

// As many blocks as digits, or as the clause says: [7,7,7,.. of 64].
fn blocks(c: Clause) -> usize {
    match c.place(b'f') {
        0 => usize::from(c.digits(b'[')),
        said => said,
    }
}

// The entry count of each block, 1 where the clause says none.
fn entry_count(c: Clause) -> u16 {
    match c.short(b'/') {
        0 => 1,
        said => said,
    }
}

// A list that ends with the log: the last three digits, and before them the last one again, since a log of more than three blocks
// has one name.
fn block_names(digits: u64) -> [u64; 64] {
    let mut names = [digits % 10; 64];
    names[62] = digits / 10 % 10;
    names[61] = digits / 100 % 10;
    names
}

// The LOG from the clause's sender, and zeros behind it.
pub(crate) fn log_bytes(c: Clause) -> [u8; MOST_BYTES] {
    let k = blocks(c);
    let names = block_names(c.number(b'['));
    let counts = [entry_count(c); 64];
    let mut bytes = [0u8; MOST_BYTES];
    if k <= MOST_BLOCKS {
        writer::write_log(
            &mut bytes,
            &names,
            &counts,
            MOST_BLOCKS - k,
            k,
            sender(c),
            0,
        );
    }
    bytes
}

// The PROPOSAL in its place, with the clause's priority.
pub(crate) fn proposal_bytes(c: Clause) -> [u8; MOST_BYTES] {
    let mut bytes = log_bytes(c);
    bytes[2] = 2;
    bytes[8] = c.byte(b'y');
    bytes
}

// The message alone, as many bytes as its blocks make.
pub(crate) fn front<'a>(bytes: &'a [u8; MOST_BYTES], c: Clause) -> &'a [u8] {
    &bytes[..HEAD_LENGTH + BLOCK_WIDTH * blocks(c).min(MOST_BLOCKS)]
}
