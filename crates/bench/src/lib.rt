// One bench: its record, its layout, and the answers of its calls. What the calls are to give is in specs/, what is proved of that in
// proofs/; the code is crate calls.
#![tactic(auto)]

mod refusal;

use agreement::{Longest, Marks, SPAN, Shown};
use message::{BLOCK_WIDTH, HEAD_LENGTH, LAST_VIEW, MOST_BLOCKS};
pub use refusal::Refusal;

// The numbers of specs/Layout.antt: where the logs of an odd view, the proposed logs and the decided log start in the lent lists, how
// long these must be, and how many bytes the longest message has.
pub const ODD_PLACE: u32 = SPAN as u32;

pub const PROPOSALS_PLACE: u32 = 2 * ODD_PLACE;

pub const DECIDED_PLACE: usize = 3 * SPAN;

pub const LEAST_LENT: usize = DECIDED_PLACE + MOST_BLOCKS;

pub const MOST_BYTES: usize = HEAD_LENGTH + BLOCK_WIDTH * MOST_BLOCKS;

// Of specs/Calendar.antt.
pub const LAST_BEAT: u32 = 4 * LAST_VIEW + 6;

// A bench is a validator. Its record is its head, and arrays with a place for each sender: any bytes are one. A flag is a number,
// zero for no and any other for yes.
#[repr(C)]
#[derive(Clone, Copy)]
pub struct Head {
    // the last begun beat plus one, zero where none was begun
    pub next: u32,
    // how many benches the volume has, and which of them this one is
    pub n: u8,
    pub own: u8,
    // the blocks of the decided log, and whether a decision conflicted with it
    pub decided: u16,
    pub parted: u16,
    // a gathering is under way
    pub gathering: u16,
    // the agreements of the even and of the odd view, and the proposals, each with its view
    pub even: Marks,
    pub odd: Marks,
    pub shown: Shown,
}

// The arrays, with a place for each sender.
#[repr(C)]
#[derive(Clone, Copy)]
pub struct Rows {
    // the priority of each sender's proposal, and the blocks of each log: in the agreements, and proposed
    pub priorities: [u64; 32],
    pub even: [u8; 32],
    pub odd: [u8; 32],
    pub proposed: [u8; 32],
}

#[repr(C)]
#[derive(Clone, Copy)]
pub struct Bench {
    pub rows: Rows,
    pub head: Head,
}

// A block offered to Act, of name zero where there is none, as document 01 has it, and the priority that a proposal of it has.
#[derive(Clone, Copy)]
pub struct Offer {
    pub name: u64,
    pub priority: u64,
    pub count: u16,
}

// What an Act made, with its blocks. The message stands at the front of the outgoing buffer.
#[derive(Clone, Copy)]
pub enum Made {
    Nothing,
    Log(u8),
    Proposal(u8),
}

// Where an entry was found: the place of its block in the decided log, and its place inside that block, both from 0.
#[derive(Clone, Copy)]
pub struct Entry {
    pub block: u8,
    pub inside: u16,
}

// A grade with its count, as an act reads it: the log it uses, and how many support it, or the empty log where there is none, among
// how many senders.
#[derive(Clone, Copy)]
pub struct Counted {
    pub grade: Option<Longest>,
    pub supporters: usize,
    pub senders: usize,
}
