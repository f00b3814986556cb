// Messages and logs: the lowest layer. A message is read from bytes, written into the outgoing buffer, and its log filed in
// the two lent lists (block names and entry counts), where logs are compared and copied. Document 01 lends them as a u64 and a u16
// slice, and so they stand side by side wherever logs are handed on.
#![tactic(auto)]

mod little_endian;
pub mod number;
pub mod reader;
mod refusal;
pub mod store;
pub mod writer;

pub use refusal::Refusal;

// The head of a message: its view, its sender, and the number of blocks of its log.
#[derive(Clone, Copy)]
pub struct Head {
    pub view: u32,
    pub sender: u8,
    pub blocks: u8,
}

// A block: its name and its entry count.
#[derive(Clone, Copy, PartialEq, Eq)]
pub(crate) struct Block {
    pub(crate) name: u64,
    pub(crate) count: u16,
}

// A message that is read: a LOG with its head, or a PROPOSAL with its head and priority.
#[derive(Clone, Copy)]
pub enum Message {
    Log(Head),
    Proposal(Head, u64),
}

// The numbers of specs/Limits.antt. The layers above use these; they have no copies.
pub const MOST_BLOCKS: usize = 64;

pub const LAST_VIEW: u32 = 1000000;

pub const HEAD_LENGTH: usize = 16;

const NAME_WIDTH: usize = 8;

const COUNT_WIDTH: usize = 2;

pub const BLOCK_WIDTH: usize = 10;

// The two kinds of specs/Message.antt, as they stand in byte 2. In code a kind is a case of Message.
const LOG_KIND: u8 = 1;

const PROPOSAL_KIND: u8 = 2;
