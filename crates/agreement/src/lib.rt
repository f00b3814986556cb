// One agreement: who voted for which log, who is an equivocator, the two snapshots, and the longest log with a grade; and the
// proposals of a view. Logs stand in the two lent lists, from a place `base` on, 64 places for each sender. Numbers go by value,
// and arrays are lent.
#![tactic(auto)]

pub mod filing;
pub mod grading;
mod logs;
pub mod proposing;
mod room;
pub mod sets;
pub mod tally;

ghost use Rattle.std.specs.Prelude.{◌≡◌, replicate};
ghost use Rattle.message.specs.Choice.{pick};
ghost use Rattle.agreement.specs.Limits.{most_senders};
ghost use Rattle.agreement.specs.Record.{empty_marks, snapshot_now, one, two, snapped};

use message::MOST_BLOCKS;

// The numbers of specs/Limits.antt. The layers above use these; they have no copies.
pub const MOST_SENDERS: usize = 32;

pub const SPAN: usize = MOST_SENDERS * MOST_BLOCKS;

// A snapshot: who was in V when it was taken, and whether it was: zero no, any other yes. Kept a number beside the set, and no `Option`:
// any bytes are a record.
#[repr(C)]
#[derive(Clone, Copy)]
pub struct Snapshot {
    pub senders: u32,
    pub taken: u32,
}

// The agreement of a view, but for the blocks of each sender's log, which stand in an array beside it. A bench is a validator;
// its number is its place in each array, and its digit in each set.
#[repr(C)]
#[derive(Clone, Copy)]
pub struct Marks {
    pub view: u32,
    // V: the senders of one log
    pub voters: u32,
    // E: the senders of two different logs
    pub equivocators: u32,
    pub one: Snapshot,
    pub two: Snapshot,
}

// The proposals of a view, but for the blocks and the priority of each sender's: who made one, and whose are set aside.
#[repr(C)]
#[derive(Clone, Copy)]
pub struct Shown {
    pub view: u32,
    pub filed: u32,
    pub aside: u32,
}

// The answer to a message filed.
#[derive(Clone, Copy, PartialEq, Eq)]
pub enum Answer {
    First,
    Second,
    Known,
}

// An answer, and what is so after it.
#[derive(Clone, Copy)]
pub struct Given<A, S> {
    pub answer: A,
    pub after: S,
}

// The longest log that has a grade: the sender at whose place it stands, and its number of blocks.
#[derive(Clone, Copy)]
pub struct Longest {
    pub sender: u8,
    pub blocks: u8,
}

pub fn empty(view: u32) -> Marks
    ensures { result ≡ empty_marks view }
{
    let none = Snapshot {
        senders: 0,
        taken: 0,
    };
    Marks {
        view,
        voters: 0,
        equivocators: 0,
        one: none,
        two: none,
    }
}

// A snapshot of V now.
pub(crate) fn snapshot_now(g: Marks) -> Snapshot
    ensures { result ≡ snapshot_now g }
{
    Snapshot {
        senders: g.voters,
        taken: 1,
    }
}

// Snapshot one, or the second, is V now. Kept a bool, which names one of two.
pub fn snap(g: Marks, second: bool) -> Marks
    ensures { result ≡ snapped (pick second two one) g }
{
    let mut h = g;
    if second {
        h.two = snapshot_now(g);
        return h;
    }
    h.one = snapshot_now(g);
    h
}

// No sender has a log, or a proposal. Kept apart from the next function: as one function of any element its promise would speak of what
// `Default` gives, which is not plainer than a zero.
pub fn clear(lengths: &mut [u8; 32])
    ensures { lengths.new ≡ replicate most_senders 0 }
{
    *lengths = [0; 32];
}

// No proposal has a priority.
pub fn clear_priorities(priorities: &mut [u64; 32])
    ensures { priorities.new ≡ replicate most_senders 0 }
{
    *priorities = [0; 32];
}
