// Writing a message at the front of the outgoing buffer, from a log that stands in the two lent lists.
ghost use Rattle.std.specs.Prelude.{[], ◌∷◌, ◌++◌, ◌≡◌, ◌+◌, ◌*◌, ◌≤◌, length, map};
ghost use Rattle.message.specs.Limits.{head_length};
ghost use Rattle.message.specs.Numbers.{put, bytes_for, bytes_for_each};
ghost use Rattle.message.specs.Store.{Writes, write_log_of, write_proposal_of};
ghost use Rattle.message.specs.Asks.{head_in, head_bytes, FirstOf, WritesFirst};

use super::little_endian::LittleEndian;
use super::store::is_within;
use super::{
    BLOCK_WIDTH, COUNT_WIDTH, HEAD_LENGTH, Head, LOG_KIND, MOST_BLOCKS, Message, NAME_WIDTH,
    PROPOSAL_KIND,
};

// The head of either kind.
fn head_of(message: Message) -> Head
    ensures { result ≡ head_in message }
{
    match message {
        Message::Log(head) | Message::Proposal(head, _) => head,
    }
}

// All that stands before the names. The priority is zero in a LOG.
fn put_head(out: &mut [u8], message: Message)
    requires { head_length ≤ length out.old }
    ensures { out.new ≡ put out.old 0 (head_bytes message) }
{
    let head = head_of(message);
    let (kind, priority) = match message {
        Message::Log(_) => (LOG_KIND, 0),
        Message::Proposal(_, priority) => (PROPOSAL_KIND, priority),
    };
    out[..4].copy_from_slice(&[head.blocks, head.sender, kind, 0]);
    head.view.write_at(out, 4);
    priority.write_at(out, 8);
}

// The list's numbers, from byte p on.
fn put_numbers<T: LittleEndian>(out: &mut [u8], p: usize, list: &[T])
    requires { p + T.WIDTH * length list.now ≤ length out.old }
    ensures { out.new ≡ put out.old p (bytes_for_each T.WIDTH (map T.value list.now)) }
{
    for (i, x) in list.iter().enumerate() {
        x.write_at(out, p + T::WIDTH * i);
    }
}

// The head of a message and the first k of its blocks, which are the ones at place a. False, and no byte changed, where these are no
// log within the lists or the message has no room.
fn write_first(
    out: &mut [u8],
    names: &[u64],
    counts: &[u16],
    a: usize,
    k: usize,
    message: Message,
) -> bool
    requires { FirstOf k message }
    ensures { WritesFirst out.old names.now counts.now a k message result out.new }
{
    let m = usize::from(head_of(message).blocks);
    if is_within(names.len(), counts.len(), a, k) & (HEAD_LENGTH + BLOCK_WIDTH * m <= out.len()) {
        put_head(out, message);
        put_numbers(out, HEAD_LENGTH, &names[a..a + k]);
        put_numbers(out, HEAD_LENGTH + NAME_WIDTH * m, &counts[a..a + k]);
        return true;
    }
    false
}

// The LOG of the k blocks at place a. False, and no byte changed, where they are no log within the lists or the message has no
// room.
pub fn write_log(
    out: &mut [u8],
    names: &[u64],
    counts: &[u16],
    a: usize,
    k: usize,
    sender: u8,
    view: u32,
) -> bool
    ensures { Writes (write_log_of out.old names.now counts.now a k sender view) result
        out.new }
{
    if MOST_BLOCKS < k {
        return false;
    }
    let blocks = k as u8;
    let head = Head {
        view,
        sender,
        blocks,
    };
    write_first(out, names, counts, a, k, Message::Log(head))
}

// The PROPOSAL of the k blocks at place a and one block more. False, and no byte changed, as above.
pub fn write_proposal(
    out: &mut [u8],
    names: &[u64],
    counts: &[u16],
    a: usize,
    k: usize,
    name: u64,
    count: u16,
    sender: u8,
    view: u32,
    priority: u64,
) -> bool
    ensures { Writes
        (write_proposal_of out.old names.now counts.now a k
        (record { name = name; count = count }) sender view priority) result out.new }
{
    if MOST_BLOCKS <= k {
        return false;
    }
    let blocks = k as u8 + 1;
    let head = Head {
        view,
        sender,
        blocks,
    };
    if write_first(out, names, counts, a, k, Message::Proposal(head, priority)) {
        let p = HEAD_LENGTH + NAME_WIDTH * k;
        let q = p + NAME_WIDTH + COUNT_WIDTH * k;
        name.write_at(out, p);
        count.write_at(out, q);
        return true;
    }
    false
}
