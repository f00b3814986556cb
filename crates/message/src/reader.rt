// Reading a message.
ghost use Rattle.std.specs.Prelude.{◌≡◌, ◌+◌, ◌*◌, ◌≤◌, length};
ghost use Rattle.message.specs.Limits.{head_length, name_width};
ghost use Rattle.message.specs.Message.{names_in, malformed, any_zero, read_of, parsed_of};

use super::little_endian::LittleEndian;
use super::{
    BLOCK_WIDTH, HEAD_LENGTH, Head, LAST_VIEW, LOG_KIND, MOST_BLOCKS, Message, NAME_WIDTH,
    PROPOSAL_KIND, Refusal,
};

// The kind, byte 3 or a LOG's priority is wrong.
fn is_malformed(s: &[u8]) -> bool
    requires { head_length ≤ length s.now }
    ensures { result ≡ malformed s.now }
{
    let kind = s[2];
    !((kind == LOG_KIND) | (kind == PROPOSAL_KIND))
        | (!(s[3] == 0) | ((kind == LOG_KIND) & !(u64::read_at(s, 8) == 0)))
}

// One of the k names is zero. All are looked at, without a branch.
fn zero_named(s: &[u8], k: usize) -> bool
    requires { head_length + name_width * k ≤ length s.now }
    ensures { result ≡ any_zero (names_in s.now k) }
{
    let mut zero = false;
    for i in 0..k {
        zero = zero | (u64::read_at(s, HEAD_LENGTH + NAME_WIDTH * i) == 0);
    }
    zero
}

// What the bytes mean in a register of n benches, or the first refusal that holds. Kept as tests one after the other: each goes by the
// length that one before it has seen.
pub fn read(n: u8, bytes: &[u8]) -> Result<Message, Refusal>
    ensures { parsed_of bytes.now result ≡ read_of n bytes.now }
{
    let len = bytes.len();
    if len < HEAD_LENGTH {
        return Err(Refusal::Short);
    }
    let blocks = bytes[0];
    let k = usize::from(blocks);
    if (MOST_BLOCKS < k) | !(len == HEAD_LENGTH + BLOCK_WIDTH * k) {
        return Err(Refusal::Length);
    }
    if is_malformed(bytes) {
        return Err(Refusal::Form);
    }
    let sender = bytes[1];
    if n <= sender {
        return Err(Refusal::Sender);
    }
    let view = u32::read_at(bytes, 4);
    if LAST_VIEW < view {
        return Err(Refusal::View);
    }
    if zero_named(bytes, k) {
        return Err(Refusal::Name);
    }
    let head = Head {
        view,
        sender,
        blocks,
    };
    if bytes[2] == LOG_KIND {
        return Ok(Message::Log(head));
    }
    Ok(Message::Proposal(head, u64::read_at(bytes, 8)))
}
