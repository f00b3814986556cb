// Logs in the two lent lists, names in one and entry counts in the other: compared, filed from a message, copied. Each answers for every
// place and length: what is no log within the lists is answered by false, or by 0 where a number is asked, and nothing is written.
ghost use Rattle.std.specs.Prelude.{◌≡◌, ◌&&◌, ◌+◌, ◌*◌, ◌<◌, ◌≤◌, leb, length, get_or, map};
ghost use Rattle.message.specs.Limits.{most_blocks};
ghost use Rattle.message.specs.Numbers.{numbers_at};
ghost use Rattle.message.specs.Logs.{same_log, shared_length};
ghost use Rattle.message.specs.Message.{count_in, blocks_in};
ghost use Rattle.message.specs.Store.{log_at, holds_log, prefix_at, shared_at, matches_at, Stores, file_of, copy_of};
ghost use Rattle.message.specs.Asks.{TwoLogs, BytesAndLog, alike};

use super::little_endian::LittleEndian;
use super::number::fits;
use super::{BLOCK_WIDTH, Block, HEAD_LENGTH, MOST_BLOCKS, NAME_WIDTH};

// k blocks from place a on are a log within both lists, of which the lengths are given.
pub(crate) fn is_within(names: usize, counts: usize, a: usize, k: usize) -> bool
    ensures { result ≡ (leb k most_blocks && (leb (a + k) names && leb (a + k) counts)) }
{
    (k <= MOST_BLOCKS) & (fits(a, k, names) & fits(a, k, counts))
}

// The block at place a.
fn block_at(names: &[u64], counts: &[u16], a: usize) -> Block
    requires { (a < length names.now) × (a < length counts.now) }
    ensures { (result.name ≡ get_or names.now a 0) × (result.count ≡ get_or counts.now a 0) }
{
    Block {
        name: names[a],
        count: counts[a],
    }
}

// How many of the k blocks at a and the k blocks at b are alike before two differ. Kept by index: four slices go in step.
fn shared_blocks(names: &[u64], counts: &[u16], a: usize, b: usize, k: usize) -> usize
    requires { TwoLogs names.now counts.now a b k }
    ensures { result ≡ shared_length (log_at names.now counts.now a k)
        (log_at names.now counts.now b k) }
{
    for i in 0..k {
        if block_at(names, counts, a + i) != block_at(names, counts, b + i) {
            return i;
        }
    }
    k
}

// The log of x blocks at a is a prefix of the log of y blocks at b. False where one of them is no log.
pub fn is_prefix(names: &[u64], counts: &[u16], a: usize, x: usize, b: usize, y: usize) -> bool
    ensures { result ≡ prefix_at names.now counts.now a x b y }
{
    let m = names.len();
    let n = counts.len();
    if (is_within(m, n, a, x) & is_within(m, n, b, y)) & (x <= y) {
        return shared_blocks(names, counts, a, b, x) == x;
    }
    false
}

// How many blocks the two start with alike, in one walk. 0 where one of them is no log.
pub fn shared(names: &[u64], counts: &[u16], a: usize, x: usize, b: usize, y: usize) -> usize
    ensures { (result ≡ shared_at names.now counts.now a x b y) × (result ≤ most_blocks) }
{
    let m = names.len();
    let n = counts.len();
    if is_within(m, n, a, x) & is_within(m, n, b, y) {
        return shared_blocks(names, counts, a, b, x.min(y));
    }
    0
}

// The block count that the bytes say; no bytes say none.
fn count_in(s: &[u8]) -> usize
    ensures { (result ≡ count_in s.now) × (result < 256) }
{
    s.first().map_or(0, |count| usize::from(*count))
}

// Byte 0 says at most 64 blocks, and the bytes hold them.
pub fn holds_log(s: &[u8]) -> bool
    ensures { result ≡ holds_log s.now }
{
    let k = count_in(s);
    (k <= MOST_BLOCKS) & (HEAD_LENGTH + BLOCK_WIDTH * k <= s.len())
}

// The list's numbers are those in the bytes from byte p on. What differs is gathered, without a branch.
fn numbers_match<T: LittleEndian>(s: &[u8], p: usize, list: &[T]) -> bool
    requires { p + T.WIDTH * length list.now ≤ length s.now }
    ensures { result ≡ alike (numbers_at T.WIDTH s.now p (length list.now)) (map T.value list.now) }
{
    let mut differing = T::default();
    for (i, x) in list.iter().enumerate() {
        differing = differing | (T::read_at(s, p + T::WIDTH * i) ^ *x);
    }
    differing == T::default()
}

// The k blocks in the bytes are the k blocks at place a. Names and counts are each a walk of their own: one over both lists is slower.
fn blocks_match(s: &[u8], names: &[u64], counts: &[u16], a: usize, k: usize) -> bool
    requires { BytesAndLog s.now names.now counts.now a k }
    ensures { result ≡ same_log (blocks_in s.now k) (log_at names.now counts.now a k) }
{
    numbers_match(s, HEAD_LENGTH, &names[a..a + k])
        & numbers_match(s, HEAD_LENGTH + NAME_WIDTH * k, &counts[a..a + k])
}

// The log in the message is the log of x blocks at place a. False where one of them is no log.
pub fn matches(bytes: &[u8], names: &[u64], counts: &[u16], a: usize, x: usize) -> bool
    ensures { result ≡ matches_at bytes.now names.now counts.now a x }
{
    if (holds_log(bytes) & is_within(names.len(), counts.len(), a, x)) & (count_in(bytes) == x) {
        return blocks_match(bytes, names, counts, a, x);
    }
    false
}

// The numbers in the bytes from byte p on, as many as the list is long.
fn file_numbers<T: LittleEndian>(list: &mut [T], s: &[u8], p: usize)
    requires { p + T.WIDTH * length list.old ≤ length s.now }
    ensures { map T.value list.new ≡ numbers_at T.WIDTH s.now p (length list.old) }
{
    for (i, x) in list.iter_mut().enumerate() {
        *x = T::read_at(s, p + T::WIDTH * i);
    }
}

// The log in the message, filed from place a on. False, and nothing written, where there is no log or no room there.
pub fn file(names: &mut [u64], counts: &mut [u16], a: usize, bytes: &[u8]) -> bool
    ensures { Stores (file_of names.old counts.old a bytes.now) result names.new
        counts.new }
{
    let k = count_in(bytes);
    if holds_log(bytes) & is_within(names.len(), counts.len(), a, k) {
        file_numbers(&mut names[a..a + k], bytes, HEAD_LENGTH);
        file_numbers(&mut counts[a..a + k], bytes, HEAD_LENGTH + NAME_WIDTH * k);
        return true;
    }
    false
}

// The log of k blocks at a, copied to b. False, and nothing written, where it does not end at or before b, is no log or has no
// room there.
pub fn copy(names: &mut [u64], counts: &mut [u16], a: usize, b: usize, k: usize) -> bool
    ensures { Stores (copy_of names.old counts.old a b k) result names.new counts.new }
{
    if fits(a, k, b) & is_within(names.len(), counts.len(), b, k) {
        names.copy_within(a..a + k, b);
        counts.copy_within(a..a + k, b);
        return true;
    }
    false
}
