// What filing, grades and the vote share: room in the lists; whether anything can be filed, is filed already, and filing it.
// Logs stand from `base` on, 64 places for each sender.
ghost use Rattle.std.specs.Prelude.{not, ◌||◌, ◌≡◌, ◌+◌, ◌<◌, leb, ltb};
ghost use Rattle.message.specs.Logs.{same_log, names_of, counts_of};
ghost use Rattle.message.specs.Message.{log_in};
ghost use Rattle.message.specs.Numbers.{put};
ghost use Rattle.message.specs.Store.{holds_log, log_at};
ghost use Rattle.agreement.specs.Limits.{most_senders, span, place_of};
ghost use Rattle.agreement.specs.Filing.{Fit};

use super::{MOST_SENDERS, SPAN};
use message::MOST_BLOCKS;

// Where sender i's log stands.
pub(crate) fn place_of(base: u32, i: usize) -> usize
    requires { i < most_senders }
    ensures { result ≡ place_of base i }
{
    base as usize + MOST_BLOCKS * i
}

// The lists, of which the lengths are given, have no room for a log of each sender.
pub(crate) fn lacks_room(names: usize, counts: usize, base: u32) -> bool
    ensures { result ≡ (ltb names (base + span) || ltb counts (base + span)) }
{
    let end = base as usize + SPAN;
    (names < end) | (counts < end)
}

// Nothing can be filed: no place for the sender, no room in the lists of these lengths, or no log in the bytes.
pub(crate) fn unfit(names: usize, counts: usize, base: u32, bytes: &[u8], sender: u8) -> bool
    ensures { result ≡ (leb most_senders sender ||
        ((ltb names (base + span) || ltb counts (base + span)) || not (holds_log bytes.now))) }
{
    (MOST_SENDERS <= sender as usize)
        | (lacks_room(names, counts, base) | !message::store::holds_log(bytes))
}

// The log in the bytes is the one filed of this sender, which has so many blocks.
pub(crate) fn is_filed(
    names: &[u64],
    counts: &[u16],
    base: u32,
    length: u8,
    bytes: &[u8],
    sender: u8,
) -> bool
    requires { Fit names.now counts.now base bytes.now sender }
    ensures { result ≡ same_log (log_in bytes.now)
        (log_at names.now counts.now (place_of base sender) length) }
{
    let at = place_of(base, sender as usize);
    message::store::matches(bytes, names, counts, at, length as usize)
}

// The log in the bytes, filed at this sender's place.
pub(crate) fn store_log(names: &mut [u64], counts: &mut [u16], base: u32, bytes: &[u8], sender: u8)
    requires { Fit names.old counts.old base bytes.now sender }
    ensures { (names.new ≡ put names.old (place_of base sender) (names_of (log_in bytes.now)))
        × (counts.new ≡ put counts.old (place_of base sender) (counts_of (log_in bytes.now))) }
{
    let at = place_of(base, sender as usize);
    message::store::file(names, counts, at, bytes);
}
