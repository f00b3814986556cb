// The form of a roll, judged whole before any call is made.
ghost use Rattle.std.specs.Prelude.{◌≡◌, ◌≤◌, ◌<◌, length};
ghost use Rattle.run.specs.Roll.{most_events, events_of, length_at, right_body, misfits, misshapen, bodies_place};
ghost use Rattle.run.specs.RollSteps.{Marked, MarkIs};

use super::{Kind, MARK_LENGTH, MOST_EVENTS, MOST_ROLL, SIZES_LENGTH};
use bench::MOST_BYTES;
use message::number::number_in;

pub(crate) fn events_of(roll: &[u8]) -> usize
    ensures { (result ≡ events_of roll.now) × (result < 65536) }
{
    usize::from(number_in::<u16>(roll, 2))
}

// The mark of event i as one number: the kind, a zero, and in the upper half the body's length.
fn mark_at(roll: &[u8], i: usize) -> u32
    requires { (i < most_events) × Marked roll.now i }
    ensures { MarkIs roll.now i result }
{
    let at = SIZES_LENGTH + MARK_LENGTH * i;
    u32::from_le_bytes([roll[at], roll[at + 1], roll[at + 2], roll[at + 3]])
}

// The body length of event i.
pub(crate) fn length_at(roll: &[u8], i: usize) -> usize
    requires { (i < most_events) × Marked roll.now i }
    ensures { (result ≡ length_at roll.now i) × (result < 65536) }
{
    (mark_at(roll, i) / 65536) as usize
}

// Of a mark's kind, a number that may be no kind, and its body's length. Kept as numbers, all compared: every mark of a roll is judged
// here, without a branch.
fn is_right_body(kind: u32, k: u32) -> bool
    ensures { result ≡ right_body kind k }
{
    ((kind == Kind::Begin as u32) & (k == 4))
        | (((kind == Kind::Receive as u32) & (k <= MOST_BYTES as u32))
            | ((kind == Kind::Act as u32) & (k == 18)))
}

// A mark is wrong, or the bodies do not end where the roll ends. All marks are looked at, without a branch.
fn is_misfit(roll: &[u8], events: usize) -> bool
    requires { (events ≤ most_events) × ((events ≡ events_of roll.now) × (bodies_place roll.now ≤ length roll.now)) }
    ensures { result ≡ misfits roll.now 0 (bodies_place roll.now) (events_of roll.now) }
{
    let mut at = SIZES_LENGTH + MARK_LENGTH * events;
    let mut wrong = false;
    for i in 0..events {
        let mark = mark_at(roll, i);
        let k = mark / 65536;
        wrong |= !is_right_body(mark % 65536, k);
        at += k as usize;
    }
    wrong | (at != roll.len())
}

pub(crate) fn is_misshapen(roll: &[u8]) -> bool
    ensures { result ≡ misshapen roll.now }
{
    if (roll.len() < SIZES_LENGTH) | (MOST_ROLL < roll.len()) {
        return true;
    }
    let events = events_of(roll);
    if MOST_EVENTS < events {
        return true;
    }
    if roll.len() < SIZES_LENGTH + MARK_LENGTH * events {
        return true;
    }
    is_misfit(roll, events)
}
