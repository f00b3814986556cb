// A roll of the right form, and what it has.
ghost use Rattle.std.specs.Prelude.{◌≡◌, ◌≤◌, ◌<◌, true, false, MatchOption};
ghost use Rattle.run.specs.Roll.{most_events, benches_of, own_of, events_of, kind_at, length_at, misshapen};
ghost use Rattle.run.specs.Held.{body_place};
ghost use Rattle.run.specs.RollSteps.{KindIs};

use super::form::{events_of, is_misshapen, length_at};
use super::{Kind, MARK_LENGTH, SIZES_LENGTH};

#[derive(Clone, Copy)]
pub(crate) struct Roll<'a> {
    pub(crate) bytes: &'a [u8],
    ghost shaped: { misshapen bytes.now ≡ false },
}

impl<'a> Roll<'a> {
    // The bytes are judged here alone. None where they have another form.
    pub(crate) fn read(bytes: &'a [u8]) -> Option<Roll<'a>>
        ensures { MatchOption result (misshapen bytes.now ≡ true) (λ r. r.bytes.now ≡ bytes.now) }
    {
        if is_misshapen(bytes) {
            return None;
        }
        Some(Roll { bytes })
    }

    pub(crate) fn benches(self) -> u8
        ensures { result ≡ benches_of self.entry.bytes.now }
    {
        self.bytes[0]
    }

    pub(crate) fn own(self) -> u8
        ensures { result ≡ own_of self.entry.bytes.now }
    {
        self.bytes[1]
    }

    pub(crate) fn events(self) -> usize
        ensures { (result ≡ events_of self.entry.bytes.now) × (result ≤ most_events) }
    {
        events_of(self.bytes)
    }

    // The body length of event i.
    pub(crate) fn length_at(self, i: usize) -> usize
        requires { i < events_of self.bytes.now }
        ensures { (result ≡ length_at self.entry.bytes.now i) × (result < 65536) }
    {
        length_at(self.bytes, i)
    }

    // What event i calls: the marks are right, so that what is neither a begin nor a receive is an act.
    pub(crate) fn kind_at(self, i: usize) -> Kind
        requires { i < events_of self.bytes.now }
        ensures { KindIs (kind_at self.entry.bytes.now i) result }
    {
        match self.bytes[SIZES_LENGTH + MARK_LENGTH * i] {
            1 => Kind::Begin,
            2 => Kind::Receive,
            _ => Kind::Act,
        }
    }

    // Where the body of this event starts. Kept as a loop: in a sum over a closure each step would need bounds
    // of its own.
    pub(crate) fn body_place(self, event: usize) -> usize
        requires { event ≤ events_of self.bytes.now }
        ensures { (result ≡ body_place self.entry.bytes.now event) × (result < 4294967296) }
    {
        let mut at = SIZES_LENGTH + MARK_LENGTH * self.events();
        for i in 0..event {
            at += self.length_at(i);
        }
        at
    }
}
