// Why a call is refused: document 01's refusals.
ghost use Rattle.std.specs.Prelude.{◌≡◌};
ghost use Rattle.bench.specs.Refusals.{refusal_number};
ghost use Rattle.bench.specs.declared.refusal.Refusal.TheVariants.{Message};

#[derive(Clone, Copy, PartialEq, Eq)]
pub enum Refusal {
    // 1 to 6: the reader's
    Message(message::Refusal),
    // 7: n or own number is out of range
    Numbers,
    // 8: a lent list is too short
    Lists,
    // 9: the record can't be used
    Record,
    // 10: the beat is past the last
    Beat,
    // 11: the outgoing buffer is too short
    Buffer,
    // 20: the beat is not above the last begun
    NotAbove,
    // 21: the message's view is not open to its kind
    NotOpen,
    // 22: no gathering is under way
    NoGathering,
    // 23: the decided log has no such entry
    NoEntry,
}

impl From<message::Refusal> for Refusal {
    ghost from_gives = { λ why refusal. refusal ≡ Message why };

    fn from(why: message::Refusal) -> Refusal {
        Refusal::Message(why)
    }
}

impl From<Refusal> for u8 {
    ghost from_gives = { λ why number. number ≡ refusal_number why };

    fn from(why: Refusal) -> u8 {
        match why {
            Refusal::Message(cause) => u8::from(cause),
            Refusal::Numbers => 7,
            Refusal::Lists => 8,
            Refusal::Record => 9,
            Refusal::Beat => 10,
            Refusal::Buffer => 11,
            Refusal::NotAbove => 20,
            Refusal::NotOpen => 21,
            Refusal::NoGathering => 22,
            Refusal::NoEntry => 23,
        }
    }
}
