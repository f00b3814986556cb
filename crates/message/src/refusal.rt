// Why a message is refused: document 01's refusals 1 to 6.
ghost use Rattle.std.specs.Prelude.{◌≡◌};
ghost use Rattle.message.specs.Refusals.{number_of};

#[derive(Clone, Copy, PartialEq, Eq)]
pub enum Refusal {
    // under 16 bytes
    Short = 1,
    // over 64 blocks, or another length than these have
    Length,
    // the kind, byte 3 or a LOG's priority
    Form,
    // the sender is n or above
    Sender,
    // the view is past the last
    View,
    // a name is zero
    Name,
}

impl From<Refusal> for u8 {
    ghost from_gives = { λ why number. number ≡ number_of why };

    fn from(why: Refusal) -> u8 {
        why as u8
    }
}
