// The logs of an agreement that a grade and its count read.
ghost use Rattle.std.specs.Prelude.{◌≡◌, ◌||◌, true, MatchOption};
ghost use Rattle.agreement.specs.Record.{lacks_room, overlong};
ghost use Rattle.agreement.specs.Steps.{Readable, Lent};

use super::room::lacks_room;
use super::tally::is_over;
use message::MOST_BLOCKS;

// Logs as they are lent: sender i's stands at its place from `base` on. The lists have room for them, and no length is over 64.
#[derive(Clone, Copy)]
pub(crate) struct Logs<'a> {
    pub(crate) names: &'a [u64],
    pub(crate) counts: &'a [u16],
    pub(crate) lengths: &'a [u8; 32],
    pub(crate) base: u32,
    ghost readable: { Readable names.now counts.now base lengths.now },
}

// The logs, or none where the lists lack room for them or a length is over 64. Inlined, so that they do not go through memory.
#[inline(always)]
pub(crate) fn readable<'a>(
    names: &'a [u64],
    counts: &'a [u16],
    lengths: &'a [u8; 32],
    base: u32,
) -> Option<Logs<'a>>
    ensures { MatchOption result ((lacks_room names.now counts.now base || overlong lengths.now) ≡ true)
        (λ t. Lent names.now counts.now base lengths.now t.names.now t.counts.now t.base t.lengths.now) }
{
    if lacks_room(names.len(), counts.len(), base) | is_over(lengths, MOST_BLOCKS) {
        return None;
    }
    Some(Logs {
        names,
        counts,
        lengths,
        base,
    })
}
