// The roll of which something is shown.
ghost use Rattle.std.specs.Prelude.{◌≡◌, true, false, MatchOption};
ghost use Rattle.run.specs.RollSteps.{unshown};

use super::roll::Roll;

// None where the buffer has fewer bytes than are needed, or the roll has another form or fewer calls.
pub(crate) fn shown<'a>(
    least: usize,
    bytes: &'a [u8],
    calls: usize,
    buffer: &[u8],
) -> Option<Roll<'a>>
    ensures { MatchOption result (unshown least bytes.now calls buffer.now ≡ true)
        (λ r. (unshown least r.bytes.now calls buffer.now ≡ false) × (r.bytes.now ≡ bytes.now)) }
{
    if buffer.len() < least {
        return None;
    }
    let roll = Roll::read(bytes)?;
    if roll.events() < calls {
        return None;
    }
    Some(roll)
}
