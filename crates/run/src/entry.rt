// Where an entry stands, as bytes (specs/EntryBytes.antt).
ghost use Rattle.std.specs.Prelude.{◌≤◌, length};
ghost use Rattle.bench.specs.Answers.{entry_reply};
ghost use Rattle.run.specs.RollSteps.{Puts};
ghost use Rattle.run.specs.EntryBytes.{entry_bytes, entry_length};

use super::texts::put_word;
use bench::{Entry, Refusal};

// At the front of the buffer; the answer is their number.
pub(crate) fn put_entry(found: &mut [u8], place: Result<Entry, Refusal>) -> usize
    requires { entry_length ≤ length found.old }
    ensures { Puts (entry_bytes (entry_reply place)) 0 found.old result found.new }
{
    match place {
        Ok(Entry { block, inside }) => {
            let [low, high] = inside.to_le_bytes();
            put_word(found, 0, &[block, low, high])
        }
        Err(why) => put_word(found, 0, &[u8::from(why)]),
    }
}
