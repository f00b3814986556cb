// The third lent list: running totals of the decided log's entry counts (specs/Totals.antt of crate bench).
ghost use Rattle.std.specs.Prelude.{◌≡◌, ◌≤◌, ◌∷◌, length, get_or, drop};
ghost use Rattle.message.specs.Numbers.{part, put};
ghost use Rattle.bench.specs.Totals.{totals_from, unlike};
ghost use Rattle.calls.specs.TotalSteps.{decided_counts, Walkable, Writable, Extensible, Rising, entry_among};

use bench::{DECIDED_PLACE, Entry, Refusal};

// A total below the decided length is not the sum of the counts through its block. Kept by index, here and in
// `write_totals`: two lists go in step.
pub(crate) fn are_unlike(counts: &[u16], totals: &[u32], decided: u16) -> bool
    requires { Walkable counts.now totals.now decided }
    ensures { result ≡ unlike (totals_from 0 (decided_counts counts.now decided)) totals.now }
{
    let mut sum = 0;
    for i in 0..decided as usize {
        sum += u32::from(counts[DECIDED_PLACE + i]);
        if totals[i] != sum {
            return true;
        }
    }
    false
}

// Where an entry is, by the totals of the decided blocks. Refused: 23, where they do not hold it. Kept by index: over the part of the list
// its goals did not close.
pub(crate) fn find_in(totals: &[u32], decided: u16, entry: u32) -> Result<Entry, Refusal>
    requires { Rising totals.now decided }
    ensures { result ≡ entry_among 0 0 (part totals.now 0 decided) entry }
{
    let mut before = 0;
    for i in 0..decided as usize {
        let total = totals[i];
        if entry < total {
            return Ok(Entry {
                block: i as u8,
                inside: (entry - before) as u16,
            });
        }
        before = total;
    }
    Err(Refusal::NoEntry)
}

// The total of the first k blocks.
fn total_of(totals: &[u32], k: usize) -> u32
    requires { k ≤ length totals.now }
    ensures { result ≡ get_or (0 ∷ totals.now) k 0 }
{
    if k == 0 {
        return 0;
    }
    totals[k - 1]
}

// The totals of the blocks with these counts, where `before` entries stand before them.
fn write_totals(counts: &[u16], totals: &mut [u32], before: u32)
    requires { Writable counts.now totals.old before }
    ensures { totals.new ≡ put totals.old 0 (totals_from before counts.now) }
{
    let mut sum = before;
    for i in 0..counts.len() {
        sum += u32::from(counts[i]);
        totals[i] = sum;
    }
}

// After the decided log grew from the old length to the new: the totals of the new blocks.
pub(crate) fn extend_totals(counts: &[u16], totals: &mut [u32], old: u16, new: u16)
    requires { Extensible counts.now totals.old old new }
    ensures { totals.new ≡ put totals.old old
        (drop old (totals_from 0 (decided_counts counts.now new))) }
{
    if old < new {
        let a = old as usize;
        let b = new as usize;
        let from = DECIDED_PLACE + a;
        let to = DECIDED_PLACE + b;
        let before = total_of(totals, a);
        write_totals(&counts[from..to], &mut totals[a..b], before);
    }
}
