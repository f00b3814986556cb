// Reading a grade: the longest log that more than half of all senders support. The majority is followed from block to block: its
// followers are those whose log starts so. One pass over the followers serves eight blocks where the majority stays with the sender
// walked along with, and one block where it leaves.
ghost use Rattle.std.specs.Prelude.{◌≡◌, ◌&&◌, ◌+◌, ◌≤◌, ◌<◌, eqb, leb, ltb, length, get_or};
ghost use Rattle.message.specs.Limits.{most_blocks};
ghost use Rattle.message.specs.Logs.{same_block};
ghost use Rattle.message.specs.Store.{block_at};
ghost use Rattle.agreement.specs.Limits.{most_senders, place_of};
ghost use Rattle.agreement.specs.Sets.{ones};
ghost use Rattle.agreement.specs.Reading.{longest};
ghost use Rattle.agreement.specs.Record.{agreement_from, reading_of};
ghost use Rattle.agreement.specs.Grades.{Gives, grade_among, snapshot_for, grade_of};
ghost use Rattle.agreement.specs.Steps.{Readable, SetOf, Chunk, next_block, narrowed, chunk_length, alike, narrowed_by, Far};
ghost use Rattle.agreement.specs.Steps.{MajorityAt, Extending, Extended};

use super::logs::{Logs, readable};
use super::room::place_of;
use super::sets::{filtered, in_both, members, size};
use super::tally::senders;
use super::{Longest, Marks, Snapshot, snapshot_now};
use message::MOST_BLOCKS;

// How many blocks are looked at together where the majority may go on.
const CHUNK: usize = 8;

impl<'a> Logs<'a> {
    // The block at a is the block at b. Kept as two comparisons without a branch, on the walk that costs most.
    fn same_block(&self, a: usize, b: usize) -> bool
        requires { ((a < length self.now.names.now) × (b < length self.now.names.now)) ×
            ((a < length self.now.counts.now) × (b < length self.now.counts.now)) }
        ensures { result ≡ same_block (block_at self.now.names.now self.now.counts.now a)
            (block_at self.now.names.now self.now.counts.now b) }
    {
        (self.names[a] == self.names[b]) & (self.counts[a] == self.counts[b])
    }

    // The blocks that stand after l blocks at two senders' places are the same.
    fn same_next(&self, l: usize, i: usize, j: usize) -> bool
        requires { (l < most_blocks) × ((i < most_senders) × (j < most_senders)) }
        ensures { result ≡ same_block (next_block self.now.names.now self.now.counts.now self.now.base l i)
            (next_block self.now.names.now self.now.counts.now self.now.base l j) }
    {
        self.same_block(place_of(self.base, i) + l, place_of(self.base, j) + l)
    }

    // Sender j's log goes on after l blocks with this block.
    fn goes_on(&self, l: usize, name: u64, count: u16, j: usize) -> bool
        requires { (l < most_blocks) × (j < most_senders) }
        ensures { result ≡ (ltb l (get_or self.now.lengths.now j 0) &&
            (eqb name (get_or self.now.names.now (place_of self.now.base j + l) 0) && eqb count (get_or self.now.counts.now (place_of self.now.base j + l) 0))) }
    {
        let b = self.base as usize + MOST_BLOCKS * j + l;
        (l < usize::from(self.lengths[j])) & ((name == self.names[b]) & (count == self.counts[b]))
    }

    // Of the followers, those whose log goes on after l blocks with the block that stands there at sender c's place.
    fn narrow(&self, followers: u32, l: usize, c: usize) -> u32
        requires { (l < most_blocks) × (c < most_senders) }
        ensures { SetOf
            (narrowed self.now.names.now self.now.counts.now self.now.base self.now.lengths.now followers l
            (next_block self.now.names.now self.now.counts.now self.now.base l c)) most_senders result }
    {
        let a = self.base as usize + MOST_BLOCKS * c + l;
        let name = self.names[a];
        let count = self.counts[a];
        filtered(followers, |j| self.goes_on(l, name, count, j))
    }

    // The chunk of blocks at a is the chunk of blocks at b.
    fn same_chunk(&self, a: usize, b: usize) -> bool
        requires { ((a + chunk_length ≤ length self.now.names.now) × (b + chunk_length ≤ length self.now.names.now)) ×
            ((a + chunk_length ≤ length self.now.counts.now) × (b + chunk_length ≤ length self.now.counts.now)) }
        ensures { result ≡ alike self.now.names.now self.now.counts.now a b chunk_length }
    {
        let mut same = true;
        for i in 0..CHUNK {
            same = same & self.same_block(a + i, b + i);
        }
        same
    }

    // Sender j's log goes on after l blocks with the chunk of blocks at a. Kept beside `goes_on`, whose one block is read before the walk.
    fn chunk_goes_on(&self, l: usize, a: usize, j: usize) -> bool
        requires { Chunk self.now.names.now self.now.counts.now l a j }
        ensures { result ≡ (leb (l + chunk_length) (get_or self.now.lengths.now j 0) && alike self.now.names.now self.now.counts.now a
            (place_of self.now.base j + l) chunk_length) }
    {
        let b = self.base as usize + MOST_BLOCKS * j + l;
        let blocks = usize::from(self.lengths[j]);
        (l + CHUNK <= blocks) & self.same_chunk(a, b)
    }

    // Of the followers, those whose log goes on after l blocks with the chunk of blocks that stands there at sender c's place.
    fn narrow_chunk(&self, followers: u32, l: usize, c: usize) -> u32
        requires { (l + chunk_length ≤ most_blocks) × (c < most_senders) }
        ensures { SetOf
            (narrowed_by self.now.names.now self.now.counts.now self.now.base self.now.lengths.now followers l c chunk_length) most_senders result }
    {
        let a = self.base as usize + MOST_BLOCKS * c + l;
        filtered(followers, |j| self.chunk_goes_on(l, a, j))
    }

    // The same where l is a number of whole chunks, and nobody elsewhere: a chunk in which the majority leaves is taken block by block.
    fn narrow_far(&self, followers: u32, l: usize, c: usize) -> u32
        requires { (l < most_blocks) × (c < most_senders) }
        ensures { Far self.now.names.now self.now.counts.now self.now.base self.now.lengths.now followers l c result }
    {
        if l % CHUNK == 0 {
            return self.narrow_chunk(followers, l, c);
        }
        0
    }

    // A sender that has, after l blocks, the block that more than half of the followers have there, if there is one: a majority
    // vote (Boyer and Moore), in one pass.
    fn majority_sender(&self, followers: u32, l: usize, who: usize) -> usize
        requires { (l < most_blocks) × (who < most_senders) }
        ensures { MajorityAt self.now.names.now self.now.counts.now self.now.base followers l who result }
    {
        let mut best = who;
        let mut weight: usize = 0;
        for (j, _) in members(followers) {
            if weight == 0 {
                best = j;
                weight = 1;
            } else if self.same_next(l, best, j) {
                weight += 1;
            } else {
                weight -= 1;
            }
        }
        best
    }

    // The longest log with the grade, where the empty log has it. The next blocks are first looked for at `who`, which nearly always
    // stays with the majority; where it has left, a majority vote tells whom to walk along with, or that nothing longer has the grade.
    fn extend(&self, may: u32, all: usize) -> Option<Longest>
        requires { Extending may all }
        ensures { Extended self.now.names.now self.now.counts.now self.now.base self.now.lengths.now may all result }
    {
        let mut followers = may;
        let mut who = 0;
        let mut l = 0;
        // Kept a `while`: a turn goes on by a chunk of blocks or by one.
        while l < MOST_BLOCKS {
            let far = self.narrow_far(followers, l, who);
            if all < 2 * size(far) {
                followers = far;
                l += CHUNK;
                continue;
            }
            let near = self.narrow(followers, l, who);
            if all < 2 * size(near) {
                followers = near;
                l += 1;
                continue;
            }
            let c = self.majority_sender(followers, l, who);
            let next = self.narrow(followers, l, c);
            if all < 2 * size(next) {
                followers = next;
                who = c;
                l += 1;
                continue;
            }
            return Some(longest_at(who, l));
        }
        Some(longest_at(who, l))
    }

    // The longest log with the grade. The empty log has it where more than half of S may support: if it has not, no log has.
    fn find(&self, g: Marks, among: u32) -> Option<Longest>
        ensures { Gives
            (longest most_senders ones
            (reading_of self.now.names.now self.now.counts.now self.now.base (agreement_from g self.now.lengths.now) among)) self.now.names.now
            self.now.counts.now self.now.base result }
    {
        let may = in_both(g.voters, among);
        let all = senders(g);
        if all < 2 * size(may) {
            return self.extend(may, all);
        }
        None
    }
}

// The l blocks at sender i's place.
fn longest_at(i: usize, l: usize) -> Longest
    requires { (i < most_senders) × (l ≤ most_blocks) }
    ensures { (result.sender ≡ i) × (result.blocks ≡ l) }
{
    Longest {
        sender: i as u8,
        blocks: l as u8,
    }
}

// The longest log with the grade, or none where the record has a length over 64 or the lists lack room for its logs.
fn grade_among(
    names: &[u64],
    counts: &[u16],
    lengths: &[u8; 32],
    g: Marks,
    among: u32,
    base: u32,
) -> Option<Longest>
    ensures { Gives (grade_among names.now counts.now base (agreement_from g lengths.now) among)
        names.now counts.now base result }
{
    readable(names, counts, lengths, base)?.find(g, among)
}

// The snapshot that serves this grade: none serves grade 0, which V now stands in for. Kept a number, here and in `grade`: any is answered,
// and an enum would ask more of the caller.
pub fn serving(g: Marks, grade: u8) -> Snapshot
    ensures { result ≡ snapshot_for grade g }
{
    if grade == 0 {
        return snapshot_now(g);
    }
    if grade == 1 {
        return g.two;
    }
    g.one
}

// The longest log with grade 0, 1 or 2; none where the snapshot that serves it was not taken.
pub fn grade(
    g: Marks,
    lengths: &[u8; 32],
    names: &[u64],
    counts: &[u16],
    base: u32,
    grade: u8,
) -> Option<Longest>
    ensures { Gives (grade_of names.now counts.now base (agreement_from g lengths.now) grade)
        names.now counts.now base result }
{
    let s = serving(g, grade);
    if s.taken == 0 {
        return None;
    }
    grade_among(names, counts, lengths, g, s.senders, base)
}
