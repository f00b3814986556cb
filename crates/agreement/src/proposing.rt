// The proposals of a view: filed as LOGs are, and the vote, which is for the best of those that have the lock as a prefix.
// Each public function answers for every record, place and length.
ghost use Rattle.std.specs.Prelude.{◌≡◌, ℕ, ◌<◌, ◌&&◌, eqb, get_or};
ghost use Rattle.message.specs.Logs.{same_log};
ghost use Rattle.message.specs.Message.{log_in};
ghost use Rattle.message.specs.Store.{log_at, prefix_at};
ghost use Rattle.agreement.specs.Limits.{most_senders, place_of};
ghost use Rattle.agreement.specs.Filing.{Fit};
ghost use Rattle.agreement.specs.Steps.{Contest, beats};
ghost use Rattle.agreement.specs.Proposals.{empty_shown, proposals_from, shown_once, shown_twice, file_proposal_of, FilesProposal, if_fits};
ghost use Rattle.agreement.specs.Proposals.{choice_of, chosen, Chooses};

use super::room::{is_filed, lacks_room, store_log, unfit};
use super::sets::{has, in_first, members, with_sender};
use super::{Answer, Given, Shown};
use message::MOST_BLOCKS;

pub fn empty(view: u32) -> Shown
    ensures { result ≡ empty_shown view }
{
    Shown {
        view,
        filed: 0,
        aside: 0,
    }
}

// The marks with a proposal of sender i. Kept beside the functions of the same name in `filing`, on another record.
fn once(g: Shown, i: usize) -> Shown
    requires { i < most_senders }
    ensures { result ≡ shown_once g i }
{
    let mut h = g;
    h.filed = with_sender(g.filed, i);
    h
}

// The marks with sender i's proposals set aside.
fn twice(g: Shown, i: usize) -> Shown
    requires { i < most_senders }
    ensures { result ≡ shown_twice g i }
{
    let mut h = g;
    h.aside = with_sender(g.aside, i);
    h
}

// The proposal is the one filed of this sender, which has so many blocks and this priority.
fn is_same(
    names: &[u64],
    counts: &[u16],
    base: u32,
    length: u8,
    held: u64,
    bytes: &[u8],
    sender: u8,
    priority: u64,
) -> bool
    requires { Fit names.now counts.now base bytes.now sender }
    ensures { result ≡ (same_log (log_in bytes.now)
        (log_at names.now counts.now (place_of base sender) length) && eqb priority held) }
{
    is_filed(names, counts, base, length, bytes, sender) & (priority == held)
}

// A proposal that can be filed.
fn file_fit(
    g: Shown,
    lengths: &mut [u8; 32],
    priorities: &mut [u64; 32],
    names: &mut [u64],
    counts: &mut [u16],
    base: u32,
    bytes: &[u8],
    sender: u8,
    priority: u64,
) -> Given<Answer, Shown>
    requires { Fit names.old counts.old base bytes.now sender }
    ensures { FilesProposal
        (file_proposal_of (proposals_from g lengths.old priorities.old) names.old counts.old base
        bytes.now sender priority) result lengths.new priorities.new names.new counts.new }
{
    let i = sender as usize;
    let (answer, after) = if has(g.aside, i) {
        (Answer::Known, g)
    } else if !has(g.filed, i) {
        store_log(names, counts, base, bytes, sender);
        lengths[i] = bytes[0];
        priorities[i] = priority;
        (Answer::First, once(g, i))
    } else if is_same(
        names,
        counts,
        base,
        lengths[i],
        priorities[i],
        bytes,
        sender,
        priority,
    ) {
        (Answer::Known, g)
    } else {
        (Answer::Second, twice(g, i))
    };
    Given { answer, after }
}

// The proposal in the bytes, filed. Where nothing can be filed, known, and nothing changes.
pub fn file(
    g: Shown,
    lengths: &mut [u8; 32],
    priorities: &mut [u64; 32],
    names: &mut [u64],
    counts: &mut [u16],
    base: u32,
    bytes: &[u8],
    sender: u8,
    priority: u64,
) -> Given<Answer, Shown>
    ensures { FilesProposal
        (file_proposal_of (proposals_from g lengths.old priorities.old) names.old counts.old base
        bytes.now sender priority) result lengths.new priorities.new names.new counts.new }
{
    if unfit(names.len(), counts.len(), base, bytes, sender) {
        return Given {
            answer: Answer::Known,
            after: g,
        };
    }
    file_fit(
        g, lengths, priorities, names, counts, base, bytes, sender, priority,
    )
}

// Sender i, who comes after the best so far, is better by its priority.
fn beats(best: Option<u8>, priorities: &[u64; 32], i: usize) -> bool
    requires { Contest best i }
    ensures { result ≡ beats (λ (j : ℕ). get_or priorities.now j 0) (chosen best) i }
{
    let Some(j) = best else {
        return true;
    };
    priorities[j as usize] < priorities[i]
}

// The best of the senders to i, whose proposal is filed and not set aside, from the best of those before it. Its log is looked at
// only where it would win: it may be voted for where the lock, the k blocks at place a, is a prefix.
fn best_to(
    lengths: &[u8; 32],
    priorities: &[u64; 32],
    names: &[u64],
    counts: &[u16],
    base: u32,
    a: usize,
    k: usize,
    best: Option<u8>,
    i: usize,
) -> Option<u8>
    requires { Contest best i }
    ensures { Chooses
        (if_fits (prefix_at names.now counts.now a k (place_of base i) (get_or lengths.now i 0))
        (λ (j : ℕ). get_or priorities.now j 0) (chosen best) i) result }
{
    if beats(best, priorities, i) {
        let at = base as usize + MOST_BLOCKS * i;
        let blocks = usize::from(lengths[i]);
        if message::store::is_prefix(names, counts, a, k, at, blocks) {
            return Some(i as u8);
        }
        return best;
    }
    best
}

// The sender whose proposal is voted for: of those that may be, the highest priority, the lower number on a tie. None:
// the vote is for the lock.
pub fn choose(
    g: Shown,
    lengths: &[u8; 32],
    priorities: &[u64; 32],
    names: &[u64],
    counts: &[u16],
    base: u32,
    a: usize,
    k: usize,
) -> Option<u8>
    ensures { Chooses
        (choice_of names.now counts.now base (proposals_from g lengths.now priorities.now) a k) result }
{
    if lacks_room(names.len(), counts.len(), base) {
        return None;
    }
    let shown = in_first(g.filed, g.aside);
    let mut best = None;
    for (i, _) in members(shown) {
        best = best_to(lengths, priorities, names, counts, base, a, k, best, i);
    }
    best
}
