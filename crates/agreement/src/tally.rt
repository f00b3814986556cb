// Counting senders: all that are heard, and those that support a log.
ghost use Rattle.std.specs.Prelude.{◌≡◌, ℕ, ◌≤◌, ◌<◌, ltb, get_or, ◌||◌};
ghost use Rattle.agreement.specs.Limits.{most_senders};
ghost use Rattle.agreement.specs.Sets.{count, member};
ghost use Rattle.agreement.specs.Record.{agreement_from};
ghost use Rattle.agreement.specs.Tally.{supporters_at};
ghost use Rattle.agreement.specs.Steps.{Passes, backs};

use super::logs::{Logs, readable};
use super::room::place_of;
use super::sets::{has, in_either, size};
use super::{MOST_SENDERS, Marks};
use message::MOST_BLOCKS;

// |S|: the senders in V or in E.
pub fn senders(g: Marks) -> usize
    ensures { (result ≡ count most_senders (λ i. member g.voters i || member g.equivocators i)) × (result ≤ most_senders) }
{
    size(in_either(g.voters, g.equivocators))
}

// Some sender passes the test. All are looked at, without a branch.
fn some_passes<F: Fn(usize) -> bool>(test: F) -> bool
    requires { (i : ℕ) → i < most_senders → F.pre test i }
    ensures { Passes (F.post test) most_senders result }
{
    let mut some = false;
    for i in 0..MOST_SENDERS {
        some = some | test(i);
    }
    some
}

// Some sender's number in the row is over l.
pub(crate) fn is_over(row: &[u8; 32], l: usize) -> bool
    ensures { result ≡ ltb 0 (count most_senders (λ i. ltb l (get_or row.now i 0))) }
{
    some_passes(|i| l < usize::from(row[i]))
}

// Some sender's number in one of three rows is over l. The largest of three is tested, not each.
pub fn are_over(a: &[u8; 32], b: &[u8; 32], c: &[u8; 32], l: usize) -> bool
    ensures { result ≡ (ltb 0 (count most_senders (λ i. ltb l (get_or a.now i 0)))
        || (ltb 0 (count most_senders (λ i. ltb l (get_or b.now i 0))) || ltb 0
        (count most_senders (λ i. ltb l (get_or c.now i 0))))) }
{
    some_passes(|i| l < usize::from(a[i].max(b[i]).max(c[i])))
}

impl<'a> Logs<'a> {
    // Sender j supports the k blocks at place a.
    fn is_behind(&self, g: Marks, among: u32, a: usize, k: usize, j: usize) -> bool
        requires { j < most_senders }
        ensures { result ≡ backs self.now.names.now self.now.counts.now self.now.base (agreement_from g self.now.lengths.now) among a k j }
    {
        let at = place_of(self.base, j);
        let blocks = usize::from(self.lengths[j]);
        let has_log = message::store::is_prefix(self.names, self.counts, a, k, at, blocks);
        (has(g.voters, j) & has(among, j)) & has_log
    }

    // How many do. Kept as a sum over all, without a branch.
    fn count_behind(&self, g: Marks, among: u32, a: usize, k: usize) -> usize
        ensures { (result ≡ count most_senders
            (backs self.now.names.now self.now.counts.now self.now.base (agreement_from g self.now.lengths.now) among a k)) × (result ≤ most_senders) }
    {
        let mut n = 0;
        for j in 0..MOST_SENDERS {
            n += usize::from(self.is_behind(g, among, a, k, j));
        }
        n
    }
}

// How many support the log of k blocks at sender i's place, those of `among` being the ones that may. 0 where there is no such
// log, or no grade is read: a length is over 64, or the lists lack room.
pub fn supporters(
    g: Marks,
    lengths: &[u8; 32],
    names: &[u64],
    counts: &[u16],
    base: u32,
    among: u32,
    i: u8,
    k: u8,
) -> usize
    ensures { (result ≡ supporters_at names.now counts.now base (agreement_from g lengths.now) among i k) ×
        (result ≤ most_senders) }
{
    if (MOST_SENDERS <= i as usize) | (MOST_BLOCKS < k as usize) {
        return 0;
    }
    let Some(logs) = readable(names, counts, lengths, base) else {
        return 0;
    };
    let a = place_of(base, i as usize);
    logs.count_behind(g, among, a, k as usize)
}
