// Filing a LOG: the first of a sender, a second that makes it an equivocator, or one that is known. Lists, place, bytes and sender are
// handed on one by one, here, in `proposing` and in `room`, and what is known of them stays a `requires` (`Fit`): the lists are written, and
// a struct that holds a `&mut` has no plain clauses.
ghost use Rattle.std.specs.Prelude.{◌≡◌, ◌<◌};
ghost use Rattle.agreement.specs.Limits.{most_senders};
ghost use Rattle.agreement.specs.Record.{agreement_from, heard_once, heard_twice};
ghost use Rattle.agreement.specs.Filing.{Fit, marked_by, LogStored, Files, file_of};
ghost use Rattle.agreement.specs.Kept.{is_vote_in};

use super::room::{is_filed, store_log, unfit};
use super::sets::{has, with_sender, without_sender};
use super::{Answer, Given, MOST_SENDERS, Marks};

// The marks with sender i in V. Kept beside the functions of the same name in `proposing`, on another record: what they share is
// `with_sender`.
fn once(g: Marks, i: usize) -> Marks
    requires { i < most_senders }
    ensures { result ≡ heard_once g i }
{
    let mut h = g;
    h.voters = with_sender(g.voters, i);
    h
}

// The marks with sender i moved from V to E.
fn twice(g: Marks, i: usize) -> Marks
    requires { i < most_senders }
    ensures { result ≡ heard_twice g i }
{
    let mut h = g;
    h.voters = without_sender(g.voters, i);
    h.equivocators = with_sender(g.equivocators, i);
    h
}

// The marks after this answer to a LOG of the sender.
pub fn marked(g: Marks, answer: Answer, sender: u8) -> Marks
    ensures { result ≡ marked_by g answer sender }
{
    let i = sender as usize;
    if MOST_SENDERS <= i {
        return g;
    }
    match answer {
        Answer::First => once(g, i),
        Answer::Second => twice(g, i),
        Answer::Known => g,
    }
}

// A LOG that can be stored.
fn store_fit(
    voters: u32,
    equivocators: u32,
    lengths: &mut [u8; 32],
    names: &mut [u64],
    counts: &mut [u16],
    base: u32,
    bytes: &[u8],
    sender: u8,
) -> Answer
    requires { Fit names.old counts.old base bytes.now sender }
    ensures { LogStored voters equivocators lengths.old names.old counts.old base
        bytes.now sender result
        lengths.new names.new counts.new }
{
    let i = sender as usize;
    if has(equivocators, i) {
        return Answer::Known;
    }
    if has(voters, i) {
        if is_filed(names, counts, base, lengths[i], bytes, sender) {
            return Answer::Known;
        }
        return Answer::Second;
    }
    store_log(names, counts, base, bytes, sender);
    lengths[i] = bytes[0];
    Answer::First
}

// Filing but for the marks: the answer to the LOG in the bytes, which is stored where it is the first of its sender. It is handed the
// two sets that it reads and gives none back, so that no caller's marks go through memory; they follow from the answer (`marked`).
pub fn store(
    voters: u32,
    equivocators: u32,
    lengths: &mut [u8; 32],
    names: &mut [u64],
    counts: &mut [u16],
    base: u32,
    bytes: &[u8],
    sender: u8,
) -> Answer
    ensures { LogStored voters equivocators lengths.old names.old counts.old base
        bytes.now sender result
        lengths.new names.new counts.new }
{
    if unfit(names.len(), counts.len(), base, bytes, sender) {
        return Answer::Known;
    }
    store_fit(
        voters,
        equivocators,
        lengths,
        names,
        counts,
        base,
        bytes,
        sender,
    )
}

// The LOG in the bytes, from this sender, in the agreement whose logs stand from `base` on. Where nothing can be filed, known,
// and nothing changes.
pub fn file(
    g: Marks,
    lengths: &mut [u8; 32],
    names: &mut [u64],
    counts: &mut [u16],
    base: u32,
    bytes: &[u8],
    sender: u8,
) -> Given<Answer, Marks>
    ensures { Files
        (file_of (agreement_from g lengths.old) names.old counts.old base bytes.now sender) result
        lengths.new names.new counts.new }
{
    let answer = store(
        g.voters,
        g.equivocators,
        lengths,
        names,
        counts,
        base,
        bytes,
        sender,
    );
    Given {
        answer,
        after: marked(g, answer, sender),
    }
}

// The log in the bytes is the one filed of this sender, which is in V. Where nothing can be filed, no.
pub fn is_vote(
    g: Marks,
    lengths: &[u8; 32],
    names: &[u64],
    counts: &[u16],
    base: u32,
    bytes: &[u8],
    sender: u8,
) -> bool
    ensures { result ≡ is_vote_in (agreement_from g lengths.now) names.now counts.now base
        bytes.now sender }
{
    if unfit(names.len(), counts.len(), base, bytes, sender) {
        return false;
    }
    let i = sender as usize;
    if has(g.equivocators, i) {
        return false;
    }
    if has(g.voters, i) {
        return is_filed(names, counts, base, lengths[i], bytes, sender);
    }
    false
}
