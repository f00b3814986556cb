// Receiving: a message is read, its window looked up, and what it says filed.
ghost use Rattle.message.specs.Message.{log_message, proposal_message, content_of};
ghost use Rattle.agreement.specs.Record.{agreement_from};
ghost use Rattle.agreement.specs.Filing.{Files, file_of};
ghost use Rattle.bench.specs.Record.{bench_with, of_view};
ghost use Rattle.bench.specs.ByRecord.{file_log, file_proposal, taken};
ghost use Rattle.bench.specs.Answers.{core_with};
ghost use Rattle.calls.specs.Steps.{given_of, receives, receives_as, TakeGives};

use super::calendar::{LOGS, PROPOSALS};
use super::record::{beat_of, is_even, of_view, shown_of};
use agreement::filing::{marked, store};
use agreement::{Answer, Given, Marks};
use bench::{Head, ODD_PLACE, PROPOSALS_PLACE, Refusal, Rows};
use message::Message;

// The LOG in the bytes, from this sender, in the agreement of view v in one slot, whose logs stand from `base` on.
#[inline(always)]
fn file_in(
    g: Marks,
    lengths: &mut [u8; 32],
    names: &mut [u64],
    counts: &mut [u16],
    base: u32,
    bytes: &[u8],
    v: u32,
    sender: u8,
) -> Given<Answer, Marks>
    ensures { Files
        (file_of (of_view (agreement_from g lengths.old) v) names.old counts.old base bytes.now sender) result
        lengths.new names.new counts.new }
{
    let m = of_view(g, lengths, v);
    let answer = store(
        m.voters,
        m.equivocators,
        lengths,
        names,
        counts,
        base,
        bytes,
        sender,
    );
    Given {
        answer,
        after: marked(m, answer, sender),
    }
}

// The same in the slot of the view's parity. It is put into Receive and into Act, so that the head is not copied for it. Kept as two
// branches: a function that hands out a `&mut` to one row or the other gets no contract.
#[inline(always)]
pub(crate) fn file_log(
    h: Head,
    rows: &mut Rows,
    names: &mut [u64],
    counts: &mut [u16],
    bytes: &[u8],
    v: u32,
    sender: u8,
) -> Given<Answer, Head>
    ensures { TakeGives
        (taken (file_log (core_with (bench_with h rows.old) names.old counts.old) bytes.now v sender))
        (Ok result.answer) (bench_with result.after rows.new) names.new counts.new }
{
    let mut c = h;
    if is_even(v) {
        let f = file_in(h.even, &mut rows.even, names, counts, 0, bytes, v, sender);
        c.even = f.after;
        return Given {
            answer: f.answer,
            after: c,
        };
    }
    let f = file_in(
        h.odd,
        &mut rows.odd,
        names,
        counts,
        ODD_PLACE,
        bytes,
        v,
        sender,
    );
    c.odd = f.after;
    Given {
        answer: f.answer,
        after: c,
    }
}

// The PROPOSAL in the bytes, from this sender and of this priority, among the proposals of view v.
pub(crate) fn file_proposal(
    h: Head,
    rows: &mut Rows,
    names: &mut [u64],
    counts: &mut [u16],
    bytes: &[u8],
    v: u32,
    sender: u8,
    priority: u64,
) -> Given<Answer, Head>
    ensures { TakeGives
        (taken (file_proposal (core_with (bench_with h rows.old) names.old counts.old) bytes.now v sender priority))
        (Ok result.answer) (bench_with result.after rows.new) names.new counts.new }
{
    let g = shown_of(h.shown, &mut rows.proposed, &mut rows.priorities, v);
    let f = agreement::proposing::file(
        g,
        &mut rows.proposed,
        &mut rows.priorities,
        names,
        counts,
        PROPOSALS_PLACE,
        bytes,
        sender,
        priority,
    );
    let mut c = h;
    c.shown = f.after;
    Given {
        answer: f.answer,
        after: c,
    }
}

// A LOG of this head: filed where its view is open.
fn take_log(
    h: Head,
    rows: &mut Rows,
    names: &mut [u64],
    counts: &mut [u16],
    bytes: &[u8],
    head: message::Head,
) -> Result<Given<Answer, Head>, Refusal>
    ensures { TakeGives
        (receives_as (core_with (bench_with h rows.old) names.old counts.old) bytes.now
        (log_message (content_of bytes.now head)))
        (given_of h result).answer (bench_with (given_of h result).after rows.new) names.new counts.new }
{
    if LOGS.is_open(head.view, beat_of(h)) {
        return Ok(file_log(h, rows, names, counts, bytes, head.view, head.sender));
    }
    Err(Refusal::NotOpen)
}

// A PROPOSAL of this head and priority: filed where its view is open.
fn take_proposal(
    h: Head,
    rows: &mut Rows,
    names: &mut [u64],
    counts: &mut [u16],
    bytes: &[u8],
    head: message::Head,
    priority: u64,
) -> Result<Given<Answer, Head>, Refusal>
    ensures { TakeGives
        (receives_as (core_with (bench_with h rows.old) names.old counts.old) bytes.now
        (proposal_message (content_of bytes.now head) priority))
        (given_of h result).answer (bench_with (given_of h result).after rows.new) names.new counts.new }
{
    if PROPOSALS.is_open(head.view, beat_of(h)) {
        return Ok(file_proposal(
            h,
            rows,
            names,
            counts,
            bytes,
            head.view,
            head.sender,
            priority,
        ));
    }
    Err(Refusal::NotOpen)
}

// A message in a gathering under way. Refused: 1 to 6, 21.
pub(crate) fn take(
    h: Head,
    rows: &mut Rows,
    names: &mut [u64],
    counts: &mut [u16],
    bytes: &[u8],
) -> Result<Given<Answer, Head>, Refusal>
    ensures { TakeGives (receives (core_with (bench_with h rows.old) names.old counts.old) bytes.now)
        (given_of h result).answer (bench_with (given_of h result).after rows.new) names.new counts.new }
{
    let message = message::reader::read(h.n, bytes)?;
    match message {
        Message::Log(head) => take_log(h, rows, names, counts, bytes, head),
        Message::Proposal(head, priority) => {
            take_proposal(h, rows, names, counts, bytes, head, priority)
        }
    }
}
