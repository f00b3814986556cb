// Proposing and voting: a message is written to the outgoing buffer, and filed from there as one's own.
ghost use Rattle.std.specs.Prelude.{◌<◌};
ghost use Rattle.message.specs.Limits.{most_blocks};
ghost use Rattle.message.specs.Store.{log_from, proposal_from};
ghost use Rattle.bench.specs.Calendar.{proposing, voting};
ghost use Rattle.bench.specs.Record.{bench_with};
ghost use Rattle.bench.specs.ByRecord.{acted_of};
ghost use Rattle.bench.specs.Answers.{core_with, offered};
ghost use Rattle.bench.specs.Tested.{Tested};
ghost use Rattle.calls.specs.Steps.{Making, MakeGives, made_step, no_block};

use super::calendar::Act;
use super::filing::{file_log, file_proposal};
use super::seeing::{Listed, ballot, seen};
use agreement::Given;
use bench::{Head, Made, Offer, Rows};
use message::writer::{write_log, write_proposal};
use message::{LAST_VIEW, MOST_BLOCKS};

// The LOG of view v with these blocks.
fn make_log(
    h: Head,
    rows: &mut Rows,
    names: &mut [u64],
    counts: &mut [u16],
    out: &mut [u8],
    v: u32,
    log: Listed,
) -> Given<Made, Head>
    requires { Making names.old counts.old out.old v log.at log.blocks }
    ensures { MakeGives
        (made_step (core_with (bench_with h rows.old) names.old counts.old) out.old
        (log_from names.old counts.old log.at log.blocks h.own v))
        result.answer (bench_with result.after rows.new) names.new counts.new out.new }
{
    let own = h.own;
    write_log(out, names, counts, log.at, log.blocks as usize, own, v);
    let filed = file_log(h, rows, names, counts, out, v, own);
    Given {
        answer: Made::Log(log.blocks),
        after: filed.after,
    }
}

// The PROPOSAL of view v with these blocks and the one offered.
fn make_proposal(
    h: Head,
    rows: &mut Rows,
    names: &mut [u64],
    counts: &mut [u16],
    out: &mut [u8],
    v: u32,
    log: Listed,
    offer: Offer,
) -> Given<Made, Head>
    requires { (Making names.old counts.old out.old v log.at log.blocks) × (log.blocks < most_blocks) }
    ensures { MakeGives
        (made_step (core_with (bench_with h rows.old) names.old counts.old) out.old
        (proposal_from names.old counts.old log.at log.blocks (offered offer) h.own v offer.priority))
        result.answer (bench_with result.after rows.new) names.new counts.new out.new }
{
    let longer = log.blocks + 1;
    let own = h.own;
    write_proposal(
        out,
        names,
        counts,
        log.at,
        log.blocks as usize,
        offer.name,
        offer.count,
        own,
        v,
        offer.priority,
    );
    let filed = file_proposal(h, rows, names, counts, out, v, own, offer.priority);
    Given {
        answer: Made::Proposal(longer),
        after: filed.after,
    }
}

// The proposing act of view v: of the candidate and the offered block, where there are both and room.
pub(crate) fn propose(
    h: Head,
    rows: &mut Rows,
    names: &mut [u64],
    counts: &mut [u16],
    out: &mut [u8],
    v: u32,
    offer: Offer,
) -> Given<Made, Head>
    requires { Tested (core_with (bench_with h rows.old) names.old counts.old) out.old }
    ensures { MakeGives
        (acted_of (core_with (bench_with h rows.old) names.old counts.old) (offered offer) offer.priority
        out.old v proposing)
        result.answer (bench_with result.after rows.new) names.new counts.new out.new }
{
    let nothing = Given {
        answer: Made::Nothing,
        after: h,
    };
    if (LAST_VIEW < v) | (offer.name == 0) {
        return nothing;
    }
    let Some(log) = seen(h, rows, names, counts, v, Act::Proposing) else {
        return nothing;
    };
    if MOST_BLOCKS <= log.blocks as usize {
        return nothing;
    }
    make_proposal(h, rows, names, counts, out, v, log, offer)
}

// The voting act of view v: for the best proposal that has the lock as a prefix, else the lock.
pub(crate) fn vote(
    h: Head,
    rows: &mut Rows,
    names: &mut [u64],
    counts: &mut [u16],
    out: &mut [u8],
    v: u32,
) -> Given<Made, Head>
    requires { Tested (core_with (bench_with h rows.old) names.old counts.old) out.old }
    ensures { MakeGives
        (acted_of (core_with (bench_with h rows.old) names.old counts.old) no_block 0 out.old v voting)
        result.answer (bench_with result.after rows.new) names.new counts.new out.new }
{
    let nothing = Given {
        answer: Made::Nothing,
        after: h,
    };
    if LAST_VIEW < v {
        return nothing;
    }
    let Some(log) = ballot(h, rows, names, counts, v) else {
        return nothing;
    };
    make_log(h, rows, names, counts, out, v, log)
}
