// A roll: a list of calls at one bench as bytes (specs/Roll.antt). Four functions of it: roll_text, its text (specs/RollText.antt);
// and for a tool that shows schedules roll_page, what the bench holds after some of the calls (specs/Page.antt), roll_made, the
// message that an act made (specs/MadeBytes.antt), and roll_entry, where an entry stands after some of the calls
// (specs/EntryBytes.antt). The crate cervakho exports them, and for C they answer 0 where nothing is written.
#![tactic(auto)]

mod calling;
mod entry;
mod events;
mod form;
mod lines;
mod made;
mod opening;
mod roll;
mod showing;
mod slots;
mod texts;

ghost use Rattle.bench.specs.Answers.{lent_as};
ghost use Rattle.run.specs.RollText.{WritesText, fresh_totals};
ghost use Rattle.run.specs.Held.{held_at};
ghost use Rattle.run.specs.Page.{no_page, GivesPage};
ghost use Rattle.run.specs.MadeBytes.{made_of, GivesMade};
ghost use Rattle.run.specs.EntryBytes.{entry_of, no_entry, GivesEntry};

use agreement::{Answer, MOST_SENDERS};
use bench::{LEAST_LENT, Made, Refusal};
use entry::put_entry;
use events::run_events;
use lines::{put_first_line, put_no_roll};
use made::{act_in, acting};
use message::MOST_BLOCKS;
use opening::opened;
use roll::Roll;
use showing::shown;
use slots::put_page;

// The numbers of specs/Roll.antt, specs/Page.antt and specs/EntryBytes.antt.
pub const MOST_ROLL: usize = 65536;

const MOST_EVENTS: usize = 1024;

const SIZES_LENGTH: usize = 4;

const MARK_LENGTH: usize = 4;

const PAGE_LENGTH: usize = 2 * (6 + 5 * MOST_SENDERS) + 5;

const ENTRY_LENGTH: usize = 3;

// What an event calls, by the number in its mark.
#[derive(Clone, Copy, PartialEq, Eq)]
enum Kind {
    Begin = 1,
    Receive = 2,
    Act = 3,
}

// What the call of an event answered, Begin's with the beat asked for.
#[derive(Clone, Copy)]
pub enum Answered {
    Begun(u32, Result<(), Refusal>),
    Taken(Result<Answer, Refusal>),
    Acted(Result<Made, Refusal>),
}

// The text of a roll, at the front of the lent buffer, and how many bytes it has. A buffer shorter than the longest roll is left as
// it was, and the answer is 0.
pub fn roll_text(roll: &[u8], text: &mut [u8]) -> usize
    ensures { WritesText roll.now text.old result text.new }
{
    if text.len() < MOST_ROLL {
        return 0;
    }
    let Some(roll) = Roll::read(roll) else {
        return put_no_roll(text);
    };
    let mut names = [0; LEAST_LENT];
    let mut counts = [0; LEAST_LENT];
    let mut totals = [0; MOST_BLOCKS];
    let Some(bench) = opened(roll, &names, &counts, &totals) else {
        return put_no_roll(text);
    };
    let p = put_first_line(text, roll);
    let ran = run_events(
        bench,
        &mut names,
        &mut counts,
        &mut totals,
        roll,
        roll.events(),
        text,
        p,
        true,
    );
    ran.answer
}

// The page of a roll, at the front of the lent buffer, and its length: what the bench holds after the first calls, made on the lent
// names and counts, which are left as it holds them, and on totals of its own. The lists may hold anything at first. The answer is 0,
// and lists and buffer are left as they were, where the buffer is too short, the roll has another form or fewer calls, or Open
// refuses.
pub fn roll_page(
    roll: &[u8],
    calls: usize,
    names: &mut [u64],
    counts: &mut [u16],
    page: &mut [u8],
) -> usize
    ensures { GivesPage
        (no_page roll.now calls (lent_as names.old counts.old fresh_totals) page.old)
        (held_at roll.now (lent_as names.old counts.old fresh_totals) calls)
        (lent_as names.old counts.old fresh_totals) page.old result names.new counts.new
        page.new }
{
    let mut totals = [0; MOST_BLOCKS];
    let Some(roll) = shown(PAGE_LENGTH, roll, calls, page) else {
        return 0;
    };
    let Some(bench) = opened(roll, names, counts, &totals) else {
        return 0;
    };
    let ran = run_events(
        bench,
        names,
        counts,
        &mut totals,
        roll,
        calls,
        page,
        0,
        false,
    );
    let held = ran.after;
    let read = calls::support(held, names, counts);
    put_page(page, held, read)
}

// The message that event number `event` of a roll made, at the front of the lent buffer, and its length. The buffer is the Act's
// outgoing buffer; where nothing was made it is left as it was, and the answer is 0. The lists stand before the tests, here and in
// roll_entry: behind them, rattle-kit-5b-plain compiled this one wrong for the static library, as its stack check overwrote a register
// in use (docs/DECISIONS.md, "Sketches").
pub fn roll_made(roll: &[u8], event: usize, out: &mut [u8]) -> usize
    ensures { GivesMade (made_of roll.now event out.old) out.old result out.new }
{
    let mut names = [0; LEAST_LENT];
    let mut counts = [0; LEAST_LENT];
    let mut totals = [0; MOST_BLOCKS];
    let Some(roll) = acting(roll, event) else {
        return 0;
    };
    let Some(bench) = opened(roll, &names, &counts, &totals) else {
        return 0;
    };
    let at = roll.body_place(event);
    let ran = run_events(
        bench,
        &mut names,
        &mut counts,
        &mut totals,
        roll,
        event,
        out,
        0,
        false,
    );
    let held = ran.after;
    act_in(
        held,
        &mut names,
        &mut counts,
        &mut totals,
        roll.bytes,
        at,
        out,
    )
}

// Where entry number `entry` of the decided log stands after the first calls of a roll. At the front of the lent buffer: the place of
// its block, and its place inside that block in two bytes, lowest first, and the answer is 3; or the refusal's number, and the answer
// is 1. The answer is 0, and the buffer is left as it was, where it has under 3 bytes, the roll has another form or fewer calls, or
// Open refuses.
pub fn roll_entry(roll: &[u8], calls: usize, entry: u32, found: &mut [u8]) -> usize
    ensures { GivesEntry (no_entry roll.now calls found.old) (entry_of roll.now calls entry)
        found.old result found.new }
{
    let mut names = [0; LEAST_LENT];
    let mut counts = [0; LEAST_LENT];
    let mut totals = [0; MOST_BLOCKS];
    let Some(roll) = shown(ENTRY_LENGTH, roll, calls, found) else {
        return 0;
    };
    let Some(bench) = opened(roll, &names, &counts, &totals) else {
        return 0;
    };
    let ran = run_events(
        bench,
        &mut names,
        &mut counts,
        &mut totals,
        roll,
        calls,
        found,
        0,
        false,
    );
    let held = ran.after;
    let place = calls::find(held, &names, &counts, &totals, entry);
    put_entry(found, place)
}
