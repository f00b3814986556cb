// The static library: the four functions of a roll that C or Rust may call, each the function of the crate run with its contract.
// Nothing tests what C hands over, so at each signature stands what C must keep to: a pointer is valid for as many elements as the
// length behind it says, and aligned for them; and no two of the buffers overlap. Where they do, a function may write outside them.
#![tactic(auto)]

ghost use Rattle.bench.specs.Answers.{lent_as};
ghost use Rattle.run.specs.RollText.{WritesText, fresh_totals};
ghost use Rattle.run.specs.Held.{held_at};
ghost use Rattle.run.specs.Page.{no_page, GivesPage};
ghost use Rattle.run.specs.MadeBytes.{made_of, GivesMade};
ghost use Rattle.run.specs.EntryBytes.{entry_of, no_entry, GivesEntry};

// The text of a roll. In C: size_t cervakho_roll_text(const uint8_t *roll, size_t roll_length, uint8_t *text, size_t text_length).
// Both valid for their lengths; roll and text apart.
#[unsafe(no_mangle)]
pub extern "C" fn cervakho_roll_text(roll: &[u8], text: &mut [u8]) -> usize
    ensures { WritesText roll.now text.old result text.new }
{
    run::roll_text(roll, text)
}

// What the bench holds after some of a roll's calls. In C: size_t cervakho_roll_page(const uint8_t *roll, size_t roll_length, size_t
// calls, uint64_t *names, size_t names_length, uint16_t *counts, size_t counts_length, uint8_t *page, size_t page_length). All valid
// for their lengths, names and counts aligned; roll, names, counts and page apart.
#[unsafe(no_mangle)]
pub extern "C" fn cervakho_roll_page(
    roll: &[u8],
    calls: usize,
    names: &mut [u64],
    counts: &mut [u16],
    page: &mut [u8],
) -> usize
    ensures { GivesPage
        (no_page roll.now calls (lent_as names.old counts.old fresh_totals) page.old)
        (held_at roll.now (lent_as names.old counts.old fresh_totals) calls)
        (lent_as names.old counts.old fresh_totals) page.old result names.new counts.new
        page.new }
{
    run::roll_page(roll, calls, names, counts, page)
}

// The message that an act of a roll made. In C: size_t cervakho_roll_made(const uint8_t *roll, size_t roll_length, size_t event,
// uint8_t *out, size_t out_length). Both valid for their lengths; roll and out apart.
#[unsafe(no_mangle)]
pub extern "C" fn cervakho_roll_made(roll: &[u8], event: usize, out: &mut [u8]) -> usize
    ensures { GivesMade (made_of roll.now event out.old) out.old result out.new }
{
    run::roll_made(roll, event, out)
}

// Where an entry stands after some of a roll's calls, by its number. In C: size_t cervakho_roll_entry(const uint8_t *roll, size_t
// roll_length, size_t calls, uint32_t entry, uint8_t *found, size_t found_length). Both valid for their lengths; roll and found apart.
#[unsafe(no_mangle)]
pub extern "C" fn cervakho_roll_entry(
    roll: &[u8],
    calls: usize,
    entry: u32,
    found: &mut [u8],
) -> usize
    ensures { GivesEntry (no_entry roll.now calls found.old) (entry_of roll.now calls entry)
        found.old result found.new }
{
    run::roll_entry(roll, calls, entry, found)
}
