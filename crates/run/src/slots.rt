// What a bench holds, as the bytes of a page (specs/Page.antt); each function answers where the page goes on.
ghost use Rattle.std.specs.Prelude.{◌≡◌, [], ◌+◌, ◌≤◌, length};
ghost use Rattle.message.specs.Numbers.{part};
ghost use Rattle.agreement.specs.Limits.{most_senders};
ghost use Rattle.agreement.specs.Sets.{is_yes};
ghost use Rattle.agreement.specs.Record.{agreement_from};
ghost use Rattle.bench.specs.Record.{bench_of};
ghost use Rattle.run.specs.RollSteps.{PutsJust, Few};
ghost use Rattle.run.specs.Page.{flag, set_bytes, head_bytes, sets_bytes, slot_bytes, read_bytes, page_bytes, page_length};

use super::texts::put_word;
use agreement::sets::is_member;
use agreement::{MOST_SENDERS, Marks};
use bench::{Bench, Counted, Rows};

// A flag of the record: any number but zero is yes.
fn flag_of(x: u32) -> u8
    ensures { result ≡ flag (is_yes x) }
{
    u8::from(x != 0)
}

fn put_set(page: &mut [u8], at: usize, set: u32) -> usize
    requires { at + most_senders ≤ length page.old }
    ensures { PutsJust most_senders (set_bytes set) at page.old result page.new }
{
    let mut flags = [0; MOST_SENDERS];
    for (i, flag) in flags.iter_mut().enumerate() {
        *flag = u8::from(is_member(set, i as u8));
    }
    put_word(page, at, &flags)
}

fn put_sets(page: &mut [u8], at: usize, g: Marks) -> usize
    requires { at + 128 ≤ length page.old }
    ensures { PutsJust 128 (sets_bytes (agreement_from g [])) at page.old result page.new }
{
    let p = put_set(page, at, g.voters);
    let q = put_set(page, p, g.equivocators);
    let r = put_set(page, q, g.one.senders);
    put_set(page, r, g.two.senders)
}

fn put_head(page: &mut [u8], at: usize, g: Marks) -> usize
    requires { at + 6 ≤ length page.old }
    ensures { PutsJust 6 (head_bytes (agreement_from g [])) at page.old result page.new }
{
    let [a, b, c, d] = g.view.to_le_bytes();
    let first = flag_of(g.one.taken);
    let second = flag_of(g.two.taken);
    put_word(page, at, &[a, b, c, d, first, second])
}

fn put_slot(page: &mut [u8], at: usize, g: Marks, lengths: [u8; MOST_SENDERS]) -> usize
    requires { at + 166 ≤ length page.old }
    ensures { PutsJust 166 (slot_bytes (agreement_from g lengths)) at page.old result page.new }
{
    let p = put_head(page, at, g);
    let q = put_word(page, p, &lengths);
    put_sets(page, q, g)
}

fn put_read(page: &mut [u8], at: usize, c: Counted) -> usize
    requires { (at + 5 ≤ length page.old) × Few c }
    ensures { PutsJust 5 (read_bytes c) at page.old result page.new }
{
    let supporters = c.supporters as u8;
    let senders = c.senders as u8;
    match c.grade {
        None => put_word(page, at, &[0, 0, 0, supporters, senders]),
        Some(log) => put_word(page, at, &[1, log.sender, log.blocks, supporters, senders]),
    }
}

pub(crate) fn put_page(page: &mut [u8], bench: Bench, c: Counted) -> usize
    requires { (page_length ≤ length page.old) × Few c }
    ensures { PutsJust page_length (page_bytes (bench_of bench) c) 0 page.old result page.new }
{
    let Rows { even, odd, .. } = bench.rows;
    let p = put_slot(page, 0, bench.head.even, even);
    let q = put_slot(page, p, bench.head.odd, odd);
    put_read(page, q, c)
}
