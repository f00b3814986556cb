// The bench of a roll, opened on the lent lists.
ghost use Rattle.bench.specs.Answers.{lent_as};
ghost use Rattle.run.specs.RollSteps.{Opens};

use super::roll::Roll;
use bench::Bench;

// None where the roll's n or own number, or the lists, are refused.
pub(crate) fn opened(roll: Roll, names: &[u64], counts: &[u16], totals: &[u32]) -> Option<Bench>
    ensures { Opens roll.entry.bytes.now (lent_as names.now counts.now totals.now) result }
{
    let opened = calls::open(roll.benches(), roll.own(), names, counts, totals);
    match opened.answer {
        Ok(()) => Some(opened.after),
        Err(_) => None,
    }
}
