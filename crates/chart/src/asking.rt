// What a fresh bench answers at a beat: which messages it takes, and which snapshot its act stores.
use super::answers::Answer;
use super::replica::{Kind, Replica};
use agreement::Marks;
use bench::Head;

pub(crate) fn taken(kind: Kind, view: u32, beat: u32) -> Answer {
    let mut replica = Replica::fresh();
    match replica.begin(beat) {
        Ok(()) => replica.receive(kind, view),
        Err(_) => Answer::Odd,
    }
}

// The place of a view's agreement in the record.
fn slot(head: Head, view: u32) -> Marks {
    if view % 2 == 0 { head.even } else { head.odd }
}

fn stored(g: Marks, view: u32) -> Answer {
    if g.view != view {
        return Answer::No;
    }
    match (g.one.taken, g.two.taken) {
        (0, 0) => Answer::No,
        (_, 0) => Answer::One,
        (0, _) => Answer::Two,
        _ => Answer::Odd,
    }
}

// Which snapshot of the view's agreement the act of this beat stores.
pub(crate) fn snapshot(view: u32, beat: u32) -> Answer {
    let mut replica = Replica::fresh();
    if replica.begin(beat).is_err() || replica.act().is_none() {
        return Answer::Odd;
    }
    stored(slot(replica.bench.head, view), view)
}
