// What a bench goes through up to a beat, and what its act there does.
use super::answers::Answer;
use super::asking::snapshot;
use super::beats::{beat_of, moved};
use super::replica::{Deed, Kind, Replica};

// What it has of an agreement: the LOG, snapshots one and two, and the PROPOSAL of the view after.
#[derive(Clone, Copy)]
pub(crate) struct Way {
    pub(crate) view: u32,
    pub(crate) log: bool,
    pub(crate) one: bool,
    pub(crate) two: bool,
    pub(crate) proposal: bool,
}

// The way starts so many views before that of the agreement, so that nothing of the calendar is assumed.
const BEFORE: u32 = 2;

// The message is handed in at each beat: it may be taken, known, out of its window, or of no view.
fn hear(replica: &mut Replica, kind: Kind, view: u32) -> Option<()> {
    (replica.receive(kind, view) != Answer::Odd).then_some(())
}

impl Way {
    // With the LOG and both snapshots.
    pub(crate) fn heard(view: u32) -> Way {
        Way {
            view,
            log: true,
            one: true,
            two: true,
            proposal: false,
        }
    }

    // The same without the LOG, or without a snapshot, or with the PROPOSAL.
    pub(crate) fn without_log(self) -> Way {
        Way { log: false, ..self }
    }

    pub(crate) fn without_one(self) -> Way {
        Way { one: false, ..self }
    }

    pub(crate) fn without_two(self) -> Way {
        Way { two: false, ..self }
    }

    pub(crate) fn with_proposal(self) -> Way {
        Way {
            proposal: true,
            ..self
        }
    }

    // The act of this beat stores a snapshot that is not to be missed.
    fn is_due(self, beat: u32) -> bool {
        match snapshot(self.view, beat) {
            Answer::One => self.one,
            Answer::Two => self.two,
            _ => false,
        }
    }

    // The beat begins, and the messages are handed in.
    fn gather(self, replica: &mut Replica, beat: u32) -> Option<()> {
        replica.begin(beat).ok()?;
        if self.log {
            hear(replica, Kind::Log, self.view)?;
        }
        if self.proposal {
            hear(replica, Kind::Proposal, moved(self.view, 1, 0))?;
        }
        Some(())
    }

    // A beat on the way.
    fn pass(self, replica: &mut Replica, beat: u32) -> Option<()> {
        self.gather(replica, beat)?;
        if self.is_due(beat) {
            replica.act()?;
        }
        Some(())
    }

    // What the act of this beat does after it. None where an answer up to there fits no case.
    pub(crate) fn deed(self, beat: u32) -> Option<Deed> {
        let mut replica = Replica::fresh();
        for x in beat_of(moved(self.view, 0, BEFORE), 0)..beat {
            self.pass(&mut replica, x)?;
        }
        self.gather(&mut replica, beat)?;
        replica.act()
    }
}
