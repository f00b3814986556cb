// A bench that is asked: every answer of the chart comes from these calls.
use super::answers::{Answer, Mark};
use bench::{Bench, LEAST_LENT, MOST_BYTES, Made, Offer, Refusal};
use message::reader::read;
use message::writer::{write_log, write_proposal};
use message::{BLOCK_WIDTH, HEAD_LENGTH, MOST_BLOCKS, Message};

// The one asked has number 0, and all messages are from the other.
const BENCHES: u8 = 2;

const SENDER: u8 = 1;

// The messages that are handed in: the LOG [5], and the PROPOSAL [5,7]. Each block has one entry.
#[derive(Clone, Copy)]
pub(crate) enum Kind {
    Log,
    Proposal,
}

const LOG_LENGTH: usize = HEAD_LENGTH + BLOCK_WIDTH;

const PROPOSAL_LENGTH: usize = LOG_LENGTH + BLOCK_WIDTH;

// The record and the lent lists, in the form that the calls take. Kept apart from the one of schedules, which has other calls.
#[derive(Drop)]
pub(crate) struct Replica {
    pub(crate) bench: Bench,
    names: [u64; LEAST_LENT],
    counts: [u16; LEAST_LENT],
    totals: [u32; MOST_BLOCKS],
}

// What an act did: the message that it made, and whether a log was decided.
#[derive(Clone, Copy, PartialEq, Eq)]
pub(crate) struct Deed {
    pub(crate) made: Option<Mark>,
    pub(crate) decides: bool,
}

fn heard(answer: Result<agreement::Answer, Refusal>) -> Answer {
    match answer {
        Ok(agreement::Answer::First) => Answer::Yes,
        Ok(agreement::Answer::Known) => Answer::Known,
        Err(Refusal::Message(message::Refusal::View)) => Answer::Above,
        Err(Refusal::NotOpen) => Answer::No,
        Ok(agreement::Answer::Second) | Err(_) => Answer::Odd,
    }
}

// The message that was made, with its view, where the buffer has one of this kind and so many blocks.
fn read_back(out: &[u8; MOST_BYTES], answer: Answer, blocks: u8) -> Option<Mark> {
    let size = HEAD_LENGTH + BLOCK_WIDTH * usize::from(blocks);
    let (found, head) = match read(BENCHES, out.get(..size)?).ok()? {
        Message::Log(head) => (Answer::Log(head.blocks), head),
        Message::Proposal(head, _) => (Answer::Proposal(head.blocks), head),
    };
    let view = head.view;
    (found == answer).then_some(Mark { answer, view })
}

impl Replica {
    pub(crate) fn fresh() -> Replica {
        let names = [0u64; LEAST_LENT];
        let counts = [0u16; LEAST_LENT];
        let totals = [0u32; MOST_BLOCKS];
        Replica {
            bench: calls::open(BENCHES, 0, &names, &counts, &totals).after,
            names,
            counts,
            totals,
        }
    }

    pub(crate) fn begin(&mut self, beat: u32) -> Result<(), Refusal> {
        let begun = calls::begin(self.bench, &self.names, &self.counts, &self.totals, beat);
        self.bench = begun.after;
        begun.answer
    }

    pub(crate) fn receive(&mut self, kind: Kind, view: u32) -> Answer {
        let names = [5];
        let counts = [1];
        match kind {
            Kind::Log => {
                let mut log = [0u8; LOG_LENGTH];
                write_log(&mut log, &names, &counts, 0, 1, SENDER, view);
                self.take(&log)
            }
            Kind::Proposal => {
                let mut proposal = [0u8; PROPOSAL_LENGTH];
                write_proposal(&mut proposal, &names, &counts, 0, 1, 7, 1, SENDER, view, 3);
                self.take(&proposal)
            }
        }
    }

    fn take(&mut self, message: &[u8]) -> Answer {
        let received = calls::receive(
            self.bench,
            &mut self.names,
            &mut self.counts,
            &self.totals,
            message,
        );
        self.bench = received.after;
        heard(received.answer)
    }

    // Block 6 is offered, with priority 9. None where the answer fits no case.
    pub(crate) fn act(&mut self) -> Option<Deed> {
        let mut out = [0u8; MOST_BYTES];
        let decided = self.bench.head.decided;
        let acted = calls::act(
            self.bench,
            &mut self.names,
            &mut self.counts,
            &mut self.totals,
            &mut out,
            Offer {
                name: 6,
                priority: 9,
                count: 1,
            },
        );
        self.bench = acted.after;
        let made = match acted.answer.ok()? {
            Made::Nothing => None,
            Made::Log(blocks) => Some(read_back(&out, Answer::Log(blocks), blocks)?),
            Made::Proposal(blocks) => Some(read_back(&out, Answer::Proposal(blocks), blocks)?),
        };
        let decides = self.bench.head.decided != decided;
        Some(Deed { made, decides })
    }
}
