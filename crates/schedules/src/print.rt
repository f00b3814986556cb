// Answers in print, behind what the call was handed; a refusal is its number.
use agreement::Answer;
use bench::{Entry, Head, Made, Refusal};
use std::{fmt, io};

pub(crate) fn say<T: fmt::Display + Drop>(
    rt: &impl Print,
    answer: Result<T, Refusal>,
) -> io::Result<()> {
    match answer {
        Ok(words) => print!(rt; ": {words}"),
        Err(why) => print!(rt; ": {}", u8::from(why)),
    }
}

// Kept in each program: no crate below both prints.
pub(crate) fn word_for(answer: Answer) -> &'static str {
    match answer {
        Answer::First => "first",
        Answer::Second => "second",
        Answer::Known => "known",
    }
}

// What was made, its blocks, the decided blocks afterwards, and the mark.
#[derive(Clone, Copy)]
pub(crate) struct Act {
    pub(crate) made: Made,
    pub(crate) after: Head,
}

impl fmt::Display for Act {
    fn fmt<W: fmt::Write>(&self, f: &mut fmt::Formatter<W>) -> fmt::Result {
        let (kind, blocks) = match self.made {
            Made::Nothing => ("none", 0),
            Made::Log(blocks) => ("log", blocks),
            Made::Proposal(blocks) => ("proposal", blocks),
        };
        write!(f, "{kind} {blocks} {}", self.after.decided)?;
        if self.after.parted != 0 {
            write!(f, " parted")?;
        }
        Ok(())
    }
}

#[derive(Clone, Copy)]
pub(crate) struct Place(pub(crate) Entry);

impl fmt::Display for Place {
    fn fmt<W: fmt::Write>(&self, f: &mut fmt::Formatter<W>) -> fmt::Result {
        write!(f, "block {} place {}", self.0.block, self.0.inside)
    }
}
