// The answers. The words for them stand in the script, by number; one that has no word there is written as a question mark.

#[derive(Clone, Copy, PartialEq, Eq)]
pub(crate) enum Answer {
    No,
    Yes,
    // of a snapshot
    One,
    Two,
    // of a grade
    GradeZero,
    GradeOne,
    GradeTwo,
    // a log that is there though nobody was heard
    EmptyLog,
    // it fits no case
    Odd,
    // of a message: it was handed in before, or its view is above the last
    Known,
    Above,
    // of an act without a snapshot: it does the same as with both, or as if no LOG had been heard
    Same,
    Unheard,
    // a message made, with its number of blocks
    Log(u8),
    Proposal(u8),
}

// The number that the script knows it by.
impl From<Answer> for usize {
    fn from(answer: Answer) -> usize {
        match answer {
            Answer::No => 0,
            Answer::Yes => 1,
            Answer::One => 2,
            Answer::Two => 3,
            Answer::GradeZero => 4,
            Answer::GradeOne => 5,
            Answer::GradeTwo => 6,
            Answer::EmptyLog => 7,
            Answer::Odd => 8,
            Answer::Known => 9,
            Answer::Above => 10,
            Answer::Same => 11,
            Answer::Unheard => 12,
            Answer::Log(blocks) => 65536 + blocks as usize,
            Answer::Proposal(blocks) => 131072 + blocks as usize,
        }
    }
}

// An answer, and the view it is of.
#[derive(Clone, Copy, PartialEq, Eq)]
pub(crate) struct Mark {
    pub(crate) answer: Answer,
    pub(crate) view: u32,
}
