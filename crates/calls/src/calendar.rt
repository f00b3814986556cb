// The calendar (specs/Calendar.antt of crate bench): the row of a beat, and the windows of a view's messages, in numbers wide enough for
// every view.
ghost use Rattle.std.specs.Prelude.{◌≡◌, ◌+◌, ◌*◌, ◌&&◌, leb, ltb};
ghost use Rattle.bench.specs.Calendar.{place_in, act_at, grade_read};
ghost use Rattle.calls.specs.Steps.{row_of, option_of};

// The rows of the calendar of acts.
#[derive(Clone, Copy)]
pub(crate) enum Act {
    Proposing,
    Voting,
    Deciding,
    Snapping,
}

// The row of a beat.
pub(crate) fn act_of(beat: u32) -> Act
    ensures { row_of result ≡ act_at (place_in beat) }
{
    match beat % 4 {
        0 => Act::Proposing,
        1 => Act::Voting,
        2 => Act::Deciding,
        _ => Act::Snapping,
    }
}

// The grade that the act of a row reads of the agreement before, a number as crate agreement takes it.
pub(crate) fn grade_read(act: Act) -> Option<u8>
    ensures { option_of result ≡ grade_read (row_of act) }
{
    match act {
        Act::Proposing => Some(0),
        Act::Voting => Some(1),
        Act::Deciding => Some(2),
        Act::Snapping => None,
    }
}

// The beats at which a view's messages of one kind are taken, counted from the view's first.
#[derive(Clone, Copy)]
pub(crate) struct Window {
    first: u8,
    last: u8,
}

pub(crate) const LOGS: Window = Window { first: 1, last: 6 };

pub(crate) const PROPOSALS: Window = Window { first: 0, last: 1 };

impl Window {
    // The beat is in the window of view v.
    pub(crate) fn is_open(self, v: u32, beat: u32) -> bool
        ensures { result ≡ (leb (4 * v + self.first) beat && leb beat (4 * v + self.last)) }
    {
        let start = 4 * u64::from(v);
        let b = u64::from(beat);
        (start + u64::from(self.first) <= b) & (b <= start + u64::from(self.last))
    }

    // The beat is past it.
    pub(crate) fn is_shut(self, v: u32, beat: u32) -> bool
        ensures { result ≡ ltb (4 * v + self.last) beat }
    {
        4 * u64::from(v) + u64::from(self.last) < u64::from(beat)
    }
}
