// Why a call gives no answer: the refusals, each with the number that document 01 or document 02 gives it, and the place in the book that goes with one.
#![tactic(auto)]

ghost use Rattle.std.specs.Prelude.{◌≡◌};
ghost use Rattle.refusal.specs.Refused.{number_of, place_0, refusal_of};

// The refusals.
#[derive(Clone, Copy, PartialEq, Eq)]
pub enum Refusal {
    // the book breaks its layout; a book limit is passed; the pack breaks its layout
    BookLayout,
    BookLimit,
    PackLayout,
    // a zone is not in the pack; a zone file is unusable
    UnknownZone,
    ZoneUnusable,
    // build or a search finds no working time; a search or a negation leaves the range
    NoWorkingTime,
    OutOfRange,
    // what is given: an instant, a date or a time of day out of range; a duration malformed; too few numbers for a listing
    InstantOutOfRange,
    DurationMalformed,
    TooFewNumbers,
    // of the hardest stretch: the log is malformed, too long or passes the last instant; the width is outside its limits
    LogMalformed,
    WidthOutOfRange,
    // of a ticket: the instant is earlier than the last command's; the command is not allowed in this state, or the mark is not set, or it is no ticket
    EarlierInstant,
    NotAllowed,
}

impl Refusal {
    // The refusal's number.
    pub fn number(self) -> u32
        ensures { result ≡ number_of self }
    {
        match self {
            Refusal::BookLayout => 1,
            Refusal::BookLimit => 2,
            Refusal::PackLayout => 3,
            Refusal::UnknownZone => 4,
            Refusal::ZoneUnusable => 5,
            Refusal::NoWorkingTime => 6,
            Refusal::OutOfRange => 7,
            Refusal::InstantOutOfRange => 8,
            Refusal::DurationMalformed => 9,
            Refusal::TooFewNumbers => 10,
            Refusal::LogMalformed => 11,
            Refusal::WidthOutOfRange => 12,
            Refusal::EarlierInstant => 13,
            Refusal::NotAllowed => 14,
        }
    }
}

// A refusal and its place in the book, 0 where it has none.
#[derive(Clone, Copy, PartialEq, Eq)]
pub struct Refused {
    pub refusal: Refusal,
    pub place: usize,
}

impl From<Refusal> for Refused {
    ghost from_gives = { place_0 };

    fn from(refusal: Refusal) -> Refused {
        Refused { refusal, place: 0 }
    }
}

// What a search does not reach: there is no working time within the search limit, or the range ends first.
#[derive(Clone, Copy, PartialEq, Eq)]
pub enum SearchError {
    NoWork,
    RangeEnds,
}

impl From<SearchError> for Refused {
    ghost from_gives = { refusal_of };

    fn from(error: SearchError) -> Refused {
        match error {
            SearchError::NoWork => Refused::from(Refusal::NoWorkingTime),
            SearchError::RangeEnds => Refused::from(Refusal::OutOfRange),
        }
    }
}
