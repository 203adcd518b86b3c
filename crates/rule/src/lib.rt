// A built schedule by value: the work and break rules and the holiday records of a book, each with its zone. Zone files stay in the lent pack and
// dates in the lent book: a rule says where they stand.
#![tactic(auto)]

ghost use Rattle.std.specs.Prelude.{◌≡◌};
ghost use Rattle.model.specs.Calendar.{contains, weekday};
ghost use Rattle.model.specs.DayNumber.{day_of};
ghost use Rattle.laws_calendar.specs.Numbers.{IsDayNumber};

use civil::Time;
use zone::Zone;

// A work or break rule.
#[derive(Clone, Copy)]
pub struct Rule {
    // where its zone's file stands in the pack, and the file's length; UTC has none
    pub at: usize,
    pub len: usize,
    pub zone: Zone,
    // the set of weekdays, and the times of day
    pub days: u8,
    pub from: Time,
    pub to: Time,
}

// A holiday record.
#[derive(Clone, Copy)]
pub struct HolidayDates {
    // where its zone's file stands in the pack, and the file's length; UTC has none
    pub at: usize,
    pub len: usize,
    pub zone: Zone,
    // where its dates stand in the book, and how many are written
    pub dates: usize,
    pub count: usize,
}

// The rules of a book, as many as it may have.
#[derive(Clone, Copy)]
pub struct Schedule {
    // work, breaks and holidays, each with the number of places that are taken
    pub work: [Rule; book::MOST_WORK],
    pub works: usize,
    pub breaks: [Rule; book::MOST_BREAKS],
    pub pauses: usize,
    pub closed: [HolidayDates; book::MOST_HOLIDAYS],
    pub closings: usize,
    // the search limit in seconds
    pub limit: u64,
}

// Whether a rule with this set of weekdays takes of the date.
pub fn applies(days: u8, day: i32) -> bool
    requires { IsDayNumber day }
    ensures { result ≡ contains days (weekday (day_of day)) }
{
    civil::contains(days, civil::weekday_of(day))
}
