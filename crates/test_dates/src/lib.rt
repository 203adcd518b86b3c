// The calendar for a program that goes through its days one by one (tools/days.py).
#![tactic(auto)]

ghost use Rattle.std.specs.Prelude.{◌≡◌};
ghost use Rattle.test_dates.specs.Days.{is_date_of};

// The first day of -10002 and the last of 10003: the years whose footer changes are looked at.
const FIRST: i32 = -4372683;

const LAST: i32 = 2934357;

// Has the day of this number this weekday (Monday is 0) and this date, its year counted from -10400? Asks the day for its date, and the date for its day.
#[unsafe(no_mangle)]
pub extern "C" fn test_is_date_of(
    number: i32,
    weekday: u32,
    year: u32,
    month: u32,
    day: u32,
) -> bool
    ensures { result ≡ is_date_of number weekday year month day }
{
    if number < FIRST {
        return false;
    }
    if LAST < number {
        return false;
    }
    if civil::weekday_of(number) != weekday {
        return false;
    }
    let d = civil::date_of(number);
    if d.year != year {
        return false;
    }
    if d.month != month {
        return false;
    }
    if d.day != day {
        return false;
    }
    civil::day_number(year, month, day) == number
}
