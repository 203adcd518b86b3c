// The calendar. Days are numbered from 1970-01-01, with a sign, and years counted from -10400. Times of day and weekday sets. Day numbers are added,
// subtracted and compared by the first functions here and nowhere else.
#![tactic(auto)]

ghost use Rattle.std.specs.Prelude.{◌≡◌, ◌+◌, ◌-◌, ◌*◌, ◌/◌, ◌≤◌, ◌<◌, ◌^◌};
ghost use Rattle.model.specs.DayNumber.{signed_day, day_of};
ghost use Rattle.model.specs.Instant.{day_seconds};
ghost use Rattle.model.specs.Calendar.{is_leap, days_before_year, days_in_month, days_before_month, is_date, day_number, weekday, month_of, year_of, date_in, date_of, contains};
ghost use Rattle.laws_calendar.specs.Dates.{leap_day, Has};
ghost use Rattle.laws_calendar.specs.Numbers.{numbered, IsDayNumber, is_before};
ghost use Rattle.civil.specs.Dates.{dated, day_read, time_read, calendar_years, InCalendar};

use instant::{DAY, SECOND};

// A date, its year counted from -10400.
#[derive(Clone, Copy)]
pub struct Date {
    pub year: u32,
    pub month: u32,
    pub day: u32,
}

// The number of -10400-01-01, the first day of the calendar's years. Days are divided as they are counted from it: the division of a negative number
// rounds toward zero.
const START: i32 = -4518050;

// The years of the first and of the last date, -9999 and 9999.
const FIRST_YEAR: u32 = 401;

const LAST_YEAR: u32 = 20399;

// Books write a year in two bytes as a signed number. This is added to a year, as it is counted here, to give that number with 2^15 added.
pub const YEAR_BIAS: u32 = 22368;

// The days of 400 years.
const DAYS_OF_400_YEARS: u32 = 146097;

// The weekday of -10400-01-01, a Saturday.
const FIRST_WEEKDAY: u32 = 5;

// The days that every month has.
const SHORTEST_MONTH: u32 = 28;

// A time of day. Seconds come first, so that the derived order is that of the times.
#[derive(Clone, Copy, PartialEq, Eq, PartialOrd, Ord)]
pub struct Time {
    pub seconds: u32,
    pub nanos: u32,
}

// The days of each month of a common year, and the days before it.
const LENGTHS: [u32; 13] = [0, 31, 28, 31, 30, 31, 30, 31, 31, 30, 31, 30, 31];

const STARTS: [u32; 13] = [0, 0, 31, 59, 90, 120, 151, 181, 212, 243, 273, 304, 334];

// ---- day numbers

// The day n days after a day.
pub fn later(day: i32, n: u32) -> i32
    requires { IsDayNumber day × (day_of day + n < numbered) }
    ensures { result ≡ signed_day (day_of day + n) }
{
    day + n as i32
}

// The day n days before a day.
pub fn earlier(day: i32, n: u32) -> i32
    requires { IsDayNumber day × (n ≤ day_of day) }
    ensures { result ≡ signed_day (day_of day - n) }
{
    day - n as i32
}

// How many days b is after a.
pub fn days_from(a: i32, b: i32) -> u32
    requires { IsDayNumber a × IsDayNumber b × (day_of a ≤ day_of b) }
    ensures { result ≡ day_of b - day_of a }
{
    (b - a) as u32
}

// a is before b.
pub fn precedes(a: i32, b: i32) -> bool
    requires { IsDayNumber a × IsDayNumber b }
    ensures { result ≡ is_before a b }
{
    a < b
}

// How many days there are from the first to the last: none if the last is before the first.
pub fn day_count(first: i32, last: i32) -> u32
    requires { IsDayNumber first × IsDayNumber last }
    ensures { result ≡ day_of last + 1 - day_of first }
{
    if precedes(last, first) {
        return 0;
    }
    days_from(first, last) + 1
}

// The first second of a day. Seconds are counted from -10400-01-01T00:00:00Z.
pub fn midnight(day: i32) -> u64
    requires { IsDayNumber day }
    ensures { result ≡ day_of day * day_seconds }
{
    days_from(START, day) as u64 * DAY
}

// The day of a second.
pub fn day_at(sec: u64) -> i32
    requires { sec < numbered * day_seconds }
    ensures { result ≡ signed_day (sec / day_seconds) }
{
    later(START, (sec / DAY) as u32)
}

// ---- years and months

// The year is a leap year.
#[tactic(auto, unfolding(model::specs::Calendar::is_leap))]
pub fn is_leap(year: u32) -> bool
    ensures { result ≡ is_leap year }
{
    year % 4 == 0 && (year % 100 != 0 || year % 400 == 0)
}

// The first day of a year.
pub fn year_start(year: u32) -> i32
    requires { year ≤ calendar_years + 1 }
    ensures { result ≡ signed_day (days_before_year year) }
{
    later(
        START,
        365 * year + ((year + 3) / 4 + (year + 399) / 400 - (year + 99) / 100),
    )
}

// The days of a month, 1 to 12, in a leap year or a common one.
pub fn days_in_month(leap: bool, month: u32) -> u32
    requires { month ≤ 12 }
    ensures { result ≡ days_in_month leap month }
{
    let m = month as usize;
    if leap {
        if month == 2 {
            return 29;
        }
        return LENGTHS[m];
    }
    LENGTHS[m]
}

// The days of the year before a month.
pub fn days_before_month(leap: bool, month: u32) -> u32
    requires { (1 ≤ month) × (month ≤ 12) }
    ensures { result ≡ days_before_month leap month }
{
    let m = month as usize;
    let n = STARTS[m];
    if leap {
        if 2 < month {
            return n + 1;
        }
        return n;
    }
    n
}

// The weekday of a day: Monday is 0.
pub fn weekday_of(day: i32) -> u32
    requires { IsDayNumber day }
    ensures { result ≡ weekday (day_of day) }
{
    (days_from(START, day) + FIRST_WEEKDAY) % 7
}

// The number of a day that the year has.
pub fn day_number(year: u32, month: u32, day: u32) -> i32
    requires { (year < calendar_years) × Has year month day }
    ensures { result ≡ signed_day (day_number year month day) }
{
    later(
        year_start(year),
        days_before_month(is_leap(year), month) + (day - 1),
    )
}

// The year of a day of the calendar's years: the years of mean length that have passed, or one less.
pub fn year_of(day: i32) -> u32
    requires { InCalendar day }
    ensures { result ≡ year_of (day_of day) }
{
    let e = 400 * (days_from(START, day) + 1) / DAYS_OF_400_YEARS;
    if precedes(day, year_start(e)) {
        return e - 1;
    }
    e
}

// The month of day r, from 0, of a year: March begins on day 59 or 60, and from there on five months have 153 days.
fn month_of(leap: bool, r: u32) -> u32
    requires { r < 365 + leap_day leap }
    ensures { result ≡ month_of leap r }
{
    if leap {
        if r < 60 {
            return r / 31 + 1;
        }
        return ((r - 60) * 5 + 2) / 153 + 3;
    }
    if r < 59 {
        return r / 31 + 1;
    }
    ((r - 59) * 5 + 2) / 153 + 3
}

// The date of day r, from 0, of a year.
fn date_in(year: u32, r: u32) -> Date
    requires { r < 365 + leap_day (is_leap year) }
    ensures { result ≡ dated (date_in year r) }
{
    let leap = is_leap(year);
    let month = month_of(leap, r);
    Date {
        year,
        month,
        day: r - days_before_month(leap, month) + 1,
    }
}

// The date of a day of the calendar's years.
pub fn date_of(day: i32) -> Date
    requires { InCalendar day }
    ensures { result ≡ dated (date_of (day_of day)) }
{
    let year = year_of(day);
    date_in(year, days_from(year_start(year), day))
}

// A date of the years -9999 to 9999. Every month has 28 days: the year is asked only for the days behind them.
pub fn is_date(year: u32, month: u32, day: u32) -> bool
    ensures { result ≡ is_date year month day }
{
    if year < FIRST_YEAR || LAST_YEAR < year || month < 1 || 12 < month || day < 1 {
        return false;
    }
    day <= SHORTEST_MONTH || day <= days_in_month(is_leap(year), month)
}

// The number of a date's day, or none: the numbers are no date.
pub fn day_of(date: Date) -> Option<i32>
    ensures { result ≡ day_read date }
{
    if is_date(date.year, date.month, date.day) {
        return Some(day_number(date.year, date.month, date.day));
    }
    None
}

// A time of day as nanoseconds from midnight, or none: the numbers are no time of day.
#[tactic(auto, unfolding(crate::specs::Dates::time_read))]
pub fn time_of(sec: u32, ns: u32) -> Option<u64>
    ensures { result ≡ time_read sec ns }
{
    let (seconds, nanos) = (u64::from(sec), u64::from(ns));
    if seconds < DAY && nanos < SECOND {
        return Some(seconds * SECOND + nanos);
    }
    None
}

// The number of the weekday Monday.
const MONDAY: u32 = 0;

// The bit of a day in a set: Monday's is bit 0.
fn bit(day: u32) -> u8
    requires { day < 8 }
    ensures { result ≡ 2 ^ day }
{
    1 << (day - MONDAY)
}

// A set has the day.
pub fn contains(set: u8, day: u32) -> bool
    ensures { result ≡ contains set day }
{
    day <= 7 && set & bit(day) != 0
}
