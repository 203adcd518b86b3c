// How many borders of windows in a row pass the skip test, on from an instant or back from it. One test of all: the span from eleven days before
// the first border to eleven days behind the last one lies in the range, no work or break zone changes its offset in it, and no holiday lies among its dates.
#![tactic(auto)]

ghost use Rattle.std.specs.Prelude.{◌≡◌, ◌+◌, ◌*◌, ◌≤◌, ◌<◌, length};
ghost use Rattle.instant.specs.Instant.{nanos, InRange};
ghost use Rattle.model.specs.DayNumber.{day_of};
ghost use Rattle.model.specs.Instant.{last_second};
ghost use Rattle.laws_calendar.specs.Numbers.{IsDayNumber};
ghost use Rattle.book.specs.Meaning.{dates_at};
ghost use Rattle.rule.specs.Rules.{schedule_is, HolidaysFit, ScheduleFits};
ghost use Rattle.walk_skip.specs.Repeating.{is_met, Numbered, Nearer, Nearest, DateAhead, DateBehind, Repeating, HolidayRoom, HolidaysAsked, HolidaysRoom, RulesAsked, RulesRoom, RangeRoom, BorderRoom};

use instant::Instant;
use rule::{HolidayDates, Rule, Schedule};

// The seconds of the days on each side of a border that the skip test asks of.
const MARGIN: u64 = 11 * instant::DAY;

// The first and the last second of a border whose days on each side lie in the range.
const EARLIEST: u64 = instant::FIRST + MARGIN;

const LATEST: u64 = instant::LAST - MARGIN;

// More seconds than the range has.
const UNLIMITED: u64 = 1000000000000;

// The greatest offset of a zone in seconds: 25 h 59 min 59 s.
const OFFSET: u64 = zone_offset::GREATEST_64 - zone_offset::BIAS_64;

// Going on from the date a, or back from it, the date b is met: at a or beyond it.
fn meets(back: bool, a: i32, b: i32) -> bool
    requires { IsDayNumber a × IsDayNumber b }
    ensures { result ≡ is_met back (day_of a) (day_of b) }
{
    if back {
        return !civil::precedes(a, b);
    }
    !civil::precedes(b, a)
}

// The nearer of two dates, going on from the date `from` or back from it: the second counts only where it is met from there.
fn nearer(back: bool, from: i32, near: Option<i32>, date: Option<i32>) -> Option<i32>
    requires { IsDayNumber from × Numbered near × Numbered date }
    ensures { Nearer back (day_of from) near date result }
{
    let Some(d) = date else {
        return near;
    };
    if !meets(back, from, d) {
        return near;
    }
    let Some(n) = near else {
        return date;
    };
    if meets(back, n, d) {
        return near;
    }
    date
}

// The nearest of the n dates at p, going on from the date `from` or back from it.
fn nearest_date(book: &[u8], p: usize, n: usize, back: bool, from: i32) -> Option<i32>
    requires { (p + 4 * n ≤ length book.now) × IsDayNumber from × (0 < day_of from) }
    ensures { Numbered result × Nearest back (day_of from) (dates_at book.now p n) result }
{
    let mut near = None;
    for i in 0..n {
        let date = book_dates::date_at(book, p + i * book_dates::DATE_SIZE);
        near = nearer(back, from, near, date);
    }
    near
}

// How far behind the second hi the date d is not among the dates, where `last` is the last of them: 0 if it is among them at hi.
// The last date lies at most one day behind the local one.
fn days_ahead(d: i32, last: i32, hi: u64) -> u64
    requires { IsDayNumber d × IsDayNumber last × (hi ≤ last_second) }
    ensures { DateAhead (day_of d) (day_of last) hi result }
{
    if !civil::precedes(last, d) {
        return 0;
    }
    let start = civil::midnight(d);
    let end = hi + OFFSET + instant::DAY;
    if end < start {
        return start - end;
    }
    1
}

// How far before the second lo the date d is not among the dates, where `first` is the first of them: 0 if it is among them at lo.
// The first date lies at most two days before the local one.
fn days_behind(d: i32, first: i32, lo: u64) -> u64
    requires { IsDayNumber d × IsDayNumber first × (lo ≤ last_second) }
    ensures { DateBehind (day_of d) (day_of first) lo result }
{
    if !civil::precedes(d, first) {
        return 0;
    }
    let end = civil::midnight(d) + 3 * instant::DAY + OFFSET;
    if end <= lo {
        return lo - end + 1;
    }
    1
}

// How far the span from a to b may be widened before a date of the record is among its dates: 0 if one is already. Back, without a date, it may be
// widened as far as the range goes.
fn holiday_room(
    book: &[u8],
    pack: &[u8],
    h: HolidayDates,
    back: bool,
    a: Instant,
    b: Instant,
) -> u64
    requires { HolidaysFit book.now pack.now h × InRange a × InRange b }
    ensures { HolidayRoom book.now pack.now h back a b result }
{
    let z = h.zone;
    let f = big_endian::part(pack, h.at, h.len);
    let first = zone_local::first_date(f, z, a);
    let last = zone_local::last_date(f, z, b);
    if back {
        let Some(d) = nearest_date(book, h.dates, h.count, true, last) else {
            return a.sec - instant::FIRST + 1;
        };
        return days_behind(d, first, a.sec);
    }
    let Some(d) = nearest_date(book, h.dates, h.count, false, first) else {
        return UNLIMITED;
    };
    days_ahead(d, last, b.sec)
}

// How far the span from a to b may be widened before a date of one of the records is among its dates.
fn holidays_room(
    book: &[u8],
    pack: &[u8],
    closed: &[HolidayDates],
    back: bool,
    a: Instant,
    b: Instant,
) -> u64
    requires { HolidaysAsked book.now pack.now closed.now a b }
    ensures { HolidaysRoom book.now pack.now closed.now back a b result }
{
    let mut room = UNLIMITED;
    for h in closed {
        let m = holiday_room(book, pack, *h, back, a, b);
        if m == 0 {
            return 0;
        }
        room = room.min(m);
    }
    room
}

// How far the span from a to b may be widened before one of the rules changes its offset in it: 0 if one does already.
fn rules_room(pack: &[u8], rules: &[Rule], back: bool, a: Instant, b: Instant) -> u64
    requires { RulesAsked pack.now rules.now a b }
    ensures { RulesRoom pack.now rules.now back a b result }
{
    let mut room = UNLIMITED;
    for r in rules {
        let f = big_endian::part(pack, r.at, r.len);
        let m = zone_steady::room(f, r.zone, back, a.sec, b.sec);
        if m == 0 {
            return 0;
        }
        room = room.min(m);
    }
    room
}

// How far beyond t the eleven days on each side lie in the range: 0 if they do not at t.
fn in_range(t: Instant, back: bool) -> u64
    requires { InRange t }
    ensures { RangeRoom back t result }
{
    if t.sec < EARLIEST {
        return 0;
    }
    if LATEST < t.sec {
        return 0;
    }
    if back {
        return t.sec - EARLIEST + 1;
    }
    LATEST - t.sec + 1
}

// How far beyond the border t the skip test passes: 0 if it does not at t.
fn room(book: &[u8], pack: &[u8], s: Schedule, t: Instant, back: bool) -> u64
    requires { ScheduleFits book.now pack.now s × InRange t }
    ensures { BorderRoom book.now pack.now s back t result }
{
    let m = in_range(t, back);
    if m == 0 {
        return 0;
    }
    let a = Instant {
        sec: t.sec - MARGIN,
        ns: t.ns,
    };
    let b = Instant {
        sec: t.sec + MARGIN,
        ns: t.ns,
    };
    let w = rules_room(pack, &s.work[..s.works], back, a, b);
    if w == 0 {
        return 0;
    }
    let p = rules_room(pack, &s.breaks[..s.pauses], back, a, b);
    if p == 0 {
        return 0;
    }
    let c = holidays_room(book, pack, &s.closed[..s.closings], back, a, b);
    m.min(w).min(p.min(c))
}

// How many borders in a row repeat, t the first of them: the two windows at each hold the same, a week apart. There may be more.
pub fn borders(book: &[u8], pack: &[u8], s: Schedule, t: Instant, back: bool) -> u64
    requires { ScheduleFits book.now pack.now s × InRange t }
    ensures { Repeating back (schedule_is book.now pack.now s) (nanos t) result }
{
    (room(book, pack, s, t, back) + instant::WEEK - 1) / instant::WEEK
}
