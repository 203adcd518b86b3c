// The marks of a window's blocks: of the one that starts at an instant and of the one that ends at an instant. Of each record the whole marked blocks of the
// window's dates that may touch one of the two are filled into a list, date by date; what these show around the two gives the marks. Nothing is sorted, merged or cut.
#![tactic(auto)]

ghost use Rattle.std.specs.Prelude.{◌≡◌, true, ◌+◌, ◌*◌, ◌≤◌, eqb, length, map};
ghost use Rattle.model.specs.Basic.{among};
ghost use Rattle.model.specs.DayNumber.{day_of};
ghost use Rattle.model.specs.Marks.{whole_on};
ghost use Rattle.model.specs.Working.{holiday_rule};
ghost use Rattle.laws_base.specs.Every.{Every};
ghost use Rattle.laws_marks.specs.Plain.{SteadyIn};
ghost use Rattle.instant.specs.Instant.{nanos, InRange};
ghost use Rattle.mark.specs.Marks.{mark_number};
ghost use Rattle.zone_local.specs.Dates.{IsDay, rule_of, AskedDate, TouchAsked};
ghost use Rattle.book_dates.specs.Days.{day_at, dates_at};
ghost use Rattle.rule.specs.Rules.{rule_is, holidays_is, schedule_is, RuleFits, HolidaysFit, ScheduleFits};
ghost use Rattle.window_marks.specs.Whole.{held_marked, on_is, any_rule_is, of_shift, of_holidays, DatesFit, AnyRuleFits, Spans, NearDate, NearBlocks, SameWindow, BordersAsked, RuleSides, RulesSides, MarksWanted, IsMarks, start_within, end_within, SteadyWhere};

use block_marked::{MarkedBlock, MarkedBlocks, Sides};
use civil::Time;
use instant::Instant;
use mark::Mark;
use rule::{HolidayDates, Rule, Schedule};
use zone::Zone;
use zone_tzif::OffsetBounds;

// Which dates a rule takes: those of a set of weekdays, or those that are written in the book, by the place of the first and their number.
#[derive(Clone, Copy)]
pub enum Dates {
    Weekdays(u8),
    Written(usize, usize),
}

// The rule of a work, break or holiday record: where its zone's file stands in the pack, and the file's length; its zone, its times of day and its dates.
#[derive(Clone, Copy)]
pub struct AnyRule {
    pub at: usize,
    pub len: usize,
    pub zone: Zone,
    pub from: Time,
    pub to: Time,
    pub dates: Dates,
}

// A period's start or end: an instant, and the window [lo, hi) in which a block has it.
#[derive(Clone, Copy)]
pub struct Border {
    pub at: Instant,
    pub lo: Instant,
    pub hi: Instant,
}

// The marks of a start and of an end.
#[derive(Clone, Copy)]
pub struct Marks {
    pub start: Mark,
    pub end: Mark,
}

// ---- rules of records

// That of a work or break record.
fn of_shift(r: Rule) -> AnyRule
    ensures { result ≡ of_shift r }
{
    AnyRule {
        at: r.at,
        len: r.len,
        zone: r.zone,
        from: r.from,
        to: r.to,
        dates: Dates::Weekdays(r.days),
    }
}

// That of a holiday record, which takes the whole of its dates.
fn of_holidays(c: HolidayDates) -> AnyRule
    ensures { result ≡ of_holidays c }
{
    let midnight = Time {
        seconds: 0,
        nanos: 0,
    };
    AnyRule {
        at: c.at,
        len: c.len,
        zone: c.zone,
        from: midnight,
        to: midnight,
        dates: Dates::Written(c.dates, c.count),
    }
}

// ---- one date

// What a rule takes of a date, whole, if it holds anything.
fn whole_on(f: &[u8], z: Zone, from: Time, to: Time, day: i32) -> Option<MarkedBlock>
    requires { AskedDate f.now z (day_of day) from to }
    ensures { held_marked result ≡ whole_on (rule_of f.now z from to) (day_of day) }
{
    let start = zone_local::resolve_marked(f, z, day, from);
    let end = zone_local::end_marked(f, z, from, to, day);
    if instant::precedes(start.at, end.at) {
        Some(MarkedBlock {
            start: start.at,
            end: end.at,
            start_mark: start.mark,
            end_mark: end.mark,
        })
    } else {
        None
    }
}

// Is the day the date that is written at p?
fn is_day_at(book: &[u8], p: usize, day: i32) -> bool
    requires { (p + 4 ≤ length book.now) × IsDay (day_of day) }
    ensures { result ≡ eqb (day_of day) (day_at book.now p) }
{
    let Some(d) = book_dates::date_at(book, p) else {
        return false;
    };
    if civil::precedes(d, day) {
        return false;
    }
    if civil::precedes(day, d) {
        return false;
    }
    true
}

// Is the day one of the n dates that are written from p on?
fn has_day(book: &[u8], p: usize, n: usize, day: i32) -> bool
    requires { (p + 4 * n ≤ length book.now) × IsDay (day_of day) }
    ensures { result ≡ among (dates_at book.now p n) (day_of day) }
{
    for i in 0..n {
        if is_day_at(book, p + book_dates::DATE_SIZE * i, day) {
            return true;
        }
    }
    false
}

// Is the day one of the dates?
fn is_on(book: &[u8], dates: Dates, day: i32) -> bool
    requires { DatesFit book.now dates × IsDay (day_of day) }
    ensures { result ≡ on_is book.now dates (day_of day) }
{
    match dates {
        Dates::Weekdays(set) => rule::applies(set, day),
        Dates::Written(p, n) => has_day(book, p, n, day),
    }
}

// Is the day one of the dates, and may that which is taken of it touch an instant from a to b?
fn is_near(
    book: &[u8],
    dates: Dates,
    bounds: OffsetBounds,
    from: Time,
    to: Time,
    day: i32,
    a: Instant,
    b: Instant,
) -> bool
    requires { DatesFit book.now dates × TouchAsked bounds from to (day_of day) a b }
    ensures { NearDate book.now dates bounds from to (day_of day) a b result }
{
    zone_local::may_touch(bounds, from, to, day, a, b) && is_on(book, dates, day)
}

// ---- the list of a rule

// The whole marked blocks of the rule's dates that the window has, without some that touch no instant from a to b.
fn blocks_near(
    book: &[u8],
    pack: &[u8],
    x: AnyRule,
    lo: Instant,
    hi: Instant,
    a: Instant,
    b: Instant,
) -> MarkedBlocks
    requires { AnyRuleFits book.now pack.now x × Spans lo hi a b }
    ensures { NearBlocks (any_rule_is book.now pack.now x) lo hi a b result }
{
    let z = x.zone;
    let from = x.from;
    let to = x.to;
    let dates = x.dates;
    let f = big_endian::part(pack, x.at, x.len);
    let bounds = zone::bounds_of(f, z);
    let days = window_dates::local_dates(pack, x.at, x.len, z, lo, hi);
    let first = days.first;
    let count = civil::day_count(first, days.last);
    let mut out = block_marked::empty_marked();
    for k in 0..count {
        let d = civil::later(first, k);
        if is_near(book, dates, bounds, from, to, d, a, b) {
            if let Some(y) = whole_on(f, z, from, to, d) {
                out.items[out.len] = y;
                out.len += 1;
            }
        }
    }
    out
}

// ---- around a start and an end

// Do two ends lie in one window?
fn same_window(a: Border, b: Border) -> bool
    ensures { result ≡ true → SameWindow a b }
{
    a.lo.sec == b.lo.sec && a.lo.ns == b.lo.ns && a.hi.sec == b.hi.sec && a.hi.ns == b.hi.ns
}

// What the rule shows around the start a and around the end b, each in its window. For both ends in one window one list is made.
fn rule_sides(book: &[u8], pack: &[u8], x: AnyRule, a: Border, b: Border) -> Sides
    requires { AnyRuleFits book.now pack.now x × BordersAsked a b }
    ensures { RuleSides (any_rule_is book.now pack.now x) a b result }
{
    if same_window(a, b) {
        let l = blocks_near(book, pack, x, a.lo, a.hi, a.at, b.at);
        return block_marked::shown_at(&l.items[..l.len], a.at, b.at);
    }
    let l = blocks_near(book, pack, x, a.lo, a.hi, a.at, a.at);
    let start = block_marked::shown_around(&l.items[..l.len], a.at);
    let m = blocks_near(book, pack, x, b.lo, b.hi, b.at, b.at);
    let end = block_marked::shown_around(&m.items[..m.len], b.at);
    Sides { start, end }
}

// What work or break rules show around a and around b.
fn shift_sides(book: &[u8], pack: &[u8], rules: &[Rule], a: Border, b: Border) -> Sides
    requires { Every (RuleFits pack.now) rules.now × BordersAsked a b }
    ensures { RulesSides (map (rule_is pack.now) rules.now) a b result }
{
    let mut sides = block_marked::no_sides();
    for r in rules {
        sides = block_marked::both_sides(sides, rule_sides(book, pack, of_shift(*r), a, b));
    }
    sides
}

// What holiday records show around a and around b.
fn holiday_sides(book: &[u8], pack: &[u8], closed: &[HolidayDates], a: Border, b: Border) -> Sides
    requires { Every (HolidaysFit book.now pack.now) closed.now × BordersAsked a b }
    ensures { RulesSides (map holiday_rule (map (holidays_is book.now pack.now) closed.now)) a b result }
{
    let mut sides = block_marked::no_sides();
    for c in closed {
        sides = block_marked::both_sides(sides, rule_sides(book, pack, of_holidays(*c), a, b));
    }
    sides
}

// ---- where zones keep one offset around an instant: every mark there is plain

// Does the zone of each work or break rule keep one offset from four days before the instant a to four days after the instant b?
fn are_shifts_steady(pack: &[u8], rules: &[Rule], a: Instant, b: Instant) -> bool
    requires { Every (RuleFits pack.now) rules.now × InRange a × InRange b }
    ensures { result ≡ true → Every (SteadyIn (nanos a) (nanos b)) (map (rule_is pack.now) rules.now) }
{
    for r in rules {
        if zone_local::one_offset(big_endian::part(pack, r.at, r.len), r.zone, a, b) == 0 {
            return false;
        }
    }
    true
}

// Does that of each holiday record?
fn are_holidays_steady(
    book: &[u8],
    pack: &[u8],
    closed: &[HolidayDates],
    a: Instant,
    b: Instant,
) -> bool
    requires { Every (HolidaysFit book.now pack.now) closed.now × InRange a × InRange b }
    ensures { result ≡ true → Every (SteadyIn (nanos a) (nanos b)) (map holiday_rule (map (holidays_is book.now pack.now) closed.now)) }
{
    for c in closed {
        if zone_local::one_offset(big_endian::part(pack, c.at, c.len), c.zone, a, b) == 0 {
            return false;
        }
    }
    true
}

// Does every zone of the schedule?
pub fn is_steady(book: &[u8], pack: &[u8], s: Schedule, a: Instant, b: Instant) -> bool
    requires { ScheduleFits book.now pack.now s × InRange a × InRange b }
    ensures { SteadyWhere (nanos a) (nanos b) (schedule_is book.now pack.now s) result }
{
    are_shifts_steady(pack, &s.work[..s.works], a, b)
        && are_shifts_steady(pack, &s.breaks[..s.pauses], a, b)
        && are_holidays_steady(book, pack, &s.closed[..s.closings], a, b)
}

// ---- the marks of a start and an end

// The mark of the start a, by what work and what breaks with holidays show there; plain where it lies outside its window.
fn start_within(work: Sides, off: Sides, a: Border) -> Mark
    ensures { mark_number result ≡ start_within work off a }
{
    if instant::precedes(a.at, a.lo) || !instant::precedes(a.at, a.hi) {
        Mark::Plain
    } else {
        block_marked::start_by(work.start, off.start)
    }
}

// The mark of the end b, its mirror image.
fn end_within(work: Sides, off: Sides, b: Border) -> Mark
    ensures { mark_number result ≡ end_within work off b }
{
    if instant::precedes(b.hi, b.at) || !instant::precedes(b.lo, b.at) {
        Mark::Plain
    } else {
        block_marked::end_by(work.end, off.end)
    }
}

// The marks of the block that starts at a in a's window and of the one that ends at b in b's; plain where none does.
pub fn edge_marks(book: &[u8], pack: &[u8], s: Schedule, a: Border, b: Border) -> Marks
    requires { ScheduleFits book.now pack.now s × MarksWanted a b }
    ensures { IsMarks (schedule_is book.now pack.now s) a b result }
{
    let work = shift_sides(book, pack, &s.work[..s.works], a, b);
    let pauses = shift_sides(book, pack, &s.breaks[..s.pauses], a, b);
    let closed = holiday_sides(book, pack, &s.closed[..s.closings], a, b);
    let off = block_marked::both_sides(pauses, closed);
    Marks {
        start: start_within(work, off, a),
        end: end_within(work, off, b),
    }
}
