// One date in a zone: the local date at an instant, the first and last date of a window, the instant of a time of day on a date, and the block
// that a rule takes of a date. f is the zone's file.
#![tactic(auto)]

ghost use Rattle.std.specs.Prelude.{◌≡◌, false, ◌/◌, ◌≤◌, ltb};
ghost use Rattle.instant.specs.Instant.{nanos, InRange};
ghost use Rattle.model.specs.Instant.{second};
ghost use Rattle.model.specs.Offset.{greatest_offset};
ghost use Rattle.model.specs.DayNumber.{signed_day, day_of};
ghost use Rattle.model.specs.Zone as model;
ghost use Rattle.model.specs.Working.{local_day, first_date, last_date, end_of};
ghost use Rattle.laws_calendar.specs.Numbers.{IsDayNumber};
ghost use Rattle.civil.specs.Dates.{time_in, TimeFits};
ghost use Rattle.zone.specs.Zones.{zone_is, ZoneOk};
ghost use Rattle.zone_local.specs.Dates.{IsDay, range_end, rule_of, AskedDate, IsTaken, IsResolved, IsEnd, TouchAsked, Apart, till_time, piece_of, held, KeepsOffset, IsTakenBy, AskedPiece};

use block::Block;
use civil::Time;
use instant::Instant;
use mark::Mark;
use zone::Zone;
use zone_tzif::OffsetBounds;

// The numbers of the third and the last of the dates, and of the first of the year 0.
const THIRD_DAY: i32 = -4371585;

const LAST_DAY: i32 = 2932896;

const DAY_OF_YEAR_ZERO: i32 = -719528;

// The first and the last instant.
const FIRST_INSTANT: Instant = Instant {
    sec: instant::FIRST,
    ns: 0,
};

const LAST_INSTANT: Instant = Instant {
    sec: instant::LAST,
    ns: instant::LAST_NS,
};

// Four days in seconds, the first second that they lie before, and the last that they lie behind.
const FOUR_DAYS: u64 = 4 * instant::DAY;

const FIRST_KEPT: u64 = instant::FIRST + FOUR_DAYS;

const LAST_KEPT: u64 = instant::LAST - FOUR_DAYS;

// The local date at t.
fn local_day(f: &[u8], z: Zone, t: Instant) -> i32
    requires { ZoneOk f.now z × InRange t }
    ensures { (result ≡ signed_day (local_day (zone_is f.now z) (nanos t))) × IsDayNumber result }
{
    let run = zone::run_at(f, z, t.sec);
    civil::day_at(t.sec + run.offset as u64 - zone_offset::BIAS_64)
}

// The first of a window's dates, two before the local date at its start lo.
pub fn first_date(f: &[u8], z: Zone, lo: Instant) -> i32
    requires { ZoneOk f.now z × InRange lo }
    ensures { result ≡ signed_day (first_date (zone_is f.now z) (nanos lo)) }
{
    let d = local_day(f, z, lo);
    if civil::precedes(d, THIRD_DAY) {
        return d;
    }
    civil::earlier(d, 2)
}

// The last of a window's dates, one after the local date at its end hi.
pub fn last_date(f: &[u8], z: Zone, hi: Instant) -> i32
    requires { ZoneOk f.now z × InRange hi }
    ensures { result ≡ signed_day (last_date (zone_is f.now z) (nanos hi)) }
{
    let d = local_day(f, z, hi);
    if civil::precedes(d, LAST_DAY) {
        return civil::later(d, 1);
    }
    d
}

// The end of the range that a local time beyond it becomes: the first instant for negative years, else the last.
fn range_end(day: i32) -> Instant
    requires { IsDayNumber day }
    ensures { (nanos result ≡ range_end (day_of day)) × InRange result }
{
    if civil::precedes(day, DAY_OF_YEAR_ZERO) {
        return FIRST_INSTANT;
    }
    LAST_INSTANT
}

// The instant of a time of day on a date.
pub fn resolve(f: &[u8], z: Zone, day: i32, time: Time) -> Instant
    requires { ZoneOk f.now z × IsDay (day_of day) × TimeFits time }
    ensures { (nanos result ≡ model.resolve (zone_is f.now z) (day_of day) (time_in time)) × InRange result }
{
    let s = zone::second_of(
        f,
        z,
        civil::midnight(day) + time.seconds as u64 + zone_offset::BIAS_64,
    );
    if s < instant::FIRST || instant::LAST < s {
        return range_end(day);
    }
    Instant {
        sec: s,
        ns: time.nanos,
    }
}

// a is before b.
fn is_before(a: Time, b: Time) -> bool
    requires { TimeFits a × TimeFits b }
    ensures { result ≡ ltb (time_in a) (time_in b) }
{
    a < b
}

// Where that which a rule takes of a date ends: on the next date if `to` is at or before `from`, and at the last instant where there is no next date.
pub fn end_of(f: &[u8], z: Zone, from: Time, to: Time, day: i32) -> Instant
    requires { AskedDate f.now z (day_of day) from to }
    ensures { nanos result ≡ end_of (rule_of f.now z from to) (day_of day) }
{
    if is_before(from, to) {
        return resolve(f, z, day, to);
    }
    if civil::precedes(day, LAST_DAY) {
        return resolve(f, z, civil::later(day, 1), to);
    }
    LAST_INSTANT
}

// An instant with the mark of the local time that became it.
#[derive(Clone, Copy)]
pub struct MarkedInstant {
    pub at: Instant,
    pub mark: Mark,
}

// The instant of a time of day on a date and its mark: whether no second, one or more than one reads it, or it lies beyond the range.
// `resolve` and `end_of` stay beside this and `end_marked`: a mark costs further looks into the zone's runs, which a caller that wants none does not pay.
pub fn resolve_marked(f: &[u8], z: Zone, day: i32, time: Time) -> MarkedInstant
    requires { ZoneOk f.now z × IsDay (day_of day) × TimeFits time }
    ensures { IsResolved (zone_is f.now z) (day_of day) (time_in time) result }
{
    let x = civil::midnight(day) + time.seconds as u64 + zone_offset::BIAS_64;
    let second = zone::second_of(f, z, x);
    if second < instant::FIRST || instant::LAST < second {
        return MarkedInstant {
            at: range_end(day),
            mark: Mark::Beyond,
        };
    }
    let m = zone::mark_of(f, z, x, second);
    let at = Instant {
        sec: second,
        ns: time.nanos,
    };
    MarkedInstant { at, mark: m }
}

// `end_of` with its mark. An end that lacks a next date is beyond the range.
pub fn end_marked(f: &[u8], z: Zone, from: Time, to: Time, day: i32) -> MarkedInstant
    requires { AskedDate f.now z (day_of day) from to }
    ensures { IsEnd (rule_of f.now z from to) (day_of day) result }
{
    if is_before(from, to) {
        return resolve_marked(f, z, day, to);
    }
    if civil::precedes(day, LAST_DAY) {
        return resolve_marked(f, z, civil::later(day, 1), to);
    }
    let at = LAST_INSTANT;
    MarkedInstant {
        at,
        mark: Mark::Beyond,
    }
}

// The second of the end's time of day, counted from the start's date.
fn till_second(from: Time, to: Time) -> u64
    requires { TimeFits from × TimeFits to }
    ensures { result ≡ till_time (time_in from) (time_in to) / second }
{
    if is_before(from, to) {
        return to.seconds as u64;
    }
    to.seconds as u64 + instant::DAY
}

// May that which a rule takes of a date hold or touch an instant from a to b? Not if it starts behind b even by the zone's greatest offset, or ends before a
// even by its least.
pub fn may_touch(
    bounds: OffsetBounds,
    from: Time,
    to: Time,
    day: i32,
    a: Instant,
    b: Instant,
) -> bool
    requires { TouchAsked bounds from to (day_of day) a b }
    ensures { result ≡ false → Apart bounds from to (day_of day) a b }
{
    let base = civil::midnight(day) + zone_offset::BIAS_64;
    base + from.seconds as u64 <= b.sec + bounds.greatest
        && a.sec + bounds.least <= base + till_second(from, to)
}

// What a rule takes of a date.
pub fn block_on(f: &[u8], z: Zone, from: Time, to: Time, day: i32) -> Block
    requires { AskedDate f.now z (day_of day) from to }
    ensures { IsTaken (rule_of f.now z from to) (day_of day) result }
{
    let start = resolve(f, z, day, from);
    let end = end_of(f, z, from, to, day);
    Block { start, end }
}

// What a rule shows of a date in the window [lo, hi). It may hold nothing.
pub fn piece_on(
    f: &[u8],
    z: Zone,
    from: Time,
    to: Time,
    day: i32,
    lo: Instant,
    hi: Instant,
) -> Block
    requires { AskedDate f.now z (day_of day) from to }
    ensures { held result ≡ piece_of (rule_of f.now z from to) (nanos lo) (nanos hi) (day_of day) }
{
    block::clip(block_on(f, z, from, to, day), lo, hi)
}

// ---- with one offset

// The offset that the zone keeps from four days before the window to four days after it, if it is seen to keep one; else 0.
pub fn one_offset(f: &[u8], z: Zone, lo: Instant, hi: Instant) -> u32
    requires { ZoneOk f.now z × InRange lo × InRange hi }
    ensures { KeepsOffset (zone_is f.now z) (nanos lo) (nanos hi) result }
{
    if lo.sec < FIRST_KEPT || LAST_KEPT < hi.sec {
        return 0;
    }
    let run = zone::run_at(f, z, lo.sec - FOUR_DAYS);
    if hi.sec + FOUR_DAYS < run.until {
        return run.offset;
    }
    0
}

// What a rule takes of a date, by the offset o: the local times less the offset.
fn plain_block(o: u32, from: Time, to: Time, day: i32) -> Block
    requires { (o ≤ greatest_offset) × IsDay (day_of day) × TimeFits from × TimeFits to }
    ensures { IsTakenBy o from to (day_of day) result }
{
    let base = civil::midnight(day) + zone_offset::BIAS_64 - o as u64;
    let start = Instant {
        sec: base + from.seconds as u64,
        ns: from.nanos,
    };
    if is_before(from, to) {
        let end = Instant {
            sec: base + to.seconds as u64,
            ns: to.nanos,
        };
        return Block { start, end };
    }
    let end = Instant {
        sec: base + instant::DAY + to.seconds as u64,
        ns: to.nanos,
    };
    Block { start, end }
}

// What a rule shows of a date of the window, by the offset o if there is one.
pub fn piece_by(
    f: &[u8],
    z: Zone,
    o: u32,
    from: Time,
    to: Time,
    day: i32,
    lo: Instant,
    hi: Instant,
) -> Block
    requires { AskedPiece f.now z o from to (day_of day) lo hi }
    ensures { held result ≡ piece_of (rule_of f.now z from to) (nanos lo) (nanos hi) (day_of day) }
{
    if o == 0 {
        return piece_on(f, z, from, to, day, lo, hi);
    }
    block::clip(plain_block(o, from, to, day), lo, hi)
}
