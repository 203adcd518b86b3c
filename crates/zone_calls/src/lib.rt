// A zone file's calls for one who has its bytes and nothing else: the offset at an instant, the next change of the offset after an instant, and the
// instant of a local time. Instants are pairs of signed numbers, seconds from 1970 and nanoseconds. Each call opens the file, checks what it is given and
// answers for all of it: 5 is a file that is not usable, 8 an instant, a date or a time of day that there is not. There is no book: the place is 0.
#![tactic(auto)]

ghost use Rattle.std.specs.Prelude.{◌≡◌, min};
ghost use Rattle.model.specs.ZoneCalls as definition;
ghost use Rattle.model.specs.Marks as marks;
ghost use Rattle.refusal.specs.Answered.{answer_of};
ghost use Rattle.zone_calls.specs.Answers.{offset_number, change_numbers, resolved_numbers};
ghost use Rattle.zone_calls.specs.Given.{year_after, clipped_to, day_answer};

use civil::{Date, Time};
use instant::Instant;
use instant_signed::SignedInstant;
use mark::Mark;
use refusal::{Refusal, Refused};

// The year 0 counted from -10400.
const YEAR_ZERO: i64 = 10400;

// The first month, day, second of a day and nanosecond that there is not.
const MONTH_AFTER: u32 = 13;

const DAY_AFTER: u32 = 32;

const SECOND_AFTER: u32 = instant::DAY as u32;

const NANOSECOND_AFTER: u32 = instant::SECOND as u32;

// ---- the offset at an instant

// Seconds east of Greenwich, of an offset as zones keep it.
#[tactic(auto, unfolding(model::specs::ZoneCalls::east))]
fn east(offset: u32) -> i64
    ensures { result ≡ definition.east offset }
{
    i64::from(offset) - zone_offset::BIAS_64 as i64
}

// The offset at an instant, in seconds east of Greenwich.
pub fn offset_in(file: &[u8], sec: i64, ns: i64) -> Result<i64, Refused>
    ensures { answer_of offset_number result ≡ definition.offset_call file.now sec ns }
{
    let z = zone::open(file).ok_or(Refusal::ZoneUnusable)?;
    let t = instant_signed::instant_of(sec, ns).ok_or(Refusal::InstantOutOfRange)?;
    Ok(east(zone::run_at(file, z, t.sec).offset))
}

// ---- the next change of the offset

// The next change of the offset after an instant; none where the offset stays up to the range's end.
pub fn next_change_in(file: &[u8], sec: i64, ns: i64) -> Result<Option<SignedInstant>, Refused>
    ensures { answer_of change_numbers result ≡ definition.change_call file.now sec ns }
{
    let zone = zone::open(file).ok_or(Refusal::ZoneUnusable)?;
    let t = instant_signed::instant_of(sec, ns).ok_or(Refusal::InstantOutOfRange)?;
    let Some(sec) = zone_next_change::next_change(file, zone, t.sec) else {
        return Ok(None);
    };
    Ok(Some(instant_signed::signed_instant(Instant { sec, ns: 0 })))
}

// ---- the instant of a local time

// The instant of a local time, and its mark: whether it is plain, repeated, skipped or beyond the range.
#[derive(Clone, Copy, PartialEq, Eq)]
pub struct ResolvedTime {
    pub at: SignedInstant,
    pub mark: Mark,
}

// x, and the cap where x is below 0 or beyond the cap.
#[tactic(auto, unfolding(crate::specs::Given::clipped_to))]
fn capped(x: i64, cap: u32) -> u32
    ensures { result ≡ clipped_to x cap }
{
    u32::try_from(x).unwrap_or(cap).min(cap)
}

// A year counted from -10400; 0 for all before, and 20,800 for all from 10400 on.
fn year_from(year: i64) -> u32
    ensures { result ≡ min (definition.year_from year) year_after }
{
    (year.clamp(-YEAR_ZERO, YEAR_ZERO) + YEAR_ZERO) as u32
}

// The number of a date's day. There is no month 13 and no day 32.
fn day_given(year: i64, month: i64, day: i64) -> Option<i32>
    ensures { day_answer result ≡ definition.day_given year month day }
{
    civil::day_of(Date {
        year: year_from(year),
        month: capped(month, MONTH_AFTER),
        day: capped(day, DAY_AFTER),
    })
}

// The instant of a local time (a date, and a second and nanoseconds of its day) with its mark.
pub fn resolve_in(
    file: &[u8],
    year: i64,
    month: i64,
    day: i64,
    second: i64,
    ns: i64,
) -> Result<ResolvedTime, Refused>
    ensures { answer_of resolved_numbers result ≡ marks.resolve_marked_call file.now year month day second ns }
{
    let zone = zone::open(file).ok_or(Refusal::ZoneUnusable)?;
    let d = day_given(year, month, day).ok_or(Refusal::InstantOutOfRange)?;
    let time = Time {
        seconds: capped(second, SECOND_AFTER),
        nanos: capped(ns, NANOSECOND_AFTER),
    };
    civil::time_of(time.seconds, time.nanos).ok_or(Refusal::InstantOutOfRange)?;
    let marked = zone_local::resolve_marked(file, zone, d, time);
    Ok(ResolvedTime {
        at: instant_signed::signed_instant(marked.at),
        mark: marked.mark,
    })
}
