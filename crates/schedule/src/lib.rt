// The calls on the bytes of a rule book and a zone pack: the working time between two instants, and the instant that is a duration of working time
// after another or before it. Instants and durations are pairs of signed numbers, seconds and nanoseconds.
// Book and pack are lent as `&[u8]`: no function can change what lies behind such a reference, so no clause here speaks of them afterwards.
#![tactic(auto)]

ghost use Rattle.std.specs.Prelude.{◌≡◌, ◌^◌, ◌≤◌, ◌<◌};
ghost use Rattle.model.specs.Calls as model;
ghost use Rattle.model.specs.Walk as way;
ghost use Rattle.instant.specs.Instant.{nanos, most, Exact, InRange};
ghost use Rattle.rule.specs.Rules.{ScheduleFits};
ghost use Rattle.walk_distance.specs.Distances.{way_of, Short};
ghost use Rattle.schedule.specs.Answers.{values_of, lasting, between_in, moved_in, move_in, move_of, instant_at, CountedAs};

use instant::{Instant, Length};
use instant_signed::Duration;
use refusal::{Refusal, Refused};
use rule::Schedule;
use walk_between::Summed;
use walk_search::Reached;

// What a call answers: a duration or an instant, in seconds and nanoseconds, and the number of windows resolved.
#[derive(Clone, Copy)]
pub struct Counted {
    pub secs: i64,
    pub nanos: i64,
    pub windows: u64,
}

// ---- the working time between two instants

// A sum of working time as a duration, negative where the instants were turned round.
fn time_answer(minus: bool, r: Summed) -> Counted
    requires { (r.time.sec < 2 ^ 63) × Exact r.time }
    ensures { (values_of result ≡ lasting minus (nanos r.time)) × (result.windows ≡ r.windows) }
{
    let d = instant_signed::pair(minus, r.time.sec, r.time.ns);
    Counted {
        secs: d.secs,
        nanos: d.nanos,
        windows: r.windows,
    }
}

// The working time from the instant a to the instant b, of a schedule that was built before. There is one call of the walk for both directions, so that the
// compiler can put it in here and the schedule is copied once less.
pub fn between_in(
    book: &[u8],
    pack: &[u8],
    s: Schedule,
    a_sec: i64,
    a_ns: i64,
    b_sec: i64,
    b_ns: i64,
) -> Result<Counted, Refused>
    requires { ScheduleFits book.now pack.now s }
    ensures { CountedAs result (between_in book.now pack.now s a_sec a_ns b_sec b_ns) }
{
    let a = instant_signed::instant_of(a_sec, a_ns).ok_or(Refusal::InstantOutOfRange)?;
    let b = instant_signed::instant_of(b_sec, b_ns).ok_or(Refusal::InstantOutOfRange)?;
    let minus = instant::precedes(b, a);
    let mut lo = a;
    let mut hi = b;
    if minus {
        lo = b;
        hi = a;
    }
    Ok(time_answer(minus, walk_between::between(book, pack, s, lo, hi)))
}

// The working time from the instant a to the instant b.
pub fn between(
    book: &[u8],
    pack: &[u8],
    a_sec: i64,
    a_ns: i64,
    b_sec: i64,
    b_ns: i64,
) -> Result<Counted, Refused>
    ensures { CountedAs result (model.between book.now pack.now a_sec a_ns b_sec b_ns) }
{
    // Not by `?`: that copies the schedule.
    match build::build(book, pack) {
        Ok(s) => between_in(book, pack, s, a_sec, a_ns, b_sec, b_ns),
        Err(refused) => Err(refused),
    }
}

// ---- an instant moved by working time

// The instant that a search from t found, on or back.
fn moved_to(t: Instant, back: bool, found: Reached) -> Counted
    requires { InRange t × Short found.distance × (nanos found.distance ≤ way.reach (way_of back) (nanos t)) }
    ensures { (values_of result ≡ instant_at back (nanos t) (nanos found.distance)) × (result.windows ≡ found.windows) }
{
    let u = walk_distance::at(t, back, found.distance);
    Counted {
        secs: instant_signed::seconds_of(u.sec),
        nanos: u.ns as i64,
        windows: found.windows,
    }
}

// The instant that is d of working time on from t, or back from it.
fn search(
    book: &[u8],
    pack: &[u8],
    s: Schedule,
    t: Instant,
    back: bool,
    d: Length,
) -> Result<Counted, Refused>
    requires { ScheduleFits book.now pack.now s × InRange t × (nanos d < most) × Exact d }
    ensures { CountedAs result (moved_in back book.now pack.now s (nanos t) (nanos d)) }
{
    let found = walk_search::search(book, pack, s, t, back, d)?;
    Ok(moved_to(t, back, found))
}

// The instant that is a duration of working time on from the instant t, or back from it, of a schedule that was built before. A negative duration
// goes the other way; -2^63 seconds cannot be turned round.
pub fn move_in(
    book: &[u8],
    pack: &[u8],
    s: Schedule,
    back: bool,
    t_sec: i64,
    t_ns: i64,
    d_sec: i64,
    d_ns: i64,
) -> Result<Counted, Refused>
    requires { ScheduleFits book.now pack.now s }
    ensures { CountedAs result (move_in back book.now pack.now s t_sec t_ns d_sec d_ns) }
{
    let t = instant_signed::instant_of(t_sec, t_ns).ok_or(Refusal::InstantOutOfRange)?;
    let d = instant_signed::duration_of(d_sec, d_ns).ok_or(Refusal::DurationMalformed)?;
    if !d.minus {
        return search(book, pack, s, t, back, d.length);
    }
    if instant_signed::negate(Duration {
        secs: d_sec,
        nanos: d_ns,
    })
    .is_err()
    {
        return Err(Refusal::OutOfRange.into());
    }
    search(book, pack, s, t, !back, d.length)
}

// The same from the bytes of book and pack: what `build` refuses comes first.
fn build_and_move(
    book: &[u8],
    pack: &[u8],
    back: bool,
    t_sec: i64,
    t_ns: i64,
    d_sec: i64,
    d_ns: i64,
) -> Result<Counted, Refused>
    ensures { CountedAs result (move_of back book.now pack.now t_sec t_ns d_sec d_ns) }
{
    // Not by `?`: that copies the schedule.
    match build::build(book, pack) {
        Ok(s) => move_in(book, pack, s, back, t_sec, t_ns, d_sec, d_ns),
        Err(r) => Err(r),
    }
}

// The instant that is a duration of working time after the instant t.
pub fn add(
    book: &[u8],
    pack: &[u8],
    t_sec: i64,
    t_ns: i64,
    d_sec: i64,
    d_ns: i64,
) -> Result<Counted, Refused>
    ensures { CountedAs result (model.add book.now pack.now t_sec t_ns d_sec d_ns) }
{
    build_and_move(book, pack, false, t_sec, t_ns, d_sec, d_ns)
}

// The instant that is a duration of working time before the instant t.
pub fn sub(
    book: &[u8],
    pack: &[u8],
    t_sec: i64,
    t_ns: i64,
    d_sec: i64,
    d_ns: i64,
) -> Result<Counted, Refused>
    ensures { CountedAs result (model.sub book.now pack.now t_sec t_ns d_sec d_ns) }
{
    build_and_move(book, pack, true, t_sec, t_ns, d_sec, d_ns)
}
