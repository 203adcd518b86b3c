// The calls `next_period` and `previous_period`, on the bytes of a rule book and a zone pack and on an instant as signed numbers: the period's
// start and end with the marks of both, or a refusal. On a schedule built before, the same with the marks or without them.
#![tactic(auto)]

ghost use Rattle.std.specs.Prelude.{◌≡◌};
ghost use Rattle.model.specs.Blocks.{block};
ghost use Rattle.model.specs.Calls.{ends};
ghost use Rattle.model.specs.Marks.{next_marked, previous_marked};
ghost use Rattle.instant.specs.Instant.{nanos, InRange};
ghost use Rattle.refusal.specs.Answered.{answer_of};
ghost use Rattle.rule.specs.Rules.{ScheduleFits};
ghost use Rattle.walk_distance.specs.Distances.{way_of, Short};
ghost use Rattle.schedule_periods.specs.Replies.{period_numbers, period_reply, period_asked, marked_numbers, marked_asked, marked_of, WalksAs};

use instant::{Instant, Length};
use instant_signed::SignedInstant;
use refusal::{Refusal, Refused};
use rule::Schedule;
use window_marks::Marks;

// A period: its start and its end.
#[derive(Clone, Copy, Debug, PartialEq, Eq)]
pub struct Period {
    pub start: SignedInstant,
    pub end: SignedInstant,
}

// What `next_period` and `previous_period` give: a period, and the marks of its start and of its end.
#[derive(Clone, Copy)]
pub struct MarkedPeriod {
    pub period: Period,
    pub marks: Marks,
}

// An instant, and the distances from it, on or back, of the nearer and the further border of a period.
#[derive(Clone, Copy)]
struct Walked {
    from: Instant,
    near: Length,
    far: Length,
}

// ---- the walk

// On a built schedule: going on, the period at an instant or the first one after it; going back, the last period that begins before it, up to it.
fn walk(
    book: &[u8],
    pack: &[u8],
    s: Schedule,
    back: bool,
    sec: i64,
    ns: i64,
) -> Result<Walked, Refused>
    requires { ScheduleFits book.now pack.now s }
    ensures { WalksAs book.now pack.now s back sec ns result }
{
    let from = instant_signed::instant_of(sec, ns).ok_or(Refusal::InstantOutOfRange)?;
    let p = walk_period::period_walk(book, pack, s, from, back)?;
    Ok(Walked {
        from,
        near: p.near,
        far: p.far,
    })
}

// The period whose nearer border is at the distance f from t, on or back, and its further one at e. Going on the nearer border is its start, going
// back it is its end.
fn period_at(t: Instant, back: bool, f: Length, e: Length) -> Period
    requires { InRange t × Short f × Short e }
    ensures { period_numbers result ≡ ends (way_of back) (nanos t) (block (nanos f) (nanos e)) }
{
    let near = instant_signed::signed_instant(walk_distance::away(t, back, f));
    let far = instant_signed::signed_instant(walk_distance::away(t, back, e));
    if back {
        return Period {
            start: far,
            end: near,
        };
    }
    Period {
        start: near,
        end: far,
    }
}

// ---- periods

// On a built schedule: the period that is walked to.
pub fn period_in(
    book: &[u8],
    pack: &[u8],
    s: Schedule,
    back: bool,
    sec: i64,
    ns: i64,
) -> Result<Period, Refused>
    requires { ScheduleFits book.now pack.now s }
    ensures { answer_of period_reply result ≡ period_asked back book.now pack.now s sec ns }
{
    let x = walk(book, pack, s, back, sec, ns)?;
    Ok(period_at(x.from, back, x.near, x.far))
}

// The same as `period_in`, with the marks of both ends. Most often these are seen to be plain at once.
pub fn marked_period_in(
    book: &[u8],
    pack: &[u8],
    s: Schedule,
    back: bool,
    sec: i64,
    ns: i64,
) -> Result<MarkedPeriod, Refused>
    requires { ScheduleFits book.now pack.now s }
    ensures { answer_of marked_numbers result ≡ marked_asked back book.now pack.now s sec ns }
{
    let x = walk(book, pack, s, back, sec, ns)?;
    let period = period_at(x.from, back, x.near, x.far);
    if walk_period_marks::is_plain(book, pack, s, x.from, back, x.near, x.far) {
        let marks = walk_period_marks::plain_marks();
        return Ok(MarkedPeriod { period, marks });
    }
    let marks = walk_period_marks::period_marks(book, pack, s, x.from, back, x.near, x.far);
    Ok(MarkedPeriod { period, marks })
}

// The same from the bytes of book and pack: what `build` refuses comes first.
fn build_and_find(
    book: &[u8],
    pack: &[u8],
    back: bool,
    sec: i64,
    ns: i64,
) -> Result<MarkedPeriod, Refused>
    ensures { answer_of marked_numbers result ≡ marked_of back book.now pack.now sec ns }
{
    // Not by `?`: that copies the schedule.
    match build::build(book, pack) {
        Ok(s) => marked_period_in(book, pack, s, back, sec, ns),
        Err(r) => Err(r),
    }
}

// The period at an instant or the first one after it. It starts at the instant if that lies inside, and is cut to the search limit.
pub fn next_period(book: &[u8], pack: &[u8], sec: i64, ns: i64) -> Result<MarkedPeriod, Refused>
    ensures { answer_of marked_numbers result ≡ next_marked book.now pack.now sec ns }
{
    build_and_find(book, pack, false, sec, ns)
}

// The last period that begins before an instant. It ends at the instant if that lies inside, and is cut to the search limit.
pub fn previous_period(book: &[u8], pack: &[u8], sec: i64, ns: i64) -> Result<MarkedPeriod, Refused>
    ensures { answer_of marked_numbers result ≡ previous_marked book.now pack.now sec ns }
{
    build_and_find(book, pack, true, sec, ns)
}
