// The walk over windows of seven days for the nearest period of working time, on from an instant or back from it.
#![tactic(auto)]

ghost use Rattle.std.specs.Prelude.{◌≡◌, ◌||◌, ◌+◌, ◌-◌, ◌≤◌, ◌<◌, ltb, leb};
ghost use Rattle.model.specs.Instant.{week};
ghost use Rattle.instant.specs.Instant.{nanos, most, Exact, InRange};
ghost use Rattle.rule.specs.Rules.{ScheduleFits};
ghost use Rattle.walk_period_week.specs.SoFars.{PeriodExact};
ghost use Rattle.walk_period.specs.Found.{IsCut, FindsPeriod};
ghost use Rattle.window_week.specs.Room.{Lends};

use instant::{Instant, Length};
use refusal::SearchError;
use rule::Schedule;
use walk_period_week::{Period, SoFar};
use window_memory::{ALL, FOUR, Memory, ONE, Size};

// A period goes no further, in a window that ends at y: it ends before the window, or is as long as the limit.
fn is_whole(limit: Length, y: Length, period: Period) -> bool
    requires { nanos period.far < most }
    ensures { result ≡ (ltb (nanos period.far) (nanos y) || leb (nanos limit) (nanos period.far - nanos period.near)) }
{
    if instant::precedes(period.far, y) {
        return true;
    }
    let len = instant::difference(period.far, period.near);
    !instant::precedes(len, limit)
}

// The period, its further border at most the limit from its nearer one.
fn cut(limit: Length, period: Period) -> Period
    requires { PeriodExact period × Exact limit × (nanos period.near + nanos limit < most) }
    ensures { IsCut (nanos limit) period result }
{
    let far = instant::sum(period.near, limit);
    if instant::precedes(far, period.far) {
        return Period {
            near: period.near,
            far,
        };
    }
    period
}

// The length in nanoseconds of the window between two distances.
fn width(x: Length, y: Length) -> u64
    requires { Exact x × Exact y × (nanos x ≤ nanos y) × (nanos y ≤ nanos x + week) }
    ensures { result ≡ nanos y - nanos x }
{
    (y.sec - x.sec) * instant::SECOND + y.ns as u64 - x.ns as u64
}

// The nearest period to t, going on or back. A window's blocks are found in lent memory. The loop calls no other function with the schedule than
// `working_into`, because each such call copies it. `working_in` is one: it hands the schedule on.
fn walk_into(
    book: &[u8],
    pack: &[u8],
    s: Schedule,
    t: Instant,
    back: bool,
    on: &mut [u64],
    off: &mut [u64],
    out: &mut [u64],
) -> Result<Period, SearchError>
    requires { ScheduleFits book.now pack.now s × InRange t × Lends s on.old off.old out.old }
    ensures { FindsPeriod book.now pack.now s t back result }
{
    let end = walk_distance::reach(t, back);
    let most = s.limit;
    let limit = Length { sec: most, ns: 0 };
    let mut x = Length { sec: 0, ns: 0 };
    let mut known: Option<Period> = None;
    while instant::precedes(x, end) {
        let y = walk_distance::window_end(x, end);
        let at = walk_distance::place(t, back, x, y);
        let n = window_week::working_into(book, pack, s, at.lo, at.hi, on, off, out);
        let w = width(x, y);
        match walk_period_week::period_in_window(out, n, back, w, x, limit, known)? {
            SoFar::Nothing => {
                if instant::precedes(limit, y) {
                    return Err(SearchError::NoWork);
                }
                x = y;
            },
            SoFar::Growing(period) => {
                if is_whole(limit, y, period) {
                    return Ok(cut(limit, period));
                }
                known = Some(period);
                x = y;
            },
            SoFar::Ended(period) => return Ok(cut(limit, period)),
        }
    }
    match known {
        Some(period) => Ok(cut(limit, period)),
        None => Err(SearchError::RangeEnds),
    }
}

// The same with memory for the blocks of a window.
pub fn period_walk(
    book: &[u8],
    pack: &[u8],
    s: Schedule,
    t: Instant,
    back: bool,
) -> Result<Period, SearchError>
    requires { ScheduleFits book.now pack.now s × InRange t }
    ensures { FindsPeriod book.now pack.now s t back result }
{
    match window_memory::size_for(s.works + s.pauses + s.closings) {
        Size::One => {
            let mut m = Memory::<ONE>::new();
            walk_into(book, pack, s, t, back, &mut m.on, &mut m.off, &mut m.out)
        },
        Size::Four => {
            let mut m = Memory::<FOUR>::new();
            walk_into(book, pack, s, t, back, &mut m.on, &mut m.off, &mut m.out)
        },
        Size::All => {
            let mut m = Memory::<ALL>::new();
            walk_into(book, pack, s, t, back, &mut m.on, &mut m.off, &mut m.out)
        },
    }
}
