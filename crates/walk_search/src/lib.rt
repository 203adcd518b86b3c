// The walk over windows of seven days that searches for a length of working time, on from an instant or back from it. Windows that repeat the one before
// them are skipped, many in one step. An answer has the number of windows that were resolved.
#![tactic(auto)]

ghost use Rattle.std.specs.Prelude.{◌≡◌, ◌+◌, ◌*◌, ◌-◌, ◌≤◌, ◌<◌, min};
ghost use Rattle.instant.specs.Instant.{nanos, most, Exact, InRange};
ghost use Rattle.model.specs.Instant.{week};
ghost use Rattle.rule.specs.Rules.{schedule_is, ScheduleFits};
ghost use Rattle.window_week.specs.Room.{HasRoom};
ghost use Rattle.walk_distance.specs.Distances.{way_of, Short};
ghost use Rattle.walk_search_week.specs.Steps.{rest_of};
ghost use Rattle.walk_search.specs.Steps.{Further, Leaves};
ghost use Rattle.walk_search.specs.Searches.{keep_of, SkipAsked, SkippedFrom, InWindow, ToFind, SearchAnswered};

use instant::{Instant, Length};
use refusal::SearchError;
use rule::Schedule;
use walk_distance::Run;
use walk_search_week::WeekStep;
use window_memory::{ALL, FOUR, Memory, ONE, Size};

// What a window leaves: the distance that answers, or time left to find with the distance where work last ended.
#[derive(Clone, Copy)]
pub enum Step {
    Found(Length),
    Left(Length, Length),
}

// What a search reaches: a distance, and the number of windows resolved on the way.
#[derive(Clone, Copy)]
pub struct Reached {
    pub distance: Length,
    pub windows: u64,
}

// ---- many windows at once

// How many windows of this time may be taken off what is left and leave some: none only if not even one. There may be more.
fn fitting(time: Length, left: Length) -> u64
    requires { Exact time × (nanos left < most) }
    ensures { (result ≡ 0 → nanos left ≤ nanos time) × (0 < result → result * nanos time < nanos left) }
{
    if !instant::precedes(time, left) {
        return 0;
    }
    let n = left.sec / (time.sec + 1);
    if n == 0 {
        return 1;
    }
    n
}

// The windows from the distance x on that have the time of the one before them, if that time is kept, and take less than what is left to find: none
// only if the first has not, or takes as much. Put into its callers, which are one for each size of memory: a call would copy the schedule.
#[inline(always)]
fn skips(
    book: &[u8],
    pack: &[u8],
    s: Schedule,
    t: Instant,
    back: bool,
    kept: Option<Length>,
    left: Length,
    x: Length,
    end: Length,
) -> Option<Run>
    requires { ScheduleFits book.now pack.now s × SkipAsked t back kept left x end }
    ensures { SkippedFrom (schedule_is book.now pack.now s) t back kept left x end result }
{
    let time = kept?;
    let n = fitting(time, left);
    if n == 0 {
        return None;
    }
    let m = walk_distance::weeks(x, end);
    if m == 0 {
        return None;
    }
    let p = walk_distance::at(t, back, x);
    let count = n.min(m).min(walk_skip::borders(book, pack, s, p, back));
    if count == 0 {
        return None;
    }
    Some(Run { count, time })
}

// What is kept of the window from x to y, in which so much time was found: that time, of a whole window with working time.
fn keep(x: Length, y: Length, time: Length) -> Option<Length>
    requires { Short x × Short y }
    ensures { result ≡ keep_of (nanos y - nanos x) time }
{
    if walk_distance::is_week(x, y) && instant::precedes(Length { sec: 0, ns: 0 }, time) {
        return Some(time);
    }
    None
}

// ---- one window

// More nanoseconds than a window has.
const WEEK_AND_MORE: u64 = instant::WEEK * instant::SECOND + 1;

// What is looked for in a window: what is left to find, or a nanosecond more than a week if that is less. No window has so much.
fn wanted(left: Length) -> u64
    requires { Exact left }
    ensures { result ≡ min (nanos left) (week + 1) }
{
    if instant::WEEK < left.sec {
        return WEEK_AND_MORE;
    }
    instant::nanoseconds(left).min(WEEK_AND_MORE)
}

// What a window leaves, its distances from where work last ended, as distances from t. Of what is left to find, d was looked for.
fn further(r: WeekStep, last: Length, left: Length, d: u64) -> Step
    requires { Short last × (nanos left < most) × Exact left × (d ≤ nanos left) × (rest_of r ≤ d) }
    ensures { Further (nanos last) (nanos left - d) r result }
{
    match r {
        WeekStep::Found(z) => Step::Found(instant::sum(last, instant::from_nanoseconds(z))),
        WeekStep::Left(rest, m) => {
            let time = instant::from_nanoseconds(d - rest);
            Step::Left(
                instant::difference(left, time),
                instant::sum(last, instant::from_nanoseconds(m)),
            )
        }
    }
}

// What the window from x to y leaves, where `left` is to find and work last ended at `last`, no more than the limit before x. Its blocks are found
// in lent memory. `gap` is the limit in nanoseconds.
fn search_window<const N: usize>(
    book: &[u8],
    pack: &[u8],
    s: Schedule,
    t: Instant,
    back: bool,
    x: Length,
    y: Length,
    last: Length,
    left: Length,
    gap: u64,
    memory: &mut Memory<N>,
) -> Result<Step, SearchError>
    requires { InWindow book.now pack.now s gap t back x y last left × HasRoom s N }
    ensures { Leaves (schedule_is book.now pack.now s) (way_of back) t x y last left result }
{
    let g = instant::nanoseconds(instant::difference(x, last));
    let w = instant::nanoseconds(instant::difference(y, x));
    let d = wanted(left);
    let n = walk_distance::window_into(book, pack, s, t, back, x, y, memory);
    let r = walk_search_week::search(&memory.out, n, back, gap, g, w, d)?;
    Ok(further(r, last, left, d))
}

// ---- the walk

// The distance from t at which d of working time is spent, d not zero. A window's blocks are found in lent memory. `gap` is the limit in
// nanoseconds: the caller works it out, because a schedule of which a field is read here would be copied for each window once more.
fn search_into<const N: usize>(
    book: &[u8],
    pack: &[u8],
    s: Schedule,
    t: Instant,
    back: bool,
    d: Length,
    gap: u64,
    memory: &mut Memory<N>,
) -> Result<Reached, SearchError>
    requires { ScheduleFits book.now pack.now s × ToFind s gap t d × HasRoom s N }
    ensures { SearchAnswered (way_of back) (schedule_is book.now pack.now s) t d result }
{
    let end = walk_distance::reach(t, back);
    let zero = Length { sec: 0, ns: 0 };
    let mut x = zero;
    let mut last = zero;
    let mut left = d;
    let mut kept: Option<Length> = None;
    let mut windows: u64 = 0;
    while instant::precedes(x, end) {
        if let Some(run) = skips(book, pack, s, t, back, kept, left, x, end) {
            left = instant::difference(left, walk_distance::times(run.time, run.count));
            last = walk_distance::weeks_on(last, run.count);
            x = walk_distance::weeks_on(x, run.count);
        } else {
            let y = walk_distance::window_end(x, end);
            let step = search_window(book, pack, s, t, back, x, y, last, left, gap, memory)?;
            windows += 1;
            match step {
                Step::Found(distance) => return Ok(Reached { distance, windows }),
                Step::Left(rest, m) => {
                    kept = keep(x, y, instant::difference(left, rest));
                    left = rest;
                    last = m;
                    x = y;
                },
            }
        }
    }
    Err(SearchError::RangeEnds)
}

// The distance from t at which d of working time is spent.
pub fn search(
    book: &[u8],
    pack: &[u8],
    s: Schedule,
    t: Instant,
    back: bool,
    d: Length,
) -> Result<Reached, SearchError>
    requires { ScheduleFits book.now pack.now s × InRange t × (nanos d < most) × Exact d }
    ensures { SearchAnswered (way_of back) (schedule_is book.now pack.now s) t d result }
{
    let zero = Length { sec: 0, ns: 0 };
    if !instant::precedes(zero, d) {
        let at_once = Reached {
            distance: zero,
            windows: 0,
        };
        return Ok(at_once);
    }
    let gap = s.limit * instant::SECOND;
    match window_memory::size_for(s.works + s.pauses + s.closings) {
        Size::One => search_into(book, pack, s, t, back, d, gap, &mut Memory::<ONE>::new()),
        Size::Four => search_into(book, pack, s, t, back, d, gap, &mut Memory::<FOUR>::new()),
        Size::All => search_into(book, pack, s, t, back, d, gap, &mut Memory::<ALL>::new()),
    }
}
