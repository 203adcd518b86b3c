// The walk over windows of seven days for the working time between two instants. Windows that repeat the one before them are skipped, many in one step.
// The answer has the number of windows that were resolved.
#![tactic(auto)]

ghost use Rattle.rule.specs.Rules.{schedule_is, ScheduleFits};
ghost use Rattle.window_week.specs.Room.{HasRoom, Lends};
ghost use Rattle.walk_between.specs.Sums.{Interval, RunFrom, Sums};

use instant::{Instant, Length};
use rule::Schedule;
use walk_distance::Run;
use window_memory::{ALL, FOUR, Memory, ONE, Size};

// The working time of several windows, with the number of windows resolved.
#[derive(Clone, Copy)]
pub struct Summed {
    pub time: Length,
    pub windows: u64,
}

// The windows from lo on that have the time of the one before them, if that time is kept: none only if the first has not.
fn repeated(
    book: &[u8],
    pack: &[u8],
    s: Schedule,
    kept: Option<Length>,
    lo: Instant,
    b: Instant,
) -> Option<Run>
    requires { ScheduleFits book.now pack.now s × Interval lo b }
    ensures { RunFrom (schedule_is book.now pack.now s) kept lo b result }
{
    let time = kept?;
    let n = walk_distance::weeks(lo, b);
    if n == 0 {
        return None;
    }
    let count = n.min(walk_skip::borders(book, pack, s, lo, false));
    if count == 0 {
        return None;
    }
    Some(Run { count, time })
}

// The working time from a to b, and how many windows were resolved for it. A window's blocks are found in lent memory.
pub fn between_into(
    book: &[u8],
    pack: &[u8],
    s: Schedule,
    a: Instant,
    b: Instant,
    on: &mut [u64],
    off: &mut [u64],
    out: &mut [u64],
) -> Summed
    requires { ScheduleFits book.now pack.now s × Interval a b × Lends s on.old off.old out.old }
    ensures { Sums (schedule_is book.now pack.now s) a b result }
{
    let mut lo = a;
    let mut sum = Length { sec: 0, ns: 0 };
    let mut kept: Option<Length> = None;
    let mut windows: u64 = 0;
    while instant::precedes(lo, b) {
        if let Some(run) = repeated(book, pack, s, kept, lo, b) {
            sum = instant::sum(sum, walk_distance::times(run.time, run.count));
            lo = walk_distance::weeks_on(lo, run.count);
        } else {
            let hi = walk_distance::window_end(lo, b);
            let blocks = window_week::working_into(book, pack, s, lo, hi, on, off, out);
            let time = instant::from_nanoseconds(block_pairs::total(out, blocks));
            sum = instant::sum(sum, time);
            kept = walk_distance::is_week(lo, hi).then_some(time);
            windows += 1;
            lo = hi;
        }
    }
    Summed { time: sum, windows }
}

// The same in a walk's memory.
pub fn between_in<const N: usize>(
    book: &[u8],
    pack: &[u8],
    s: Schedule,
    a: Instant,
    b: Instant,
    memory: &mut Memory<N>,
) -> Summed
    requires { ScheduleFits book.now pack.now s × Interval a b × HasRoom s N }
    ensures { Sums (schedule_is book.now pack.now s) a b result }
{
    between_into(
        book,
        pack,
        s,
        a,
        b,
        &mut memory.on,
        &mut memory.off,
        &mut memory.out,
    )
}

// The working time from a to b, and how many windows were resolved for it.
pub fn between(book: &[u8], pack: &[u8], s: Schedule, a: Instant, b: Instant) -> Summed
    requires { ScheduleFits book.now pack.now s × Interval a b }
    ensures { Sums (schedule_is book.now pack.now s) a b result }
{
    match window_memory::size_for(s.works + s.pauses + s.closings) {
        Size::One => between_in(book, pack, s, a, b, &mut Memory::<ONE>::new()),
        Size::Four => between_in(book, pack, s, a, b, &mut Memory::<FOUR>::new()),
        Size::All => between_in(book, pack, s, a, b, &mut Memory::<ALL>::new()),
    }
}
