// The windows of a log, each of which starts with a run, and the one with the most working time. A window holds some runs whole and a part of at most one
// more. The times of whole runs are found first, once for each run; then both ends of the window go over the runs, and each window asks for the time of one
// part: at most two walks for each run, all in the same memory. Seconds are counted from the given instant.
#![tactic(auto)]

ghost use Rattle.std.specs.Prelude.{◌≡◌, ◌+◌, ◌≤◌, ◌<◌, length};
ghost use Rattle.instant.specs.Instant.{nanos};
ghost use Rattle.rule.specs.Rules.{schedule_is, ScheduleFits};
ghost use Rattle.model.specs.Hardest.{most_width};
ghost use Rattle.laws_hardest.specs.Logs.{run_count, run_start, LogFits};
ghost use Rattle.laws_hardest.specs.Windows.{log_time};
ghost use Rattle.walk_hardest.specs.Held.{LogPart, LogAsked, CanWalkLog, whole_time, KnownTimes, CanGoOn, HoldsRuns, HoldsNoMore, PartAsked, part_of};
ghost use Rattle.walk_hardest.specs.Held.{FirstStart, harder_of, FindsHardest};

use instant::{Instant, Length};
use rule::Schedule;
use window_memory::{ALL, Memory};

// The runs that a window holds whole end before run `next`; their time in nanoseconds.
#[derive(Clone, Copy)]
pub struct Held {
    pub next: usize,
    pub time: u64,
}

// A window's working time in nanoseconds, and the second at which it starts.
#[derive(Clone, Copy)]
pub struct Stretch {
    pub time: u64,
    pub start: u64,
}

// ---- working time of a part of the log

// The working time from one second to another, in nanoseconds. The memory is lent for the blocks of one window of the walk.
fn time_of(
    book: &[u8],
    pack: &[u8],
    s: Schedule,
    t: Instant,
    from: u64,
    to: u64,
    memory: &mut Memory<ALL>,
) -> u64
    requires { ScheduleFits book.now pack.now s × LogPart t from to }
    ensures { result ≡ log_time (schedule_is book.now pack.now s) (nanos t) from to }
{
    let a = instant::sum(t, Length { sec: from, ns: 0 });
    let b = instant::sum(t, Length { sec: to, ns: 0 });
    let r = walk_between::between_in(book, pack, s, a, b, memory);
    instant::nanoseconds(r.time)
}

// The working time of run j; 0 of a run that is longer than the width.
fn whole_time(
    book: &[u8],
    pack: &[u8],
    s: Schedule,
    t: Instant,
    log: &[i64],
    width: u64,
    j: usize,
    memory: &mut Memory<ALL>,
) -> u64
    requires { CanWalkLog book.now pack.now s t log.now width
        × (j < run_count log.now) }
    ensures { result ≡ whole_time (schedule_is book.now pack.now s)
        (nanos t) log.now width j }
{
    let run = run_log::run_at(log, j);
    if width < run.end - run.start {
        return 0;
    }
    time_of(book, pack, s, t, run.start, run.end, memory)
}

// The working times of all runs, without those that are longer than the width.
fn whole_times(
    book: &[u8],
    pack: &[u8],
    s: Schedule,
    t: Instant,
    log: &[i64],
    width: u64,
    whole: &mut [u64],
    memory: &mut Memory<ALL>,
)
    requires { CanWalkLog book.now pack.now s t log.now width
        × (run_count log.now ≤ length whole.old) }
    ensures { KnownTimes (schedule_is book.now pack.now s)
        (nanos t) log.now width whole.new }
{
    for j in 0..run_log::count(log) {
        whole[j] = whole_time(book, pack, s, t, log, width, j, memory);
    }
}

// ---- both ends of a window

// The second at which the window that starts with run i ends.
fn window_end(log: &[i64], width: u64, i: usize) -> u64
    requires { LogFits 0 log.now × (width ≤ most_width) × (i < run_count log.now) }
    ensures { result ≡ run_start log.now i + width }
{
    let run = run_log::run_at(log, i);
    run.start + width
}

// Takes up all runs that the window that starts with run i holds whole.
fn take_up(log: &[i64], width: u64, whole: &[u64], i: usize, held: Held) -> Held
    requires { CanGoOn log.now width whole.now i held }
    ensures { HoldsRuns log.now width whole.now i result
        × HoldsNoMore log.now width i result.next }
{
    let end = window_end(log, width, i);
    let count = run_log::count(log);
    let mut time = held.time;
    for next in held.next..count {
        let run = run_log::run_at(log, next);
        if end < run.end {
            return Held { next, time };
        }
        time += whole[next];
    }
    Held { next: count, time }
}

// Leaves run i behind, for the window that starts with the next one.
fn leave(log: &[i64], width: u64, whole: &[u64], i: usize, held: Held) -> Held
    requires { CanGoOn log.now width whole.now i held }
    ensures { HoldsRuns log.now width whole.now (i + 1) result }
{
    if held.next == i {
        return Held {
            next: i + 1,
            time: 0,
        };
    }
    Held {
        next: held.next,
        time: held.time - whole[i],
    }
}

// The time of the part of run k that lies in the window that starts with run i.
fn part_time(
    book: &[u8],
    pack: &[u8],
    s: Schedule,
    t: Instant,
    log: &[i64],
    width: u64,
    i: usize,
    k: usize,
    memory: &mut Memory<ALL>,
) -> u64
    requires { CanWalkLog book.now pack.now s t log.now width
        × PartAsked log.now width i k }
    ensures { result ≡ part_of (schedule_is book.now pack.now s)
        (nanos t) log.now width i k }
{
    if k == run_log::count(log) {
        return 0;
    }
    let run = run_log::run_at(log, k);
    let to = window_end(log, width, i);
    if to <= run.start {
        return 0;
    }
    time_of(book, pack, s, t, run.start, to, memory)
}

// ---- all windows

// The later window only where it has more time: of equal ones the earliest stays.
fn harder(best: Stretch, time: u64, start: u64) -> Stretch
    ensures { result ≡ harder_of best time start }
{
    if best.time < time {
        return Stretch { time, start };
    }
    best
}

// The second at which the first window starts; 0 of an empty log.
fn first_start(log: &[i64]) -> u64
    requires { LogFits 0 log.now }
    ensures { FirstStart log.now result }
{
    if run_log::count(log) == 0 {
        return 0;
    }
    let run = run_log::run_at(log, 0);
    run.start
}

// The hardest window, by the times of the whole runs.
fn hardest_by(
    book: &[u8],
    pack: &[u8],
    s: Schedule,
    t: Instant,
    log: &[i64],
    width: u64,
    whole: &[u64],
    memory: &mut Memory<ALL>,
) -> Stretch
    requires { CanWalkLog book.now pack.now s t log.now width
        × KnownTimes (schedule_is book.now pack.now s) (nanos t) log.now width whole.now }
    ensures { FindsHardest book.now pack.now s t log.now width result }
{
    let mut best = Stretch {
        time: 0,
        start: first_start(log),
    };
    let mut held = Held { next: 0, time: 0 };
    for i in 0..run_log::count(log) {
        held = take_up(log, width, whole, i, held);
        let part = part_time(book, pack, s, t, log, width, i, held.next, memory);
        let run = run_log::run_at(log, i);
        best = harder(best, held.time + part, run.start);
        held = leave(log, width, whole, i, held);
    }
    best
}

// The hardest window of a log; an empty log has none, and gives no time at its start.
pub fn hardest(
    book: &[u8],
    pack: &[u8],
    s: Schedule,
    t: Instant,
    log: &[i64],
    width: u64,
) -> Stretch
    requires { ScheduleFits book.now pack.now s × LogAsked t log.now width }
    ensures { FindsHardest book.now pack.now s t log.now width result }
{
    let mut whole = [0u64; run_log::MOST_RUNS];
    let mut memory = Memory::<ALL>::new();
    whole_times(book, pack, s, t, log, width, &mut whole, &mut memory);
    hardest_by(book, pack, s, t, log, width, &whole, &mut memory)
}
