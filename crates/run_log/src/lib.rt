// A pump's log: pairs of signed numbers in lent memory, offset and length of a run in whole seconds from a given instant. And the width of a window.
#![tactic(auto)]

ghost use Rattle.std.specs.Prelude.{◌≡◌, ◌<◌, nat_abs};
ghost use Rattle.model.specs.Hardest.{is_run, is_log, is_width};
ghost use Rattle.instant.specs.Instant.{nanos, InRange};
ghost use Rattle.laws_hardest.specs.Logs.{run_start, run_end, run_count, NotBelow0, LogFits};

use instant::Instant;

// The most runs of a log, the numbers of a run, and the most numbers.
pub const MOST_RUNS: usize = 4096;

const RUN_SIZE: usize = 2;

const MOST_NUMBERS: usize = RUN_SIZE * MOST_RUNS;

// The seconds of the widest window, 400 days.
const MOST_WIDTH: i64 = 400 * instant::DAY as i64;

// The seconds at which a run starts and ends.
#[derive(Clone, Copy)]
pub struct Run {
    pub start: u64,
    pub end: u64,
}

// The same number, without a sign.
pub fn unsigned(x: i64) -> u64
    requires { NotBelow0 «x» }
    ensures { result ≡ nat_abs x }
{
    x.unsigned_abs()
}

// The run starts at or behind the second `end`, where the one before it ends, lasts a second at least, and does not end past the last instant. Seconds are
// counted from t.
fn is_run(t: Instant, end: u64, offset: i64, length: i64) -> bool
    requires { InRange t }
    ensures { result ≡ is_run (nanos t) end offset length }
{
    let start = offset.unsigned_abs();
    let long = length.unsigned_abs();
    let reach = instant::LAST - t.sec;
    0 <= offset && 0 < length && end <= start && start <= reach && long <= reach - start
}

// The numbers are a log: of at most 4,096 runs, in order and apart, none of which passes the last instant.
pub fn is_log(t: Instant, log: &[i64]) -> bool
    requires { InRange t }
    ensures { result ≡ is_log (nanos t) log.now }
{
    if MOST_NUMBERS < log.len() || log.len() % RUN_SIZE != 0 {
        return false;
    }
    let mut end = 0u64;
    for j in 0..count(log) {
        let offset = log[RUN_SIZE * j];
        let length = log[RUN_SIZE * j + 1];
        if !is_run(t, end, offset, length) {
            return false;
        }
        end = offset.unsigned_abs() + length.unsigned_abs();
    }
    true
}

// How many runs a log has.
pub fn count(log: &[i64]) -> usize
    ensures { result ≡ run_count log.now }
{
    log.len() / RUN_SIZE
}

// Run j.
pub fn run_at(log: &[i64], j: usize) -> Run
    requires { LogFits 0 log.now × (j < run_count log.now) }
    ensures { (result.start ≡ run_start log.now j) × (result.end ≡ run_end log.now j) }
{
    let start = log[RUN_SIZE * j].unsigned_abs();
    let end = start + log[RUN_SIZE * j + 1].unsigned_abs();
    Run { start, end }
}

// The width of a window: from a second to 400 days.
pub fn is_width(width: i64) -> bool
    ensures { result ≡ is_width width }
{
    0 < width && width <= MOST_WIDTH
}
