// A period's search through the blocks of one window, which are pairs of numbers in lent memory: going on from an instant or back from it. Inside the
// window the numbers are nanoseconds from its nearer border; what is known of a period is lengths of time from the instant.
#![tactic(auto)]

ghost use Rattle.std.specs.Prelude.{◌≡◌, ◌+◌, ◌*◌, ◌≤◌, ◌<◌, eqb, length};
ghost use Rattle.model.specs.Walk as model;
ghost use Rattle.instant.specs.Instant.{nanos, Exact};
ghost use Rattle.walk_distance.specs.Distances.{way_of, rest, Short};
ghost use Rattle.walk_period_week.specs.SoFars.{tail_is, window_blocks, is_stopped, start_with, KnownExact, Known};

use instant::Length;
use refusal::SearchError;

// A period: the distances of its nearer and its further border.
#[derive(Clone, Copy)]
pub struct Period {
    pub near: Length,
    pub far: Length,
}

// What is known after a window: nothing so far, a period that may go on, or one that has ended.
#[derive(Clone, Copy)]
pub enum SoFar {
    Nothing,
    Growing(Period),
    Ended(Period),
}

// How far a period goes on in a window: up to a distance, where it may go on in the next one, or where it has ended.
#[derive(Clone, Copy)]
enum Tail {
    Open(u64),
    Closed(u64),
}

// Two lengths are the same.
fn same(a: Length, b: Length) -> bool
    requires { Exact a × Exact b }
    ensures { result ≡ eqb (nanos a) (nanos b) }
{
    if a.ns == b.ns {
        return a.sec == b.sec;
    }
    false
}

// A block that begins at `from` ends the search: it does not touch the period that there is so far, or, where there is none yet, it is further than the
// limit.
fn stops(known: Option<Period>, limit: Length, from: Length) -> bool
    requires { KnownExact known × Exact from }
    ensures { result ≡ is_stopped (nanos limit) known (nanos from) }
{
    match known {
        Some(period) => !same(from, period.far),
        None => instant::precedes(limit, from),
    }
}

// The nearer border of the period with a block that begins at `from`.
fn start_of(known: Option<Period>, from: Length) -> Length
    requires { KnownExact known × Exact from }
    ensures { (nanos result ≡ start_with known (nanos from)) × Exact result }
{
    match known {
        Some(period) => period.near,
        None => from,
    }
}

// How far a period that ends at `end`, with the nearest block, goes on through the others.
fn joined(l: &[u64], n: usize, back: bool, w: u64, end: u64) -> Tail
    requires { (1 ≤ n) × (2 * n ≤ length l.now) }
    ensures { tail_is result ≡ model.period_in 0 (model.growing 0 end) (rest (way_of back) w n 1 l.now) }
{
    let mut e = end;
    for i in 1..n {
        let b = walk_distance::nearest(l, n, back, w, i);
        if b.from != e {
            return Tail::Closed(e);
        }
        e = b.to;
    }
    Tail::Open(e)
}

// The length that is x and d nanoseconds more.
fn further(x: Length, d: u64) -> Length
    requires { Short x }
    ensures { (nanos result ≡ d + nanos x) × Exact result }
{
    instant::sum(x, instant::from_nanoseconds(d))
}

// Goes on through the first n blocks of a window that is w long and begins at the distance x, from the period that there is so far, if there is one.
// Only the nearest block can touch that period; where there is none, and that block is further than the limit, there is no work.
pub fn period_in_window(
    l: &[u64],
    n: usize,
    back: bool,
    w: u64,
    x: Length,
    limit: Length,
    known: Option<Period>,
) -> Result<SoFar, SearchError>
    requires { (2 * n ≤ length l.now) × Short x × KnownExact known }
    ensures { Known limit known (window_blocks back w x n l.now) result }
{
    if n == 0 {
        return match known {
            Some(period) => Ok(SoFar::Growing(period)),
            None => Ok(SoFar::Nothing),
        };
    }
    let first = walk_distance::nearest(l, n, back, w, 0);
    let from = further(x, first.from);
    if stops(known, limit, from) {
        return match known {
            Some(period) => Ok(SoFar::Ended(period)),
            None => Err(SearchError::NoWork),
        };
    }
    let near = start_of(known, from);
    match joined(l, n, back, w, first.to) {
        Tail::Open(to) => Ok(SoFar::Growing(Period {
            near,
            far: further(x, to),
        })),
        Tail::Closed(to) => Ok(SoFar::Ended(Period {
            near,
            far: further(x, to),
        })),
    }
}
