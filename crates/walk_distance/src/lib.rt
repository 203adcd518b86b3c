// The windows of a walk, by their distances from the instant where it starts: going on from it, or back. A window is seven days, or less at the
// range's end.
#![tactic(auto)]

ghost use Rattle.std.specs.Prelude.{◌≡◌, ◌+◌, ◌*◌, ◌-◌, ◌/◌, ◌≤◌, ◌<◌, min, eqb, length};
ghost use Rattle.instant.specs.Instant.{nanos, most, Exact, InRange};
ghost use Rattle.model.specs.Instant.{week};
ghost use Rattle.model.specs.Walk as way;
ghost use Rattle.walk_distance.specs.Distances.{way_of, range_seconds, most_weeks, Short, WindowWithin, WindowReady, PlacedAt, ResolvedAt, IsNearest};

use instant::{Instant, Length};
use rule::Schedule;
use window_memory::Memory;

// The end of the window that begins at x: a week further, or `end` if that is nearer. Both may be distances, or both instants.
pub fn window_end(x: Length, end: Length) -> Length
    requires { Short x × Short end }
    ensures { (nanos result ≡ min (nanos x + week) (nanos end)) × Short result }
{
    let on = Length {
        sec: x.sec + instant::WEEK,
        ns: x.ns,
    };
    if instant::precedes(on, end) {
        return on;
    }
    end
}

// y is a week further than x.
pub fn is_week(x: Length, y: Length) -> bool
    requires { Short x × Short y }
    ensures { result ≡ eqb (nanos y - nanos x) week }
{
    if y.ns == x.ns {
        return y.sec == x.sec + instant::WEEK;
    }
    false
}

// ---- many windows at once

// Whole windows in a row that have the time of the one before them, and that time.
#[derive(Clone, Copy)]
pub struct Run {
    pub count: u64,
    pub time: Length,
}

// How many whole windows lie from x to `end`.
pub fn weeks(x: Length, end: Length) -> u64
    requires { Short x × Short end × (nanos x ≤ nanos end) }
    ensures { result ≡ (nanos end - nanos x) / week }
{
    let d = instant::difference(end, x);
    d.sec / instant::WEEK
}

// n weeks further than x.
pub fn weeks_on(x: Length, n: u64) -> Length
    requires { (n ≤ most_weeks) × (nanos x < most) }
    ensures { (nanos result ≡ nanos x + n * week) × (result.ns ≡ x.ns) }
{
    Length {
        sec: x.sec + n * instant::WEEK,
        ns: x.ns,
    }
}

// n times x.
pub fn times(x: Length, n: u64) -> Length
    requires { Exact x × (n ≤ most_weeks) × (n * nanos x < most) }
    ensures { (nanos result ≡ n * nanos x) × Exact result }
{
    let ns = n * x.ns as u64;
    Length {
        sec: n * x.sec + ns / instant::SECOND,
        ns: (ns % instant::SECOND) as u32,
    }
}

// ---- distances from an instant

// The way is a `bool`, set where a walk goes back: all contracts say it by `way_of`, to which an enum of two variants would add nothing.

// The instant that is x away from t, be it in the range or not.
pub fn away(t: Instant, back: bool, x: Length) -> Instant
    requires { InRange t × Short x }
    ensures { (nanos result ≡ way.at (way_of back) (nanos t) (nanos x)) × (result.sec < 2 * range_seconds) × Exact result }
{
    if back {
        return instant::difference(t, x);
    }
    instant::sum(t, x)
}

// The instant at the distance x from t, in the range.
pub fn at(t: Instant, back: bool, x: Length) -> Instant
    requires { InRange t × Short x × (nanos x ≤ way.reach (way_of back) (nanos t)) }
    ensures { (nanos result ≡ way.at (way_of back) (nanos t) (nanos x)) × InRange result }
{
    away(t, back, x)
}

// The distance of the range's end from t.
pub fn reach(t: Instant, back: bool) -> Length
    requires { InRange t }
    ensures { (nanos result ≡ way.reach (way_of back) (nanos t)) × Short result }
{
    if back {
        return instant::difference(
            t,
            Instant {
                sec: instant::FIRST,
                ns: 0,
            },
        );
    }
    instant::difference(
        Instant {
            sec: instant::LAST,
            ns: instant::LAST_NS,
        },
        t,
    )
}

// The instants between which a window lies.
#[derive(Clone, Copy)]
pub struct Ends {
    pub lo: Instant,
    pub hi: Instant,
}

// The instants between which the window between two distances from t lies.
pub fn place(t: Instant, back: bool, x: Length, y: Length) -> Ends
    requires { WindowWithin t back x y }
    ensures { PlacedAt (way_of back) (nanos t) (nanos x) (nanos y) result }
{
    let near = at(t, back, x);
    let far = at(t, back, y);
    if back {
        return Ends { lo: far, hi: near };
    }
    Ends { lo: near, hi: far }
}

// The blocks of the window between two distances from t, as pairs of numbers in `memory.out`: how many it has afterwards, as distances from the window's
// start.
pub fn window_into<const N: usize>(
    book: &[u8],
    pack: &[u8],
    s: Schedule,
    t: Instant,
    back: bool,
    x: Length,
    y: Length,
    memory: &mut Memory<N>,
) -> usize
    requires { WindowReady book.now pack.now s t back x y N }
    ensures { ResolvedAt book.now pack.now s t back x y result memory.new.out }
{
    let at = place(t, back, x, y);
    window_week::working_in(book, pack, s, at.lo, at.hi, memory)
}

// ---- the blocks of a window

// A block's nearer and further border, as distances from the window's nearer border.
#[derive(Clone, Copy)]
pub struct NearBlock {
    pub from: u64,
    pub to: u64,
}

// The i-th nearest of the first n blocks, which are pairs of numbers, distances from the start of a window that is w long.
pub fn nearest(l: &[u64], n: usize, back: bool, w: u64, i: usize) -> NearBlock
    requires { (i < n) × (2 * n ≤ length l.now) }
    ensures { IsNearest back w n i l.now result }
{
    if back {
        let k = n - i;
        let from = w.saturating_sub(l[2 * k - 1]);
        let to = w.saturating_sub(l[2 * k - 2]);
        return NearBlock { from, to };
    }
    let from = l[2 * i];
    let to = l[2 * i + 1];
    NearBlock { from, to }
}
