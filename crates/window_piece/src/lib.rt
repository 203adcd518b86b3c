// One piece of a window as a pair of numbers in lent memory: a block's borders in nanoseconds from the window's start. A piece is added in place to a
// list that stays sorted and apart, so that no list is copied.
#![tactic(auto)]

ghost use Rattle.std.specs.Prelude.{◌≡◌, ◌+◌, ◌*◌, ◌-◌, ◌≤◌, ◌<◌};
ghost use Rattle.model.specs.Blocks.{clipped};
ghost use Rattle.model.specs.Instant.{day, last_second};
ghost use Rattle.model.specs.Offset.{greatest_offset};
ghost use Rattle.laws_calendar.specs.Numbers.{IsDayNumber};
ghost use Rattle.instant.specs.Instant.{nanos};
ghost use Rattle.civil.specs.Dates.{time_in, TimeFits};
ghost use Rattle.zone_local.specs.Dates.{held, till_time};
ghost use Rattle.window_dates.specs.Windows.{Window};
ghost use Rattle.window_piece.specs.Filled.{fortnight, two_days, InFortnight, Filled, PairsReady, IsFrame};

use block::Block;
use civil::Time;
use instant::Instant;
use window_dates::LocalDates;

// The nanoseconds of a day.
pub const DAY_NANOS: u64 = 86400000000000;

// The nanoseconds of 14 days.
const FORTNIGHT: u64 = 1209600000000000;

// More seconds than a count of nanoseconds carries.
const CARRIED: u64 = 5;

// The same in nanoseconds.
const CARRIED_NANOS: u64 = 5000000000;

// The seconds of 14 days and those from which offsets are counted.
const LEAD: u64 = 1303200;

// The seconds of 30 days: a frame's first midnight is at most so far behind the instant from which the frame counts.
const NEAR: u64 = 2592000;

// ---- one piece

// The nanoseconds from lo to t, which is at most 14 days later. The seconds that are added keep the difference from going below zero.
pub fn since(lo: Instant, t: Instant) -> u64
    requires { (lo.sec ≤ last_second) × (nanos lo ≤ nanos t) × (nanos t ≤ nanos lo + fortnight) }
    ensures { result ≡ nanos t - nanos lo }
{
    (t.sec + CARRIED - lo.sec) * instant::SECOND + (t.ns as u64) - (lo.ns as u64) - CARRIED_NANOS
}

// Adds x to the first w blocks, if it holds anything.
pub fn piece_into(x: Block, lo: Instant, out: &mut [u64], w: usize) -> usize
    requires { InFortnight lo x × PairsReady out.old w 1 }
    ensures { Filled (nanos lo) out.old w (held x) 1 out.new result }
{
    if instant::precedes(x.start, x.end) {
        let a = since(lo, x.start);
        let b = since(lo, x.end);
        block_pairs::add(out, w, a, b)
    } else {
        w
    }
}

// Adds the part of [s, e) in [lo, hi), as distances from lo.
pub fn span_into(s: u64, e: u64, lo: u64, hi: u64, out: &mut [u64], w: usize) -> usize
    requires { PairsReady out.old w 1 }
    ensures { Filled lo out.old w (clipped lo hi s e) 1 out.new result }
{
    let from = s.max(lo);
    let to = e.min(hi);
    if from < to {
        block_pairs::add(out, w, from - lo, to - lo)
    } else {
        w
    }
}

// ---- dates by one offset

// A zone's dates where one offset holds around the window. Nanoseconds are counted from 14 days before the second of the window's start: the first
// date's midnight, the window's start and its end.
#[derive(Clone, Copy)]
pub struct Frame {
    pub first: u64,
    pub lo: u64,
    pub hi: u64,
}

// The frame of a window; `first` is 0 where no offset is known.
pub fn frame_of(days: LocalDates, lo: Instant, hi: Instant) -> Frame
    requires { Window 14 lo hi × (days.offset ≤ greatest_offset) × IsDayNumber days.first }
    ensures { IsFrame days lo hi result }
{
    let t = civil::midnight(days.first) + LEAD;
    let u = lo.sec + days.offset as u64;
    let a = FORTNIGHT + lo.ns as u64;
    let b = a + since(lo, hi);
    if days.offset == 0 || t <= u || NEAR < t - u {
        return Frame {
            first: 0,
            lo: a,
            hi: b,
        };
    }
    Frame {
        first: (t - u) * instant::SECOND,
        lo: a,
        hi: b,
    }
}

// ---- times of day

// A time of day in nanoseconds.
pub fn time_in(t: Time) -> u64
    requires { TimeFits t }
    ensures { (result ≡ time_in t) × (result < day) }
{
    t.seconds as u64 * instant::SECOND + t.nanos as u64
}

// The end's time of day, counted from the start's date: on the next one if it is at or before the start's.
pub fn till(a: u64, b: u64) -> u64
    requires { b < day }
    ensures { (result ≡ till_time a b) × (result ≤ two_days) }
{
    if a < b { b } else { b + DAY_NANOS }
}
