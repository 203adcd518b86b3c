// What a work or break rule has in a window of at most seven days, as pairs of numbers in lent memory: the blocks' borders in nanoseconds from the
// window's start.
#![tactic(auto)]

ghost use Rattle.model.specs.DayNumber.{day_of};
ghost use Rattle.rule.specs.Rules.{RuleFits};
ghost use Rattle.window_dates.specs.Windows.{Window, RuleDate};
ghost use Rattle.window_piece.specs.Filled.{PairsReady};
ghost use Rattle.window_workday.specs.Workday.{date_count, RuleDates, PieceAdded, RuleAdded, PlainFits, PlainAdded};

use instant::Instant;
use rule::Rule;
use window_dates::LocalDates;
use window_piece::Frame;

// Adds what the dates of the set show of the window, each from a to b nanoseconds behind its midnight. This loop and that of `dates_into` stay apart: it
// counts midnights on, and the other one looks each date up, so that one loop for both would take a closure that writes the lent memory.
fn plain_into(
    f: Frame,
    first: i32,
    count: u32,
    set: u8,
    a: u64,
    b: u64,
    out: &mut [u64],
    w: usize,
) -> usize
    requires { PlainFits f first count a b × PairsReady out.old w count }
    ensures { PlainAdded f (day_of first) count set a b out.old w out.new result }
{
    let lo = f.lo;
    let hi = f.hi;
    let mut k = f.first;
    let mut n = w;
    for i in 0..count {
        if rule::applies(set, civil::later(first, i)) {
            n = window_piece::span_into(k + a, k + b, lo, hi, out, n);
        }
        k += window_piece::DAY_NANOS;
    }
    n
}

// Adds what the rule shows of a date of the window.
fn date_into(
    pack: &[u8],
    r: Rule,
    days: LocalDates,
    day: i32,
    lo: Instant,
    hi: Instant,
    out: &mut [u64],
    w: usize,
) -> usize
    requires { RuleDate pack.now r days (day_of day) lo hi × PairsReady out.old w 1 }
    ensures { PieceAdded pack.now r lo hi (day_of day) out.old w out.new result }
{
    let x = window_dates::piece_of(pack, r, days, day, lo, hi);
    window_piece::piece_into(x, lo, out, w)
}

// Adds what the rule has in the window, date by date.
fn dates_into(
    pack: &[u8],
    r: Rule,
    days: LocalDates,
    lo: Instant,
    hi: Instant,
    out: &mut [u64],
    w: usize,
) -> usize
    requires { RuleDates pack.now r days lo hi × PairsReady out.old w (date_count days) }
    ensures { RuleAdded pack.now r lo hi (date_count days) out.old w out.new result }
{
    let first = days.first;
    let count = civil::day_count(first, days.last);
    let set = r.days;
    let mut n = w;
    for i in 0..count {
        let d = civil::later(first, i);
        if rule::applies(set, d) {
            n = date_into(pack, r, days, d, lo, hi, out, n);
        }
    }
    n
}

// Adds what the rule has in a window of at most seven days, which has at most 14 dates, to the first w blocks.
pub fn rule_into(pack: &[u8], r: Rule, lo: Instant, hi: Instant, out: &mut [u64], w: usize) -> usize
    requires { RuleFits pack.now r × Window 7 lo hi × PairsReady out.old w 14 }
    ensures { RuleAdded pack.now r lo hi 14 out.old w out.new result }
{
    let z = r.zone;
    let days = window_dates::local_dates(pack, r.at, r.len, z, lo, hi);
    let f = window_piece::frame_of(days, lo, hi);
    if f.first == 0 {
        return dates_into(pack, r, days, lo, hi, out, w);
    }
    let from = r.from;
    let to = r.to;
    let a = window_piece::time_in(from);
    let b = window_piece::till(a, window_piece::time_in(to));
    let count = civil::day_count(days.first, days.last);
    plain_into(f, days.first, count, r.days, a, b, out, w)
}
