// The blocks of work or break rules in a window of at most 14 days, in a block list that is filled from the front, rule by rule and date by date. A block's
// borders are nanoseconds from the window's start. And whether there is any, for which no list is made.
#![tactic(auto)]

ghost use Rattle.std.specs.Prelude.{◌≡◌, ◌+◌, ◌≤◌, ◌<◌, length};
ghost use Rattle.model.specs.Blocks.{clipped};
ghost use Rattle.model.specs.DayNumber.{day_of};
ghost use Rattle.model.specs.Walk.{onward};
ghost use Rattle.instant.specs.Instant.{nanos};
ghost use Rattle.block_list.specs.Listed.{capacity};
ghost use Rattle.rule.specs.Rules.{RuleFits};
ghost use Rattle.zone_local.specs.Dates as date;
ghost use Rattle.window_dates.specs.Windows.{Window, most_window_dates, rule_piece, rule_blocks};
ghost use Rattle.window_piece.specs.Filled.{InFortnight};
ghost use Rattle.build_blocks.specs.Shown.{held_block, any_block, date_shows, blocks_shown, IsShifts, ShiftsDate, RulesIn, RuleAdded, Listed};

use block_list::{Block, Blocks};
use instant::Instant;
use rule::Rule;
use window_dates::LocalDates;
use window_piece::Frame;

// ---- one date

// The part of [s, e) in [lo, hi), from lo, if it holds anything.
fn clipped(s: u64, e: u64, lo: u64, hi: u64) -> Option<Block>
    ensures { held_block result ≡ onward lo (clipped lo hi s e) }
{
    let from = s.max(lo);
    let to = e.min(hi);
    if from < to {
        Some(Block {
            start: from - lo,
            end: to - lo,
        })
    } else {
        None
    }
}

// x from lo, if it holds anything.
fn away(x: block::Block, lo: Instant) -> Option<Block>
    requires { InFortnight lo x }
    ensures { held_block result ≡ onward (nanos lo) (date.held x) }
{
    if instant::precedes(x.start, x.end) {
        Some(Block {
            start: window_piece::since(lo, x.start),
            end: window_piece::since(lo, x.end),
        })
    } else {
        None
    }
}

// A rule in a window: its dates, their frame, and the times of day of start and end, from a date's midnight.
#[derive(Clone, Copy)]
pub struct Shifts {
    pub days: LocalDates,
    pub frame: Frame,
    pub from: u64,
    pub to: u64,
}

// Those of the rule in the window.
fn shifts_of(pack: &[u8], r: Rule, lo: Instant, hi: Instant) -> Shifts
    requires { RuleFits pack.now r × Window 14 lo hi }
    ensures { IsShifts pack.now r lo hi result }
{
    let z = r.zone;
    let days = window_dates::local_dates(pack, r.at, r.len, z, lo, hi);
    let frame = window_piece::frame_of(days, lo, hi);
    let a = r.from;
    let b = r.to;
    let from = window_piece::time_in(a);
    let to = window_piece::till(from, window_piece::time_in(b));
    Shifts {
        days,
        frame,
        from,
        to,
    }
}

// What the rule shows of a date in the window: by the frame, where one offset holds around the window; else each end is looked up.
fn piece_at(pack: &[u8], r: Rule, x: Shifts, day: i32, lo: Instant, hi: Instant) -> Option<Block>
    requires { ShiftsDate pack.now r x (day_of day) lo hi }
    ensures { held_block result ≡ onward (nanos lo) (rule_piece pack.now r lo hi (day_of day)) }
{
    let f = x.frame;
    let days = x.days;
    if f.first == 0 {
        return away(window_dates::piece_of(pack, r, days, day, lo, hi), lo);
    }
    let k = f.first + civil::days_from(days.first, day) as u64 * window_piece::DAY_NANOS;
    clipped(k + x.from, k + x.to, f.lo, f.hi)
}

// The same where the rule takes the date; of another date it shows nothing.
fn piece_on(pack: &[u8], r: Rule, x: Shifts, day: i32, lo: Instant, hi: Instant) -> Option<Block>
    requires { ShiftsDate pack.now r x (day_of day) lo hi }
    ensures { held_block result ≡ onward (nanos lo) (date_shows pack.now r lo hi (day_of day)) }
{
    if rule::applies(r.days, day) {
        piece_at(pack, r, x, day, lo, hi)
    } else {
        None
    }
}

// ---- whether there is a block

// Does the rule show anything in the window? Its dates are gone through up to the first of which it does.
fn shows(pack: &[u8], r: Rule, lo: Instant, hi: Instant) -> bool
    requires { RuleFits pack.now r × Window 14 lo hi }
    ensures { result ≡ any_block (rule_blocks pack.now r lo hi) }
{
    let x = shifts_of(pack, r, lo, hi);
    let days = x.days;
    let first = days.first;
    let count = civil::day_count(first, days.last);
    for k in 0..count {
        if piece_on(pack, r, x, civil::later(first, k), lo, hi).is_some() {
            return true;
        }
    }
    false
}

// Does any of the first n rules show anything in the window? They are gone through up to the first that does.
pub fn any_shows(
    rules: [Rule; book::MOST_WORK],
    n: usize,
    pack: &[u8],
    lo: Instant,
    hi: Instant,
) -> bool
    requires { RulesIn pack.now rules n lo hi }
    ensures { result ≡ any_block (blocks_shown pack.now rules n lo hi) }
{
    for i in 0..n {
        if shows(pack, rules[i], lo, hi) {
            return true;
        }
    }
    false
}

// ---- a list

// Adds the blocks of a rule, of which it shows at most one on each of 21 dates.
fn rule_into(pack: &[u8], r: Rule, lo: Instant, hi: Instant, out: &mut Blocks)
    requires { RuleFits pack.now r × Window 14 lo hi × (out.old.len + most_window_dates ≤ capacity) × (length out.old.items ≡ capacity) }
    ensures { RuleAdded pack.now r lo hi out.old out.new }
{
    let x = shifts_of(pack, r, lo, hi);
    let days = x.days;
    let first = days.first;
    let count = civil::day_count(first, days.last);
    for k in 0..count {
        if let Some(y) = piece_on(pack, r, x, civil::later(first, k), lo, hi) {
            out.items[out.len] = y;
            out.len += 1;
        }
    }
}

// The blocks of the first n rules, in a list that starts as one block value repeated. A rule shows at most 21 dates of 14 days, so 16 rules have at most 336.
pub fn shift_blocks(
    rules: [Rule; book::MOST_WORK],
    n: usize,
    pack: &[u8],
    lo: Instant,
    hi: Instant,
) -> Blocks
    requires { RulesIn pack.now rules n lo hi }
    ensures { Listed pack.now rules n lo hi result }
{
    let mut out = block_list::empty();
    for i in 0..n {
        rule_into(pack, rules[i], lo, hi, &mut out);
    }
    out
}
