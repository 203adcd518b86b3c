// The working time of a window of at most seven days as pairs of numbers in lent memory: the blocks' borders in nanoseconds from the window's start.
// No list is copied.
#![tactic(auto)]

ghost use Rattle.rule.specs.Rules.{ScheduleFits};
ghost use Rattle.window_dates.specs.Windows.{Window};
ghost use Rattle.window_week.specs.Room.{HasRoom, Lends};
ghost use Rattle.window_week.specs.Resolved.{Resolved, ResolvedInto};

use instant::Instant;
use rule::Schedule;
use window_memory::Memory;

// Work without breaks and holidays, in a window of at most seven days: how many blocks `out` has afterwards, as distances from lo. `on` and `off` are
// lent for the work and for what is taken from it. The three loops stand in one function because a call with a schedule copies it.
pub fn working_into(
    book: &[u8],
    pack: &[u8],
    s: Schedule,
    lo: Instant,
    hi: Instant,
    on: &mut [u64],
    off: &mut [u64],
    out: &mut [u64],
) -> usize
    requires { ScheduleFits book.now pack.now s × Window 7 lo hi × Lends s on.old off.old out.old }
    ensures { ResolvedInto book.now pack.now s lo hi result out.old out.new }
{
    let mut n: usize = 0;
    for r in &s.work[..s.works] {
        n = window_workday::rule_into(pack, *r, lo, hi, on, n);
    }
    let mut m: usize = 0;
    for r in &s.breaks[..s.pauses] {
        m = window_workday::rule_into(pack, *r, lo, hi, off, m);
    }
    for c in &s.closed[..s.closings] {
        m = window_holiday::holidays_into(book, pack, *c, lo, hi, off, m);
    }
    block_pairs::subtract(on, n, off, m, out)
}

// The same in a walk's memory: the blocks stand in `memory.out` afterwards.
pub fn working_in<const N: usize>(
    book: &[u8],
    pack: &[u8],
    s: Schedule,
    lo: Instant,
    hi: Instant,
    memory: &mut Memory<N>,
) -> usize
    requires { ScheduleFits book.now pack.now s × Window 7 lo hi × HasRoom s N }
    ensures { Resolved book.now pack.now s lo hi result memory.new.out }
{
    working_into(
        book,
        pack,
        s,
        lo,
        hi,
        &mut memory.on,
        &mut memory.off,
        &mut memory.out,
    )
}
