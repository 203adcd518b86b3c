// The working time of weeks for a program in C that times it (bench/week): of many weeks of one book, in place. The book is built once in a call.
// Seconds are counted from -10400-01-01T00:00:00Z.
#![tactic(auto)]

ghost use Rattle.std.specs.Prelude.{◌≡◌};
ghost use Rattle.rule.specs.Rules.{schedule_is, ScheduleFits};
ghost use Rattle.bench_week.specs.Weeks.{week_in, WeeksBy, WeeksIn};

use instant::Instant;
use rule::Schedule;
use window_memory::{ALL, Memory};

// The working time of the week that begins at the second x, in whole seconds, and 0 for a week beyond the range.
fn week(book: &[u8], pack: &[u8], s: Schedule, x: u64, memory: &mut Memory<ALL>) -> u64
    requires { ScheduleFits book.now pack.now s }
    ensures { result ≡ week_in (schedule_is book.now pack.now s) x }
{
    if x < instant::FIRST {
        return 0;
    }
    if instant::LAST - instant::WEEK < x {
        return 0;
    }
    let lo = Instant { sec: x, ns: 0 };
    let hi = Instant {
        sec: x + instant::WEEK,
        ns: 0,
    };
    let n = window_week::working_in(book, pack, s, lo, hi, memory);
    block_pairs::total(&memory.out, n) / instant::SECOND
}

// Puts the working time of the week that begins at each second in its place. The memory for a week's blocks is lent once for all.
fn weeks(book: &[u8], pack: &[u8], s: Schedule, xs: &mut [u64], memory: &mut Memory<ALL>)
    requires { ScheduleFits book.now pack.now s }
    ensures { WeeksBy book.now pack.now s xs.old xs.new }
{
    for x in xs.iter_mut() {
        *x = week(book, pack, s, *x, memory);
    }
}

// Puts the working time of the week that begins at each second in its place. A book that is refused changes nothing.
#[unsafe(no_mangle)]
pub extern "C" fn bench_week_times(book: &[u8], pack: &[u8], xs: &mut [u64])
    ensures { WeeksIn book.now pack.now xs.old xs.new }
{
    let Ok(s) = build::build(book, pack) else {
        return;
    };
    weeks(book, pack, s, xs, &mut Memory::<ALL>::new());
}
