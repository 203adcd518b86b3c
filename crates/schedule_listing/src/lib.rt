// The listing: all stretches of working time from one instant to another, as four signed numbers each in a lent slice. Where the numbers may be too few the
// stretches are counted first, and where they are too few none is written.
#![tactic(auto)]

ghost use Rattle.std.specs.Prelude.{◌*◌, ◌-◌, ◌≤◌};
ghost use Rattle.model.specs.Calls as model;
ghost use Rattle.model.specs.Walk.{begun};
ghost use Rattle.instant.specs.Instant.{nanos, InRange};
ghost use Rattle.rule.specs.Rules.{ScheduleFits};
ghost use Rattle.schedule_listing.specs.Listings.{CanWalk, Puts, Suffices, ListsAs, list_in};
ghost use Rattle.window_week.specs.Room.{HasRoom};
ghost use Rattle.window_memory.specs.Sizes.{most_rules};

use instant::Instant;
use refusal::{Refusal, Refused};
use rule::Schedule;
use walk_list_week::Open;
use window_memory::{ALL, FOUR, Memory, ONE, Size};

// The most dates of a rule that a window shows.
const DATES: usize = 14;

// Walks the windows from a to b and tells how many stretches they have. They are written to the front of `out` where `write` is set. The blocks of a
// window stand in `memory.out` as pairs of numbers.
fn walk_into<const N: usize>(
    book: &[u8],
    pack: &[u8],
    s: Schedule,
    a: Instant,
    b: Instant,
    write: bool,
    memory: &mut Memory<N>,
    out: &mut [i64],
) -> usize
    requires { CanWalk book.now pack.now s a b write out.old × HasRoom s N }
    ensures { Puts book.now pack.now s a b write out.old out.new result }
{
    let mut lo = a;
    let mut last = Open {
        block: None,
        count: 0,
    };
    while instant::precedes(lo, b) {
        let hi = walk_distance::window_end(lo, b);
        let n = window_week::working_in(book, pack, s, lo, hi, memory);
        last = walk_list_week::join_window(&memory.out, n, lo, last, write, out);
        lo = hi;
    }
    walk_list_week::finish(last, write, out)
}

// The same with memory for the blocks of a window.
fn walk(
    book: &[u8],
    pack: &[u8],
    s: Schedule,
    a: Instant,
    b: Instant,
    write: bool,
    out: &mut [i64],
) -> usize
    requires { CanWalk book.now pack.now s a b write out.old }
    ensures { Puts book.now pack.now s a b write out.old out.new result }
{
    match window_memory::size_for(s.works + s.pauses + s.closings) {
        Size::One => walk_into(book, pack, s, a, b, write, &mut Memory::<ONE>::new(), out),
        Size::Four => walk_into(book, pack, s, a, b, write, &mut Memory::<FOUR>::new(), out),
        Size::All => walk_into(book, pack, s, a, b, write, &mut Memory::<ALL>::new(), out),
    }
}

// No fewer than the stretches from a to b that so many rules can make: in a window each rule shows at most 14 dates, and of each date one block.
fn at_most(rules: usize, a: Instant, b: Instant) -> usize
    requires { (rules ≤ most_rules) × InRange a × InRange b }
    ensures { begun (nanos b - nanos a) * (14 * rules) ≤ result }
{
    if b.sec < a.sec {
        return 0;
    }
    let windows = (b.sec - a.sec) / instant::WEEK + 1;
    windows as usize * (DATES * rules)
}

// There is room for all stretches from a to b. They are counted only where the numbers are so few that it is in doubt.
fn has_room(book: &[u8], pack: &[u8], s: Schedule, a: Instant, b: Instant, out: &mut [i64]) -> bool
    requires { ScheduleFits book.now pack.now s × InRange a × InRange b }
    ensures { Suffices book.now pack.now s a b out.old out.new result }
{
    let room = out.len() / walk_list_week::STRETCH_SIZE;
    if at_most(s.works + s.pauses + s.closings, a, b) <= room {
        return true;
    }
    walk(book, pack, s, a, b, false, out) <= room
}

// Lists the stretches from a to b of a schedule that is built, if there is room for all, and answers how many they are.
pub fn list_in(
    book: &[u8],
    pack: &[u8],
    s: Schedule,
    a_sec: i64,
    a_ns: i64,
    b_sec: i64,
    b_ns: i64,
    out: &mut [i64],
) -> Result<usize, Refused>
    requires { ScheduleFits book.now pack.now s }
    ensures { ListsAs out.old out.new result
        (list_in book.now pack.now s a_sec a_ns b_sec b_ns out.old) }
{
    let a = instant_signed::instant_of(a_sec, a_ns).ok_or(Refusal::InstantOutOfRange)?;
    let b = instant_signed::instant_of(b_sec, b_ns).ok_or(Refusal::InstantOutOfRange)?;
    if !has_room(book, pack, s, a, b, out) {
        return Err(Refusal::TooFewNumbers.into());
    }
    Ok(walk(book, pack, s, a, b, true, out))
}

// Lists the stretches of working time from a to b, by the book and the pack: all maximal ones, as start second, nanoseconds, end second, nanoseconds, and
// answers how many they are. Numbers behind the last stretch stay, and all stay where it is refused.
pub fn list(
    book: &[u8],
    pack: &[u8],
    a_sec: i64,
    a_ns: i64,
    b_sec: i64,
    b_ns: i64,
    out: &mut [i64],
) -> Result<usize, Refused>
    ensures { ListsAs out.old out.new result
        (model.list book.now pack.now a_sec a_ns b_sec b_ns out.old) }
{
    // Not by `?`: that copies the schedule.
    match build::build(book, pack) {
        Ok(s) => list_in(book, pack, s, a_sec, a_ns, b_sec, b_ns, out),
        Err(r) => Err(r),
    }
}
