// The stretches of a listing, block by block: a block that touches the open stretch makes it longer, any other ends it and begins the next. Where they
// are to be written, each stretch that ends is written as four numbers behind those before it. The blocks of a window come as pairs of numbers in lent
// memory, distances from the window's start.
#![tactic(auto)]

ghost use Rattle.std.specs.Prelude.{◌≡◌, true, [], ◌∷◌, ◌+◌, ◌*◌, ◌/◌, ◌%◌, ◌≤◌, ◌<◌, ltb, length, pos};
ghost use Rattle.model.specs.Instant.{second, instant};
ghost use Rattle.instant.specs.Instant.{nanos, most, InRange};
ghost use Rattle.instant_signed.specs.Reads.{seconds_from};
ghost use Rattle.block.specs.Counted.{block_of};
ghost use Rattle.walk_list_week.specs.Stretched.{placed, stored, block_from, blocks_from, SmallBlock, StretchReady, Joins, CanFinish, Finishes};

use block::Block;
use instant::Instant;

// The numbers of a stretch, two for each of its ends, and where those of its second end stand.
pub const STRETCH_SIZE: usize = 4;

const END_AT: usize = 2;

// How many stretches have ended, and the one that is still open, if there is one.
#[derive(Clone, Copy)]
pub struct Open {
    pub block: Option<Block>,
    pub count: usize,
}

// The seconds of t from 1970.
fn seconds(t: Instant) -> i64
    requires { nanos t < most }
    ensures { result ≡ seconds_from (nanos t / second) }
{
    instant_signed::seconds_of(t.sec + t.ns as u64 / instant::SECOND)
}

// The nanoseconds of t behind its seconds.
fn rest(t: Instant) -> i64
    ensures { result ≡ pos (nanos t % second) }
{
    (t.ns as u64 % instant::SECOND) as i64
}

// Writes the two numbers of t at i.
fn write_instant(out: &mut [i64], i: usize, t: Instant)
    requires { (i + 2 ≤ length out.old) × (nanos t < most) }
    ensures { out.new ≡ placed i (instant (nanos t)) out.old }
{
    let s = seconds(t);
    let n = rest(t);
    let j = i + 1;
    out[i] = s;
    out[j] = n;
}

// Writes the four numbers of b behind those of the first k stretches, where `write` is set.
fn put(out: &mut [i64], write: bool, k: usize, b: Block)
    requires { (write ≡ true → 4 * k + 4 ≤ length out.old) × SmallBlock (block_of b) }
    ensures { out.new ≡ stored write k (block_of b ∷ []) out.old }
{
    if !write {
        return;
    }
    let s = b.start;
    let e = b.end;
    let i = STRETCH_SIZE * k;
    write_instant(out, i, s);
    write_instant(out, i + END_AT, e);
}

// There is a gap between the end of b and the start of x.
fn is_apart(b: Block, x: Block) -> bool
    ensures { result ≡ ltb (nanos b.end) (nanos x.start) }
{
    let e = b.end;
    let s = x.start;
    instant::precedes(e, s)
}

// The instant x nanoseconds after t.
fn after(t: Instant, x: u64) -> Instant
    requires { InRange t }
    ensures { nanos result ≡ x + nanos t }
{
    instant::sum(t, instant::from_nanoseconds(x))
}

// Block i of l, whose numbers are distances from lo.
fn block_at(l: &[u64], i: usize, lo: Instant) -> Block
    requires { (2 * i + 2 ≤ length l.now) × InRange lo }
    ensures { block_of result ≡ block_from lo l.now i }
{
    let start = after(lo, l[2 * i]);
    let end = after(lo, l[2 * i + 1]);
    Block { start, end }
}

// Goes on with the blocks of a window that begins at lo, the first n of l: a block that touches the open stretch makes it longer, any other ends it, and
// is open then. What ends is counted, and written where `write` is set.
pub fn join_window(
    l: &[u64],
    n: usize,
    lo: Instant,
    prev: Open,
    write: bool,
    out: &mut [i64],
) -> Open
    requires { StretchReady (blocks_from lo n l.now) prev write out.old × (2 * n ≤ length l.now) × InRange lo }
    ensures { Joins (blocks_from lo n l.now) prev write out.old out.new result }
{
    let mut last = prev.block;
    let mut count = prev.count;
    for i in 0..n {
        let x = block_at(l, i, lo);
        if let Some(b) = last {
            if is_apart(b, x) {
                put(out, write, count, b);
                count += 1;
                last = Some(x);
            } else {
                last = Some(block::join(b, x));
            }
        } else {
            last = Some(x);
        }
    }
    Open { block: last, count }
}

// Ends the stretch that is open, where there is one, and tells how many stretches there are.
pub fn finish(last: Open, write: bool, out: &mut [i64]) -> usize
    requires { CanFinish last write out.old }
    ensures { Finishes last write out.old out.new result }
{
    let Some(b) = last.block else {
        return last.count;
    };
    put(out, write, last.count, b);
    last.count + 1
}
