// Blocks of time as pairs of numbers in lent memory: the start and the end of the first block, then those of the second, and so on. The numbers are
// distances from one instant. No list is copied: a function reads and writes the memory that its caller lends.
#![tactic(auto)]

ghost use Rattle.std.specs.Prelude.{◌≡◌, ◌+◌, ◌*◌, ◌-◌, ◌≤◌, ◌<◌, length};
ghost use Rattle.model.specs.Blocks.{subtract, total};
ghost use Rattle.laws_blocks.specs.Members.{Normal, NonEmpty};
ghost use Rattle.block_pairs.specs.Pairs.{pairs, Holds, word_end, Becomes, StartsTo, EndsFrom, Raised, Lowered, inserted, absorbed, union_with, appended, Subtracted, CutTo};

// ---- a block more

// How many of the first n blocks, which are sorted and apart, do not start behind e. Most often that is all of them, so the last one is asked first. Else
// the search goes over starts and ends alike, since they rise in turn: every second number is a start, the first one too.
fn started(l: &[u64], n: usize, e: u64) -> usize
    requires { Normal (pairs n l.now) × Holds n l.now }
    ensures { StartsTo l.now n e result }
{
    if 0 < n && l[2 * n - 2] <= e {
        return n;
    }
    l[..2 * n].partition_point(|x| *x <= e).div_ceil(2)
}

// How many of the first n blocks end before s, counted from the end.
fn ended(l: &[u64], n: usize, s: u64) -> usize
    requires { Holds n l.now }
    ensures { EndsFrom l.now n s result }
{
    for i in (0..n).rev() {
        if l[2 * i + 1] < s {
            return i + 1;
        }
    }
    0
}

// [s, e) between the first i blocks and the others.
fn insert(l: &mut [u64], n: usize, i: usize, s: u64, e: u64) -> usize
    requires { (i ≤ n) × (2 * n + 2 ≤ length l.old) }
    ensures { Becomes l.old l.new result (n + 1) (inserted n i s e l.old) }
{
    l.copy_within(2 * i..2 * n, 2 * i + 2);
    l[2 * i] = s;
    l[2 * i + 1] = e;
    n + 1
}

// [s, e) and the blocks from j to i made one. There are such blocks.
fn absorb(l: &mut [u64], n: usize, j: usize, i: usize, s: u64, e: u64) -> usize
    requires { (j < i) × (i ≤ n) × Holds n l.old }
    ensures { Becomes l.old l.new result (n + 1) (absorbed n j i s e l.old) }
{
    let from = s.min(l[2 * j]);
    let to = e.max(l[2 * i - 1]);
    if j + 1 < i {
        l.copy_within(2 * i..2 * n, 2 * j + 2);
    }
    l[2 * j] = from;
    l[2 * j + 1] = to;
    n - (i - j) + 1
}

// Adds [s, e) to the first n blocks, which are sorted and apart: those that overlap or touch become one. The memory has room for a block more.
pub fn add(l: &mut [u64], n: usize, s: u64, e: u64) -> usize
    requires { Normal (pairs n l.old) × (2 * n + 2 ≤ length l.old) }
    ensures { Becomes l.old l.new result (n + 1) (union_with n s e l.old) }
{
    if e <= s {
        return n;
    }
    let i = started(l, n, e);
    let j = ended(l, i, s);
    if i == j {
        return insert(l, n, i, s, e);
    }
    absorb(l, n, j, i, s, e)
}

// ---- blocks taken away

// [s, e) stored behind the first w blocks, and counted if it holds anything.
fn emit(out: &mut [u64], w: usize, s: u64, e: u64) -> usize
    requires { 2 * w + 2 ≤ length out.old }
    ensures { Becomes out.old out.new result (w + 1) (appended w s e out.old) }
{
    out[2 * w] = s;
    out[2 * w + 1] = e;
    if s < e { w + 1 } else { w }
}

// How many blocks are written, and how many gaps are passed.
#[derive(Clone, Copy)]
pub struct Cut {
    pub w: usize,
    pub j: usize,
}

// [s, e) without the gaps from j to m, stored behind the first w blocks. The gaps passed reach no block that starts at e or later.
fn cut_into(off: &[u64], j: usize, m: usize, s: u64, e: u64, out: &mut [u64], w: usize) -> Cut
    requires { (s ≤ e) × (j ≤ m) × Holds m off.now × Holds (w + (m - j) + 1) out.old }
    ensures { CutTo off.now j m s e out.old w out.new result.w result.j }
{
    let mut from = s;
    let mut n = w;
    for k in j..m {
        let a = off[2 * k];
        let b = off[2 * k + 1];
        if from < b {
            if e <= a {
                return Cut {
                    w: emit(out, n, from, e),
                    j: k,
                };
            }
            n = emit(out, n, from, a);
            if e <= b {
                return Cut { w: n, j: k };
            }
            from = b;
        }
    }
    Cut {
        w: emit(out, n, from, e),
        j: m,
    }
}

// The first n blocks of `on` without the first m of `off`, by one walk over both. The blocks of `on` are sorted and apart. There is room for n + m.
pub fn subtract(on: &[u64], n: usize, off: &[u64], m: usize, out: &mut [u64]) -> usize
    requires { Normal (pairs n on.now) × Holds n on.now × Holds m off.now × Holds (n + m) out.old }
    ensures { Subtracted on.now n off.now m out.old out.new result }
{
    let mut w: usize = 0;
    let mut j: usize = 0;
    for i in 0..n {
        let c = cut_into(off, j, m, on[2 * i], on[2 * i + 1], out, w);
        w = c.w;
        j = c.j;
    }
    w
}

// ---- the sum

// The sum of the lengths of the first n blocks.
pub fn total(l: &[u64], n: usize) -> u64
    requires { Holds n l.now × NonEmpty (pairs n l.now) × (total (pairs n l.now) < word_end) }
    ensures { result ≡ total (pairs n l.now) }
{
    let mut sum: u64 = 0;
    for i in 0..n {
        sum += l[2 * i + 1] - l[2 * i];
    }
    sum
}
