// A zone file (TZif, RFC 8536): what makes it usable, where its parts stand, and its table of transitions.
// `read` decides once whether a file is usable and answers where its table and its footer stand; the lookups then read the file by place.
// The footer's text is not read here: a caller parses it. What `read` and the lookups mean is in specs/, that it is the definitions' meaning in proofs/Bridge.antt.
#![tactic(auto)]

ghost use Rattle.std.specs.Prelude.{◌≡◌, ◌+◌, ◌*◌, ◌≤◌, ◌<◌, min, max, length};
ghost use Rattle.model.specs.Offset.{greatest_offset};
ghost use Rattle.zone_tzif_head.specs.Heads.{SmallHead};
ghost use Rattle.zone_tzif_block.specs.Parts.{blocks_end, tail_at};
ghost use Rattle.zone_tzif.specs.Places.{layout_at, read_of, time_at, offset_after};
ghost use Rattle.zone_tzif.specs.Opened.{Opened, TableBounds, count_at, utc_layout};

use zone_tzif_head::Head;

// Where a file's version stands.
pub const VERSION_AT: usize = 4;

// How far before its block a header has the number of types.
const TYPES_BEFORE: usize = 8;

// The key of second 0, -10400-01-01T00:00:00Z: 2^63 less the second of 1970.
const FIRST_KEY: u64 = 9223371646495255808;

// Where a usable file's table stands: the number of transitions, the place of their times, the offset before the first, and
// the place and the length of the footer.
#[derive(Clone, Copy)]
pub struct Layout {
    pub count: usize,
    pub times: usize,
    pub initial: u32,
    pub line: usize,
    pub len: usize,
}

// The least and the greatest of some offsets.
#[derive(Clone, Copy)]
pub struct OffsetBounds {
    pub least: u64,
    pub greatest: u64,
}

// The layout of the block that starts at b and has the header h.
#[tactic(auto, unfolding(crate::specs::Places::layout_at))]
fn layout_at(f: &[u8], b: usize, h: Head) -> Layout
    requires { (b < blocks_end) × SmallHead h × (tail_at b h + 1 < length f.now) }
    ensures { result ≡ layout_at f.now b h }
{
    let t = zone_tzif_block::tail_at(b, h);
    Layout {
        count: h.times,
        times: b,
        initial: zone_tzif_block::offset_is(big_endian::be32_at(
            f,
            b + h.times * zone_tzif_block::TRANSITION_SIZE,
        )),
        line: t + 1,
        len: f.len() - (t + 2),
    }
}

// Where a file's table and footer stand, if the file is usable in all but its footer's text.
#[tactic(auto, unfolding(crate::specs::Places::read_of, crate::specs::Places::usable, crate::specs::Places::layout_of))]
pub fn read(f: &[u8]) -> Option<Layout>
    ensures { result ≡ read_of f.now }
{
    if !zone_tzif_head::head_ok(f, 0) {
        return None;
    }
    let s = zone_tzif_head::second_at(f);
    if !zone_tzif_head::head_ok(f, s) {
        return None;
    }
    let h = zone_tzif_head::head_at(f, s);
    let b = s + zone_tzif_head::HEADER_SIZE;
    if big_endian::small_at(f, VERSION_AT) == h.version && zone_tzif_block::block_ok(f, b, h) {
        Some(layout_at(f, b, h))
    } else {
        None
    }
}

// UTC has a table without a file.
pub fn utc() -> Layout
    ensures { result ≡ utc_layout }
{
    Layout {
        count: 0,
        times: 0,
        initial: zone_offset::BIAS,
        line: 0,
        len: 0,
    }
}

// ---- lookups in the table of a layout that `read` or `utc` gave

// Transition i's time as a second from -10400, 0 for an earlier one.
#[tactic(auto, using(zone_tzif_block::proofs::Numbers::key_is), unfolding(crate::specs::Places::time_at))]
pub fn time_at(f: &[u8], l: Layout, i: usize) -> u64
    requires { Opened f.now l × (i < l.count) }
    ensures { result ≡ time_at f.now l i }
{
    let v = big_endian::eight_at(f, l.times + zone_tzif_block::TIME_SIZE * i);
    zone_tzif_block::key_of(v).saturating_sub(FIRST_KEY)
}

// How many transitions are at or before the second u: a search that halves what is left. Its steps do not depend on u, only what they read.
// The library's searches by halves take a slice, and these times are read out of the file's bytes.
fn count_by_halves(f: &[u8], l: Layout, u: u64) -> usize
    requires { Opened f.now l × (1 ≤ l.count) }
    ensures { (result ≡ count_at f.now l u) × (result ≤ l.count) }
{
    let mut lo: usize = 0;
    let mut n: usize = l.count;
    while n > 1 {
        let half = n / 2;
        if time_at(f, l, lo + half - 1) <= u {
            lo += half;
            n -= half;
        } else {
            n -= half;
        }
    }
    if time_at(f, l, lo) <= u {
        return lo + 1;
    }
    lo
}

// How many transitions are at or before the second u. Most often all of them are, or u lies in the table's years.
pub fn count_at(f: &[u8], l: Layout, u: u64) -> usize
    requires { Opened f.now l }
    ensures { (result ≡ count_at f.now l u) × (result ≤ l.count) }
{
    let n = l.count;
    if n == 0 {
        return 0;
    }
    if time_at(f, l, n - 1) <= u {
        return n;
    }
    count_by_halves(f, l, u)
}

// The offset after k transitions.
pub fn table_offset(f: &[u8], l: Layout, k: usize) -> u32
    requires { Opened f.now l × (k ≤ l.count) }
    ensures { (result ≡ offset_after f.now l k) × (1 ≤ result) × (result ≤ greatest_offset) }
{
    if k == 0 {
        return l.initial;
    }
    let kinds = l.times + l.count * zone_tzif_block::TIME_SIZE;
    let types = l.times + l.count * zone_tzif_block::TRANSITION_SIZE;
    let kind = big_endian::small_at(f, kinds + (k - 1));
    zone_tzif_block::offset_is(big_endian::be32_at(f, types + zone_tzif_head::TYPE_SIZE * kind))
}

// ---- bounds of the table's offsets

// Bounds that hold for the offset o too.
pub fn widened(b: OffsetBounds, o: u64) -> OffsetBounds
    ensures { (result.least ≡ min b.least o) × (result.greatest ≡ max b.greatest o) }
{
    OffsetBounds {
        least: b.least.min(o),
        greatest: b.greatest.max(o),
    }
}

// Bounds of the table's offsets: those of all types that the file has.
pub fn table_bounds(f: &[u8], l: Layout) -> OffsetBounds
    requires { Opened f.now l }
    ensures { TableBounds f.now l result }
{
    let first = u64::from(l.initial);
    let mut bounds = OffsetBounds {
        least: first,
        greatest: first,
    };
    if l.count == 0 {
        return bounds;
    }
    let types = l.times + l.count * zone_tzif_block::TRANSITION_SIZE;
    let n = big_endian::size_at(f, l.times - TYPES_BEFORE);
    for i in 0..n {
        let at = types + zone_tzif_head::TYPE_SIZE * i;
        let o = zone_tzif_block::offset_is(big_endian::be32_at(f, at));
        bounds = widened(bounds, u64::from(o));
    }
    bounds
}
