// The list of the marked blocks of one rule: an array of blocks with its own count, by value. A block is its start and its end, the end excluded, each an instant
// with its mark. And what blocks show around an instant u: whether they hold it and the one before it, and which marks their starts and ends there have.
#![tactic(auto)]

ghost use Rattle.std.specs.Prelude.{◌≡◌, [], ℕ, map, max, eqb, if◌then◌else◌};
ghost use Rattle.model.specs.Marks.{plain, edge, marked};
ghost use Rattle.laws_marks.specs.Around as marks;
ghost use Rattle.laws_marks.specs.AroundLaws.{both_around, around_block};
ghost use Rattle.instant.specs.Instant.{nanos};
ghost use Rattle.mark.specs.Marks.{mark_number};
ghost use Rattle.block_marked.specs.Marked.{marked_is, marked_list, around_is, SidesOf, BothSides};

use instant::Instant;
use mark::Mark;

// How many blocks a list holds: 14 days show a rule at most 21 dates.
pub const CAPACITY: usize = 21;

// A block [start, end), with the marks of its ends.
#[derive(Clone, Copy)]
pub struct MarkedBlock {
    pub start: Instant,
    pub end: Instant,
    pub start_mark: Mark,
    pub end_mark: Mark,
}

// What stands in the places of a list that are not used: no time, with plain ends.
impl Default for MarkedBlock {
    ghost is_default = { λ b. marked_is b ≡ marked (edge 0 plain) (edge 0 plain) };

    fn default() -> MarkedBlock {
        let t = Instant { sec: 0, ns: 0 };
        MarkedBlock {
            start: t,
            end: t,
            start_mark: Mark::Plain,
            end_mark: Mark::Plain,
        }
    }
}

// The first `len` items are the list.
#[derive(Clone, Copy)]
pub struct MarkedBlocks {
    pub items: [MarkedBlock; CAPACITY],
    pub len: usize,
}

// What blocks show around an instant.
#[derive(Clone, Copy)]
pub struct Around {
    // one of them holds the instant before it, and one holds the instant itself
    pub before: bool,
    pub here: bool,
    // the greatest mark of the starts that lie there, and of the ends
    pub starts: Mark,
    pub ends: Mark,
}

// What blocks show around two instants: the start and the end of a period.
#[derive(Clone, Copy)]
pub struct Sides {
    pub start: Around,
    pub end: Around,
}

// No block: one block value repeated, of which none is used.
pub fn empty_marked() -> MarkedBlocks
    ensures { (marked_list result ≡ []) × (result.len ≡ 0) }
{
    MarkedBlocks {
        items: [MarkedBlock::default(); CAPACITY],
        len: 0,
    }
}

// ---- one block

// The instant before u lies in b.
fn holds_before(b: MarkedBlock, u: Instant) -> bool
    ensures { result ≡ marks.holds_before (nanos u) (marked_is b) }
{
    instant::precedes(b.start, u) && !instant::precedes(b.end, u)
}

// The instant u lies in b.
fn holds_at(b: MarkedBlock, u: Instant) -> bool
    ensures { result ≡ marks.holds_at (nanos u) (marked_is b) }
{
    !instant::precedes(u, b.start) && instant::precedes(u, b.end)
}

// The mark m of an end, if that is u.
fn mark_there(end: Instant, m: Mark, u: Instant) -> Mark
    ensures { mark_number result ≡ (if eqb (nanos end) (nanos u) then mark_number m else plain) }
{
    if instant::precedes(end, u) || instant::precedes(u, end) {
        Mark::Plain
    } else {
        m
    }
}

// What the block shows around u.
fn around_block(b: MarkedBlock, u: Instant) -> Around
    ensures { around_is result ≡ around_block (nanos u) (marked_is b) }
{
    Around {
        before: holds_before(b, u),
        here: holds_at(b, u),
        starts: mark_there(b.start, b.start_mark, u),
        ends: mark_there(b.end, b.end_mark, u),
    }
}

// ---- more than one

// Of two marks the greater is kept.
fn greater_mark(a: Mark, b: Mark) -> Mark
    ensures { mark_number result ≡ max (mark_number a) (mark_number b) }
{
    a.max(b)
}

// What two lists show together.
fn together(a: Around, b: Around) -> Around
    ensures { around_is result ≡ both_around (around_is a) (around_is b) }
{
    Around {
        before: a.before || b.before,
        here: a.here || b.here,
        starts: greater_mark(a.starts, b.starts),
        ends: greater_mark(a.ends, b.ends),
    }
}

// What no block shows.
fn nothing_shown() -> Around
    ensures { (u : ℕ) → around_is result ≡ marks.around_of u [] }
{
    Around {
        before: false,
        here: false,
        starts: Mark::Plain,
        ends: Mark::Plain,
    }
}

// What the blocks of a list show around u.
pub fn shown_around(l: &[MarkedBlock], u: Instant) -> Around
    ensures { around_is result ≡ marks.around_of (nanos u) (map marked_is l.now) }
{
    let mut a = nothing_shown();
    for x in l {
        a = together(a, around_block(*x, u));
    }
    a
}

// ---- around two instants

// What the blocks of a list show around a and around b.
pub fn shown_at(l: &[MarkedBlock], a: Instant, b: Instant) -> Sides
    ensures { SidesOf (nanos a) (nanos b) (map marked_is l.now) result }
{
    Sides {
        start: shown_around(l, a),
        end: shown_around(l, b),
    }
}

// What no block shows around any two instants.
pub fn no_sides() -> Sides
    ensures { (a : ℕ) (b : ℕ) → SidesOf a b [] result }
{
    let start = nothing_shown();
    let end = start;
    Sides { start, end }
}

// What two lists show together.
pub fn both_sides(x: Sides, y: Sides) -> Sides
    ensures { BothSides x y result }
{
    Sides {
        start: together(x.start, y.start),
        end: together(x.end, y.end),
    }
}

// ---- the mark of a start or an end

// The mark of a start at u, by what work and what breaks with holidays show around u.
pub fn start_by(work: Around, off: Around) -> Mark
    ensures { mark_number result ≡ marks.start_by (around_is work) (around_is off) }
{
    if !work.here || off.here {
        Mark::Plain
    } else if !work.before {
        work.starts
    } else if off.before {
        off.ends
    } else {
        Mark::Plain
    }
}

// The mark of an end at u, its mirror image.
pub fn end_by(work: Around, off: Around) -> Mark
    ensures { mark_number result ≡ marks.end_by (around_is work) (around_is off) }
{
    if !work.before || off.before {
        Mark::Plain
    } else if !work.here {
        work.ends
    } else if off.here {
        off.starts
    } else {
        Mark::Plain
    }
}

#[cfg(test)]
mod tests {
    use super::*;

    // A place that is not used shows nothing, also where its block stands.
    #[test]
    fn default_shows_nothing(rt: HostRuntime) {
        let t = Instant { sec: 0, ns: 0 };
        let shown = shown_around(&[MarkedBlock::default()], t);
        assert!(rt; !shown.before && !shown.here);
        assert!(rt; shown.starts == Mark::Plain && shown.ends == Mark::Plain);
    }
}
