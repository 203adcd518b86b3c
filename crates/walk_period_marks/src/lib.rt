// The marks of a period's two ends: each is that of the block which has this end in the window of the walk where the period begins or ends.
#![tactic(auto)]

ghost use Rattle.std.specs.Prelude.{◌≡◌, if◌then◌else◌};
ghost use Rattle.model.specs.Marks.{plain, window_of_start, window_of_end};
ghost use Rattle.mark.specs.Marks.{mark_number};
ghost use Rattle.instant.specs.Instant.{nanos, InRange};
ghost use Rattle.rule.specs.Rules.{ScheduleFits};
ghost use Rattle.walk_distance.specs.Distances.{way_of, Short};
ghost use Rattle.walk_period.specs.Found.{PeriodFits};
ghost use Rattle.walk_period_marks.specs.PeriodMarked.{InWindow, IsBorder, IsSpan, PlainWhere, IsPeriodMarks};

use instant::{Instant, Length};
use mark::Mark;
use rule::Schedule;
use walk_distance::Ends;
use window_marks::{Border, Marks};

// The distance at which the window begins that has a period's nearer border at the distance x: whole weeks.
fn window_of_start(x: Length) -> Length
    requires { Short x }
    ensures { (nanos result ≡ window_of_start (nanos x)) × Short result }
{
    Length {
        sec: x.sec / instant::WEEK * instant::WEEK,
        ns: 0,
    }
}

// The same of its further border: one at a window's end is of that window.
fn window_of_end(x: Length) -> Length
    requires { Short x }
    ensures { (nanos result ≡ window_of_end (nanos x)) × Short result }
{
    if 0 < x.ns {
        return window_of_start(x);
    }
    if x.sec == 0 {
        return x;
    }
    window_of_start(Length {
        sec: x.sec - 1,
        ns: 0,
    })
}

// The start and the end of the period between two distances from t.
fn ends_of(t: Instant, back: bool, f: Length, e: Length) -> Ends
    requires { InRange t × PeriodFits (way_of back) (nanos t) f e }
    ensures { IsSpan (way_of back) (nanos t) (nanos f) (nanos e) result }
{
    let near = walk_distance::at(t, back, f);
    let far = walk_distance::at(t, back, e);
    if back {
        Ends { lo: far, hi: near }
    } else {
        Ends { lo: near, hi: far }
    }
}

// The border at the distance d from t, in the window that begins at the distance x.
fn border_at(t: Instant, back: bool, x: Length, d: Length) -> Border
    requires { InWindow t back x d }
    ensures { IsBorder (way_of back) (nanos t) (nanos x) (nanos d) result }
{
    let y = walk_distance::window_end(x, walk_distance::reach(t, back));
    let window = walk_distance::place(t, back, x, y);
    Border {
        at: walk_distance::at(t, back, d),
        lo: window.lo,
        hi: window.hi,
    }
}

// The second of two borders, or else the first.
fn second_if(second: bool, a: Border, b: Border) -> Border
    ensures { result ≡ (if second then b else a) }
{
    if second { b } else { a }
}

// Are both ends of the period plain at once, because all zones keep one offset from before its start to after its end?
pub fn is_plain(
    book: &[u8],
    pack: &[u8],
    s: Schedule,
    t: Instant,
    back: bool,
    f: Length,
    e: Length,
) -> bool
    requires { ScheduleFits book.now pack.now s × InRange t × PeriodFits (way_of back) (nanos t) f e }
    ensures { PlainWhere book.now pack.now s t back f e result }
{
    let ends = ends_of(t, back, f, e);
    window_marks::is_steady(book, pack, s, ends.lo, ends.hi)
}

// The marks of a period whose ends are plain.
pub fn plain_marks() -> Marks
    ensures { (mark_number result.start ≡ plain) × (mark_number result.end ≡ plain) }
{
    Marks {
        start: Mark::Plain,
        end: Mark::Plain,
    }
}

// The marks of the period between the distances f and e from t, on or back. Going on the nearer border is its start, going back it is its end.
pub fn period_marks(
    book: &[u8],
    pack: &[u8],
    s: Schedule,
    t: Instant,
    back: bool,
    f: Length,
    e: Length,
) -> Marks
    requires { ScheduleFits book.now pack.now s × InRange t × PeriodFits (way_of back) (nanos t) f e }
    ensures { IsPeriodMarks book.now pack.now s t back f e result }
{
    let near = border_at(t, back, window_of_start(f), f);
    let far = border_at(t, back, window_of_end(e), e);
    let start = second_if(back, near, far);
    let end = second_if(back, far, near);
    window_marks::edge_marks(book, pack, s, start, end)
}
