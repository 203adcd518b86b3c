// The marks of a ticket: an array of at most eight with its own count, by value, in the order in which they were set. A mark has a name, and says whether the ticket
// was running there and which time had elapsed.
#![tactic(auto)]

ghost use Rattle.std.specs.Prelude.{◌≡◌, [], ◌∷◌, ◌+◌, ◌≤◌, ◌<◌, length};
ghost use Rattle.instant.specs.Instant.{nanos, InRange};
ghost use Rattle.model_ticket.specs.History.{up_to};
ghost use Rattle.ticket_marks.specs.Marks.{capacity, latest, count_to, marks_in, has_name, others, is_within, is_mark_at, are_marks};

use instant::{Instant, Length};

// How many marks there are: one for each name, 0 to 7.
pub const CAPACITY: usize = 8;

pub const NAMES: u64 = 8;

// A mark. The time is what had elapsed there.
#[derive(Clone, Copy)]
pub struct Mark {
    pub name: u64,
    pub running: bool,
    pub time: Length,
}

// The first `len` items are set, the latest last. An array with its count: a ticket is copied, and a vector of a fixed capacity is not `Copy`.
#[derive(Clone, Copy)]
pub struct Marks {
    pub items: [Mark; CAPACITY],
    pub len: usize,
}

// No mark is set.
pub fn no_marks() -> Marks
    ensures { (marks_in result ≡ []) × (result.len ≡ 0) }
{
    let x = Mark {
        name: 0,
        running: false,
        time: Length { sec: 0, ns: 0 },
    };
    Marks {
        items: [x; CAPACITY],
        len: 0,
    }
}

// Sets one more mark.
pub fn push(m: Marks, x: Mark) -> Marks
    requires { m.len < capacity }
    ensures { (marks_in result ≡ x ∷ marks_in m) × (result.len ≡ m.len + 1) }
{
    let n = m.len;
    let mut r = m;
    r.items[n] = x;
    r.len = n + 1;
    r
}

// Where among the first n marks the latest of that name stands.
pub fn find(m: Marks, n: usize, name: u64) -> Option<usize>
    requires { n ≤ capacity }
    ensures { (latest (count_to result) m.items ≡ up_to (has_name name) (latest n m.items)) × (count_to result ≤ n) }
{
    for i in (0..n).rev() {
        if m.items[i].name == name {
            return Some(i);
        }
    }
    None
}

// Those up to the n-th.
pub fn first(m: Marks, n: usize) -> Marks
    ensures { (marks_in result ≡ latest n m.items) × (result.len ≡ n) }
{
    let mut r = m;
    r.len = n;
    r
}

// The marks of other names.
fn without(m: Marks, name: u64) -> Marks
    requires { m.len ≤ capacity }
    ensures { marks_in result ≡ others name (marks_in m) }
{
    let mut r = no_marks();
    for i in 0..m.len {
        let x = m.items[i];
        if x.name != name {
            r = push(r, x);
        }
    }
    r
}

// Sets a mark. One of its name that is set moves: its earlier place is gone.
pub fn set(m: Marks, x: Mark) -> Marks
    requires { (m.len ≤ capacity) × (length (others x.name (marks_in m)) < capacity) }
    ensures { (marks_in result ≡ x ∷ others x.name (marks_in m)) × (result.len ≤ capacity) }
{
    push(without(m, x.name), x)
}

// ---- which marks a ticket may have

// Whether a length has less than a second of nanoseconds and is no longer than the time from the first instant to t.
pub fn is_within(d: Length, t: Instant) -> bool
    requires { InRange t }
    ensures { result ≡ is_within d (nanos t) }
{
    let first = Instant {
        sec: instant::FIRST,
        ns: 0,
    };
    d.ns < instant::SECOND_32 && !instant::precedes(instant::difference(t, first), d)
}

// Whether a mark has one of the eight names and a time that is within.
fn is_mark(x: Mark, t: Instant) -> bool
    requires { InRange t }
    ensures { result ≡ is_mark_at (nanos t) x }
{
    x.name < NAMES && is_within(x.time, t)
}

// Whether these can be the marks of a ticket whose last command was at t.
pub fn are_marks(m: Marks, t: Instant) -> bool
    requires { (m.len ≤ capacity) × InRange t }
    ensures { result ≡ are_marks (nanos t) (marks_in m) }
{
    for i in 0..m.len {
        let x = m.items[i];
        if !is_mark(x, t) || find(m, i, x.name).is_some() {
            return false;
        }
    }
    true
}
