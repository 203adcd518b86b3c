// Instants and lengths of time, both as seconds and nanoseconds; an instant's are counted from -10400-01-01T00:00:00Z. The nanoseconds may reach 10^9 and
// more: they carry. What a sum or a difference gives has them below 10^9.
#![tactic(auto)]

ghost use Rattle.std.specs.Prelude.{◌≡◌, ◌+◌, ◌*◌, ◌-◌, ◌<◌, ◌^◌, min, max, ltb};
ghost use Rattle.instant.specs.Instant.{nanos, most, Exact};

// The nanoseconds of a second.
pub const SECOND: u64 = 1000000000;

// The same as a count of nanoseconds in an instant.
pub const SECOND_32: u32 = SECOND as u32;

// The seconds of a day and of a window.
pub const DAY: u64 = 86400;

pub const WEEK: u64 = 604800;

// The second of 1970-01-01T00:00:00Z.
pub const EPOCH: u64 = 390359520000;

// The seconds of the first and of the last instant, and the last one's nanoseconds.
pub const FIRST: u64 = 12654496799;

pub const LAST: u64 = 643761727200;

pub const LAST_NS: u32 = 999999999;

// A count of nanoseconds is less than so many seconds.
const CARRY: u64 = 5;

// These in nanoseconds.
const CARRY_NS: u64 = CARRY * SECOND;

#[derive(Clone, Copy)]
pub struct Instant {
    pub sec: u64,
    pub ns: u32,
}

// A length of time. It has the shape of an instant: the instant that lies so long after the one from which instants are counted.
pub type Length = Instant;

// a is before b. A count of nanoseconds is less than 5 seconds, so seconds further apart than that decide alone.
pub fn precedes(a: Instant, b: Instant) -> bool
    ensures { result ≡ ltb (nanos a) (nanos b) }
{
    if a.sec <= b.sec {
        let d = b.sec - a.sec;
        if CARRY <= d {
            return true;
        }
        (a.ns as u64) < (b.ns as u64) + d * SECOND
    } else {
        let d = a.sec - b.sec;
        if CARRY <= d {
            return false;
        }
        (a.ns as u64) + d * SECOND < (b.ns as u64)
    }
}

// The earlier of the two.
pub fn earlier(a: Instant, b: Instant) -> Instant
    ensures { nanos result ≡ min (nanos a) (nanos b) }
{
    if precedes(b, a) {
        return b;
    }
    a
}

// The later of the two.
pub fn later(a: Instant, b: Instant) -> Instant
    ensures { nanos result ≡ max (nanos a) (nanos b) }
{
    if precedes(a, b) {
        return b;
    }
    a
}

// The sum of two lengths; the instant that is a length after another.
pub fn sum(a: Length, b: Length) -> Length
    requires { Exact a × Exact b × (nanos a + nanos b < most) }
    ensures { (nanos result ≡ nanos a + nanos b) × Exact result }
{
    let ns = a.ns + b.ns;
    let sec = a.sec + b.sec;
    if ns < SECOND_32 {
        return Length { sec, ns };
    }
    Length {
        sec: sec + 1,
        ns: ns - SECOND_32,
    }
}

// What a has more than b, nothing where b has as much or more. The five seconds lent to the nanoseconds keep them from going below zero: a count of
// nanoseconds is less than that.
pub fn difference(a: Length, b: Length) -> Length
    requires { nanos a - nanos b < most }
    ensures { (nanos result ≡ nanos a - nanos b) × Exact result }
{
    if !precedes(b, a) {
        return Length { sec: 0, ns: 0 };
    }
    let x = (a.ns as u64) + CARRY_NS - (b.ns as u64);
    let c = x / SECOND;
    let ns = (x % SECOND) as u32;
    if b.sec <= a.sec {
        let sec = a.sec - b.sec + c - CARRY;
        return Length { sec, ns };
    }
    let sec = c - CARRY - (b.sec - a.sec);
    Length { sec, ns }
}

// A number of nanoseconds as a length of time.
pub fn from_nanoseconds(n: u64) -> Length
    ensures { (nanos result ≡ n) × Exact result }
{
    Length {
        sec: n / SECOND,
        ns: (n % SECOND) as u32,
    }
}

// A length of time in nanoseconds.
pub fn nanoseconds(x: Length) -> u64
    requires { nanos x < 2 ^ 64 }
    ensures { result ≡ nanos x }
{
    x.sec * SECOND + x.ns as u64
}
