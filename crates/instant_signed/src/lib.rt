// Instants and durations as the calls take and give them, pairs of signed numbers. Inside, instants and lengths of time are unsigned. A signed number
// can also stand as the unsigned one that is 2^63 more.
#![tactic(auto)]

ghost use Rattle.std.specs.Prelude.{◌≡◌, ◌+◌, ◌-◌, ◌≤◌, ◌<◌, ◌^◌, false};
ghost use Rattle.model.specs.Instant.{instant_of, instant, duration_of};
ghost use Rattle.instant.specs.Instant.{nanos, Exact};
ghost use Rattle.instant_signed.specs.Signed.{biased, unbiased};
ghost use Rattle.instant_signed.specs.Reads.{instant_read, seconds_from, instant_numbers};
ghost use Rattle.instant_signed.specs.Durations.{signed_pair, duration_read, fitting_pair, negation};

use instant::{EPOCH, FIRST, Instant, LAST, Length, SECOND, SECOND_32};

// 2^63: what the unsigned number is more, and the number that stands for 0.
pub const HALF: u64 = 9223372036854775808;

// The least signed number, -2^63.
const LEAST: i64 = -9223372036854775808;

// The seconds of the first and the last instant, counted from 1970.
const EARLIEST: i64 = FIRST as i64 - EPOCH as i64;

const LATEST: i64 = LAST as i64 - EPOCH as i64;

// x + 2^63
#[tactic(auto, unfolding(crate::specs::Signed::biased))]
pub fn lift(x: i64) -> u64
    ensures { result ≡ biased x }
{
    if x < 0 {
        return (x - LEAST) as u64;
    }
    x as u64 + HALF
}

// k - 2^63
#[tactic(auto, unfolding(crate::specs::Signed::unbiased))]
pub fn lower(k: u64) -> i64
    ensures { result ≡ unbiased k }
{
    if k < HALF {
        return k as i64 + LEAST;
    }
    (k - HALF) as i64
}

// The instant of seconds from 1970 and nanoseconds, or none: the numbers are outside the range.
pub fn instant_of(sec: i64, ns: i64) -> Option<Instant>
    ensures { result ≡ instant_read (instant_of sec ns) }
{
    if sec < EARLIEST || LATEST < sec || ns < 0 || SECOND as i64 <= ns {
        return None;
    }
    Some(Instant {
        sec: (sec + EPOCH as i64) as u64,
        ns: ns as u32,
    })
}

// The seconds from 1970 of a second that is counted from -10400.
#[tactic(auto, unfolding(crate::specs::Reads::seconds_from))]
pub fn seconds_of(sec: u64) -> i64
    requires { sec < 2 ^ 63 }
    ensures { result ≡ seconds_from sec }
{
    sec as i64 - EPOCH as i64
}

// An instant as the calls give it: seconds from 1970 and nanoseconds.
#[derive(Clone, Copy, Debug, PartialEq, Eq)]
pub struct SignedInstant {
    pub sec: i64,
    pub ns: i64,
}

// An instant as the calls give it.
#[tactic(auto, unfolding(model::specs::Instant::instant, crate::specs::Reads::seconds_from))]
pub fn signed_instant(t: Instant) -> SignedInstant
    requires { (t.sec < 2 ^ 63) × Exact t }
    ensures { instant_numbers result ≡ instant (nanos t) }
{
    SignedInstant {
        sec: seconds_of(t.sec),
        ns: i64::from(t.ns),
    }
}

// Seconds and nanoseconds that never have opposite signs, the nanoseconds below 10^9 in size.
#[derive(Clone, Copy)]
pub struct Duration {
    pub secs: i64,
    pub nanos: i64,
}

// A sign and a size.
#[derive(Clone, Copy)]
pub struct SignedLength {
    pub minus: bool,
    pub length: Length,
}

// The sign and the size of a duration, or none: the numbers are no duration.
pub fn duration_of(secs: i64, nanos: i64) -> Option<SignedLength>
    ensures { result ≡ duration_read (duration_of secs nanos) }
{
    let minus = secs < 0 || nanos < 0;
    if SECOND <= nanos.unsigned_abs() {
        return None;
    }
    if minus && (0 < secs || 0 < nanos) {
        return None;
    }
    Some(SignedLength {
        minus,
        length: Length {
            sec: secs.unsigned_abs(),
            ns: nanos.unsigned_abs() as u32,
        },
    })
}

// The duration of a sign and a size that fits.
#[tactic(auto, unfolding(crate::specs::Signed::unbiased))]
pub fn pair(minus: bool, sec: u64, ns: u32) -> Duration
    requires { (sec ≤ 2 ^ 63) × (minus ≡ false → sec < 2 ^ 63) }
    ensures { result ≡ signed_pair minus sec ns }
{
    if minus {
        return Duration {
            secs: lower(HALF - sec),
            nanos: -(ns as i64),
        };
    }
    Duration {
        secs: sec as i64,
        nanos: ns as i64,
    }
}

// Why a sign and a size make no duration: the seconds do not fit, or they are no sign and size of one.
#[derive(Clone, Copy, Debug, PartialEq, Eq)]
pub enum DurationError {
    OutOfRange,
    Malformed,
}

// The duration of a sign and a size.
#[tactic(auto, unfolding(crate::specs::Durations::fitting_pair))]
pub fn duration_from(x: SignedLength) -> Result<Duration, DurationError>
    ensures { result ≡ fitting_pair x.minus x.length.sec x.length.ns }
{
    let d = x.length;
    if SECOND_32 <= d.ns {
        return Err(DurationError::Malformed);
    }
    if HALF < d.sec || !x.minus && HALF == d.sec {
        return Err(DurationError::OutOfRange);
    }
    Ok(pair(x.minus, d.sec, d.ns))
}

// The duration of the same size and the other sign.
pub fn negate(d: Duration) -> Result<Duration, DurationError>
    ensures { result ≡ negation d.secs d.nanos }
{
    let Some(x) = duration_of(d.secs, d.nanos) else {
        return Err(DurationError::Malformed);
    };
    duration_from(SignedLength {
        minus: !x.minus,
        length: x.length,
    })
}
