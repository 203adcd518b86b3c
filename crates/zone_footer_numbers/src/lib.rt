// The signs and numbers of a footer: marks, numbers, times of a clock, offsets and rule times. Each function reads at a place of the text, and equals the parser
// of the model's Footer on what stands from that place on: it gives the place behind what it read, or None where that is not there.
#![tactic(auto)]

ghost use Rattle.std.specs.Prelude.{◌≡◌, ◌≤◌, ◌<◌, drop, length};
ghost use Rattle.std.proofs.Math.Option.{some};
ghost use Rattle.model.specs.Footer as grammar;
ghost use Rattle.model.specs.Footer.{most_rule_hours, latest_clock, latest_time};
ghost use Rattle.model.specs.Offset.{offset_bias, greatest_offset};
ghost use Rattle.zone_footer_numbers.specs.Numbered.{three_digits, IsNumber, mark_in};

// The seconds of a minute and of an hour.
const MINUTE: u32 = 60;

pub const HOUR: u32 = 3600;

// What is added to a rule time, which may lie before its day: a week.
pub const TIME_BIAS: u32 = 604800;

// The most hours of an offset, of a rule time in version 2, and of one in version 3.
const MOST_HOURS: u32 = 24;

const MOST_RULE_HOURS: u32 = 167;

// The version of zone files whose rule times have signs, and hours of up to three digits.
const WIDE_VERSION: usize = b'3' as usize;

// Whether a sign is a -, and the place behind it.
#[derive(Clone, Copy)]
struct SignAt {
    minus: bool,
    end: usize,
}

// Whether the byte at the place is b: the place behind it.
pub fn mark(s: &[u8], at: usize, b: u8) -> Option<usize>
    ensures { mark_in s.now at result ≡ grammar.has b (drop at s.now) }
{
    if at < s.len() && s[at] == b {
        Some(at + 1)
    } else {
        None
    }
}

// At most k digits, and the place behind them.
fn digits(s: &[u8], at: usize, k: usize) -> (u32, usize)
    requires { k ≤ 3 }
    ensures { (some (result.0, drop result.1 s.now) ≡ grammar.digits k 0 (drop at s.now)) × (result.0 ≤ three_digits) }
{
    let end = at.saturating_add(k).min(s.len());
    let mut n = 0;
    for i in at..end {
        if !s[i].is_ascii_digit() {
            return (n, i);
        }
        n = n * 10 + u32::from(s[i] - b'0');
    }
    (n, end)
}

// A number of 1 to k digits, from lo to hi.
#[tactic(auto, unfolding(model::specs::Footer::number))]
pub fn number(s: &[u8], at: usize, k: usize, lo: u32, hi: u32) -> Option<(u32, usize)>
    requires { k ≤ 3 }
    ensures { IsNumber (grammar.number k lo hi) s.now at hi result }
{
    if at >= s.len() || !s[at].is_ascii_digit() {
        return None;
    }
    let (n, end) = digits(s, at, k);
    if n < lo || hi < n {
        return None;
    }
    Some((n, end))
}

// Two digits, up to 59.
#[tactic(auto, unfolding(model::specs::Footer::sixty))]
fn sixty(s: &[u8], at: usize) -> Option<(u32, usize)>
    ensures { IsNumber grammar.sixty s.now at 59 result }
{
    let (x, a) = number(s, at, 1, 0, 5)?;
    let (y, b) = number(s, a, 1, 0, 9)?; // one digit is too few
    Some((x * 10 + y, b))
}

// hh, hh:mm or hh:mm:ss, in seconds: hours of 1 to k digits, up to hi.
#[tactic(auto, unfolding(model::specs::Footer::clock))]
fn clock(s: &[u8], at: usize, k: usize, hi: u32) -> Option<(u32, usize)>
    requires { (k ≤ 3) × (hi ≤ most_rule_hours) }
    ensures { IsNumber (grammar.clock k hi) s.now at (latest_clock hi) result }
{
    let (h, a) = number(s, at, k, 0, hi)?;
    let Some(b) = mark(s, a, b':') else {
        return Some((h * HOUR, a));
    };
    let (m, d) = sixty(s, b)?;
    let Some(e) = mark(s, d, b':') else {
        return Some((h * HOUR + m * MINUTE, d));
    };
    let (x, f) = sixty(s, e)?;
    Some((h * HOUR + m * MINUTE + x, f))
}

// A sign, which may be missing.
#[tactic(auto, unfolding(model::specs::Footer::sign))]
fn sign(s: &[u8], at: usize) -> SignAt
    ensures { some (result.minus, drop result.end s.now) ≡ grammar.sign (drop at s.now) }
{
    if let Some(end) = mark(s, at, b'-') {
        return SignAt { minus: true, end };
    }
    SignAt {
        minus: false,
        end: mark(s, at, b'+').unwrap_or(at),
    }
}

// An offset: POSIX counts west of Greenwich.
#[tactic(auto, unfolding(model::specs::Footer::offset, model::specs::Footer::signed_clock))]
pub fn offset(s: &[u8], at: usize) -> Option<(u32, usize)>
    ensures { IsNumber grammar.offset s.now at greatest_offset result }
{
    let east = sign(s, at);
    let (t, a) = clock(s, east.end, 2, MOST_HOURS)?;
    if east.minus {
        return Some((zone_offset::BIAS + t, a));
    }
    Some((zone_offset::BIAS - t, a))
}

// A time with a sign, which is that of its minutes and seconds too.
#[tactic(auto, unfolding(model::specs::Footer::signed_time, model::specs::Footer::signed_clock))]
fn signed_time(s: &[u8], at: usize) -> Option<(u32, usize)>
    ensures { IsNumber grammar.signed_time s.now at latest_time result }
{
    let before = sign(s, at);
    let (t, a) = clock(s, before.end, 3, MOST_RULE_HOURS)?;
    if before.minus {
        return Some((TIME_BIAS - t, a));
    }
    Some((TIME_BIAS + t, a))
}

// The time of a change, with TIME_BIAS added, in a zone file of the given version.
#[tactic(auto, unfolding(model::specs::Footer::rule_time))]
pub fn rule_time(s: &[u8], at: usize, version: usize) -> Option<(u32, usize)>
    ensures { IsNumber (grammar.rule_time version) s.now at latest_time result }
{
    if version == WIDE_VERSION {
        return signed_time(s, at);
    }
    let (t, a) = clock(s, at, 2, MOST_HOURS)?;
    Some((TIME_BIAS + t, a))
}
