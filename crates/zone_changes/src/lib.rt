// The changes that a footer makes: the day and the second of a change in a year, the latest change at or before a second and the next
// one, and the footer's offset with the second up to which it stays. Years and seconds are counted from -10400-01-01.
#![tactic(auto)]

ghost use Rattle.std.specs.Prelude.{◌≡◌, ℕ, ◌-◌, ◌≤◌, ◌<◌, IfSome};
ghost use Rattle.model.specs.DayNumber.{signed_day};
ghost use Rattle.model.specs.Footer as model;
ghost use Rattle.model.specs.Zone.{year_at, ruled_at};
ghost use Rattle.zone_footer.specs.Parsed.{day_is, change_rule_is};
ghost use Rattle.laws_zone.specs.FooterChanges.{DayFits, ChangeRuleFits};
ghost use Rattle.laws_zone.specs.Grammar.{FooterFits};
ghost use Rattle.instant.specs.Instant.{years_end};
ghost use Rattle.model.specs.Offset.{greatest_offset};
ghost use Rattle.zone_changes.specs.Meaning.{last_year, changes_end, footer_rules, the_footer, IsOffset, Near, ByTwoChanges};

use zone_footer::{ChangeRule, Day, Footer, Rules};

// A mean year of the calendar and four weeks, in seconds.
const MEAN_YEAR: u64 = 31556952;

const FOUR_WEEKS: u64 = 2419200;

// The least time from a change to the next of its kind, 349 days.
const LEAST_YEAR: u64 = 30153600;

// What is added to a second where no change follows: more than there are seconds in the calendar's years.
const FAR: u64 = 1099511627776;

// 29 February as a day of its year, the first of which is 1.
const LEAP_DAY: u32 = 60;

// The latest change at or before a second, 0 if there is none, and the first one behind it.
#[derive(Clone, Copy)]
pub struct Changes {
    pub last: u64,
    pub next: u64,
}

// An offset, and a second up to which it stays: not always the next change.
#[derive(Clone, Copy)]
pub struct OffsetUntil {
    pub offset: u32,
    pub until: u64,
}

// Mm.w.d: the w-th weekday d of the month, where week 5 is the last.
fn month_day(year: u32, m: u32, w: u32, d: u32) -> i32
    requires { (year ≤ last_year) × (1 ≤ m) × (m ≤ 12) × (1 ≤ w) × (w ≤ 5) × (d ≤ 6) }
    ensures { result ≡ signed_day (model.day_in year (model.month m w d)) }
{
    let leap = civil::is_leap(year);
    let first = civil::later(civil::year_start(year), civil::days_before_month(leap, m));
    let n = (d + 13 - civil::weekday_of(first)) % 7 + 7 * (w - 1);
    if n < civil::days_in_month(leap, m) {
        return civil::later(first, n);
    }
    civil::later(first, n - 7)
}

// Jn: 29 February is never counted.
fn julian_day(year: u32, n: u32) -> i32
    requires { (year ≤ last_year) × (1 ≤ n) × (n ≤ 365) }
    ensures { result ≡ signed_day (model.day_in year (model.julian n)) }
{
    let first = civil::year_start(year);
    if !civil::is_leap(year) {
        return civil::later(first, n - 1);
    }
    if n < LEAP_DAY {
        return civil::later(first, n - 1);
    }
    civil::later(first, n)
}

// The day of a change in a year.
pub fn day_in(day: Day, year: u32) -> i32
    requires { DayFits (day_is day) × (year ≤ last_year) }
    ensures { result ≡ signed_day (model.day_in year (day_is day)) }
{
    match day {
        Day::Month {
            month,
            week,
            weekday,
        } => month_day(year, month, week, weekday),
        Day::Julian(n) => julian_day(year, n),
        Day::Plain(n) => civil::later(civil::year_start(year), n),
    }
}

// The second of a change in a year, by a clock that shows the given offset.
pub fn change_in(offset: u32, rule: ChangeRule, year: u32) -> u64
    requires { ChangeRuleFits (change_rule_is rule) × (year ≤ last_year) }
    ensures { result ≡ model.change_in offset (change_rule_is rule) year }
{
    (civil::midnight(day_in(rule.day, year))
        + u64::from(rule.time)
        + zone_offset::BIAS_64).saturating_sub(zone_footer::TIME_BIAS_64 + u64::from(offset))
}

// The first of the years whose changes may be the latest at u: two before u's year.
fn first_year(u: u64) -> u32
    requires { u < years_end }
    ensures { (result ≡ year_at u - 2) × (result ≤ last_year - 4) }
{
    civil::year_of(civil::day_at(u)).saturating_sub(2)
}

// The changes around u.
pub fn around(offset: u32, rule: ChangeRule, u: u64) -> Changes
    requires { ChangeRuleFits (change_rule_is rule) × (offset ≤ greatest_offset) × (u < years_end) }
    ensures { Near (model.change_in offset (change_rule_is rule)) u result.last result.next }
{
    let first = first_year(u);
    let fourth = change_in(offset, rule, first + 3);
    if fourth <= u {
        return Changes {
            last: fourth,
            next: change_in(offset, rule, first + 4),
        };
    }
    let mut next = fourth;
    for year in (first..first + 3).rev() {
        let last = change_in(offset, rule, year);
        if last <= u {
            return Changes { last, next };
        }
        next = last;
    }
    Changes { last: 0, next }
}

// The offset at u by two changes of one year: the first is at p, and the second, more than four weeks later, at q. Between them the offset is
// `inner`, before and behind them `outer`. None where they do not decide.
fn by_two_changes(inner: u32, outer: u32, p: u64, q: u64, u: u64) -> Option<OffsetUntil>
    requires { (p < changes_end) × (u < years_end) }
    ensures { IfSome result (λ r. ByTwoChanges inner outer p q u r.offset r.until × (u < r.until)) }
{
    if u < p {
        return (q <= u + LEAST_YEAR).then_some(OffsetUntil {
            offset: outer,
            until: p,
        });
    }
    if u < q {
        return (q < p + LEAST_YEAR).then_some(OffsetUntil {
            offset: inner,
            until: q,
        });
    }
    (u < p + LEAST_YEAR).then_some(OffsetUntil {
        offset: outer,
        until: p + LEAST_YEAR,
    })
}

// The offset at u by the two changes of one year, that of u or the next to it. None where they do not decide: they lie close together, or u lies
// close to the year's end and one of them does too.
fn by_one_year(rules: Rules, u: u64) -> Option<OffsetUntil>
    requires { FooterFits (footer_rules rules) × (u < years_end) }
    ensures { IfSome result (λ r. (last : ℕ) → IsOffset (ruled_at (footer_rules rules) last) u r) }
{
    let year = (u / MEAN_YEAR) as u32;
    if year < 2 {
        return None;
    }
    let a = change_in(rules.std, rules.start, year);
    let b = change_in(rules.dst, rules.end, year);
    if a + FOUR_WEEKS < b {
        return by_two_changes(rules.dst, rules.std, a, b, u);
    }
    if b + FOUR_WEEKS < a {
        return by_two_changes(rules.std, rules.dst, b, a, u);
    }
    None
}

// The offset at u by the latest changes of all years.
fn by_all_years(rules: Rules, u: u64) -> OffsetUntil
    requires { FooterFits (footer_rules rules) × (u < years_end) }
    ensures { (last : ℕ) → IsOffset (ruled_at (footer_rules rules) last) u result }
{
    let a = around(rules.std, rules.start, u);
    let b = around(rules.dst, rules.end, u);
    let until = a.next.min(b.next);
    if b.last <= a.last {
        return OffsetUntil {
            offset: rules.dst,
            until,
        };
    }
    OffsetUntil {
        offset: rules.std,
        until,
    }
}

// The offset at u where the footer counts; `last` is the table's last offset, which an empty footer leaves.
#[tactic(auto, unfolding(model::specs::Zone::ruled_at))]
pub fn footer_run_at(footer: Footer, last: u32, u: u64) -> OffsetUntil
    requires { FooterFits (the_footer footer) × (u < years_end) }
    ensures { IsOffset (ruled_at (the_footer footer) last) u result }
{
    match footer {
        Footer::Empty => OffsetUntil {
            offset: last,
            until: u + FAR,
        },
        Footer::Fixed(offset) => OffsetUntil {
            offset,
            until: u + FAR,
        },
        Footer::Rules(rules) => match by_one_year(rules, u) {
            Some(run) => run,
            None => by_all_years(rules, u),
        },
    }
}
