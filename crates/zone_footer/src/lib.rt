// A footer: nothing, or a POSIX TZ string as zone files of a version may have it. Each function reads at a place of the text, and equals the parser of the model's Footer
// on what stands from that place on: it gives the place behind what it read, or None where that is not there.
#![tactic(auto)]

ghost use Rattle.std.specs.List.{prefix_len};
ghost use Rattle.std.specs.Prelude.{◌≡◌, ◌≤◌, drop};
ghost use Rattle.model.specs.Footer as grammar;
ghost use Rattle.model.specs.Offset.{greatest_offset};
ghost use Rattle.zone_footer_numbers.specs.Numbered.{skip_in};
ghost use Rattle.zone_footer.specs.Parsed.{day_from, change_rule_from, rules_text, footer_from};

// What is added to the time of a change.
pub const TIME_BIAS_64: u64 = zone_footer_numbers::TIME_BIAS as u64;

// The time of a change where none is written, 02:00:00.
const DEFAULT_TIME: u32 = zone_footer_numbers::TIME_BIAS + 2 * zone_footer_numbers::HOUR;

// The fewest bytes of a name.
const SHORTEST_NAME: usize = 3;

// A day of the year: Mm.w.d, Jn and n.
#[derive(Clone, Copy)]
pub enum Day {
    Month { month: u32, week: u32, weekday: u32 },
    Julian(u32),
    Plain(u32),
}

// A change: its day, and its second of that day by the clock that it ends, with TIME_BIAS_64 added.
#[derive(Clone, Copy)]
pub struct ChangeRule {
    pub day: Day,
    pub time: u32,
}

// Daylight time: the standard offset, the daylight offset, and the start and the end of daylight time. That they are in bounds is proved once, of the
// whole text (laws_zone), so it stands in the contracts that need it and not in the type: the parser would have to prove it number by number.
#[derive(Clone, Copy)]
pub struct Rules {
    pub std: u32,
    pub dst: u32,
    pub start: ChangeRule,
    pub end: ChangeRule,
}

// A footer. Offsets are kept with zone_offset::BIAS added.
#[derive(Clone, Copy)]
pub enum Footer {
    Empty,
    Fixed(u32),
    Rules(Rules),
}

// A byte of a name: a letter; between < and > also a digit, + or -.
#[tactic(auto, unfolding(model::specs::Footer::is_name_byte))]
fn name_byte(quoted: bool, b: u8) -> bool
    ensures { result ≡ grammar.is_name_byte quoted b }
{
    b.is_ascii_alphabetic() || (quoted && (b.is_ascii_digit() || b == b'+' || b == b'-'))
}

// How many bytes from the place on a name has.
fn name_length(s: &[u8], at: usize, quoted: bool) -> usize
    ensures { result ≡ prefix_len (grammar.is_name_byte quoted) (drop at s.now) }
{
    s.iter()
        .skip(at)
        .take_while(|b| name_byte(quoted, **b))
        .count()
}

// Three bytes or more, plain or between < and >.
fn name(s: &[u8], at: usize) -> Option<usize>
    ensures { skip_in s.now result ≡ grammar.name (drop at s.now) }
{
    let Some(a) = zone_footer_numbers::mark(s, at, b'<') else {
        let n = name_length(s, at, false);
        if n < SHORTEST_NAME {
            return None;
        }
        return Some(at + n);
    };
    let n = name_length(s, a, true);
    if n < SHORTEST_NAME {
        return None;
    }
    zone_footer_numbers::mark(s, a + n, b'>')
}

// Behind the M: month, week and weekday.
#[tactic(auto, unfolding(model::specs::Footer::month_text))]
fn month(s: &[u8], at: usize) -> Option<(Day, usize)>
    ensures { day_from s.now result ≡ grammar.month_text (drop at s.now) }
{
    let (month, a) = zone_footer_numbers::number(s, at, 2, 1, 12)?;
    let b = zone_footer_numbers::mark(s, a, b'.')?;
    let (week, c) = zone_footer_numbers::number(s, b, 1, 1, 5)?;
    let d = zone_footer_numbers::mark(s, c, b'.')?;
    let (weekday, e) = zone_footer_numbers::number(s, d, 1, 0, 6)?;
    Some((
        Day::Month {
            month,
            week,
            weekday,
        },
        e,
    ))
}

// A day of the year.
#[tactic(auto, unfolding(model::specs::Footer::day_text))]
fn day_at(s: &[u8], at: usize) -> Option<(Day, usize)>
    ensures { day_from s.now result ≡ grammar.day_text (drop at s.now) }
{
    if let Some(a) = zone_footer_numbers::mark(s, at, b'M') {
        return month(s, a);
    }
    if let Some(a) = zone_footer_numbers::mark(s, at, b'J') {
        let (n, b) = zone_footer_numbers::number(s, a, 3, 1, 365)?;
        return Some((Day::Julian(n), b));
    }
    let (n, a) = zone_footer_numbers::number(s, at, 3, 0, 365)?;
    Some((Day::Plain(n), a))
}

// A change. "/time" is 02:00:00 where it isn't written.
#[tactic(auto, unfolding(model::specs::Footer::change_rule_text))]
fn change_rule_at(s: &[u8], at: usize, version: usize) -> Option<(ChangeRule, usize)>
    ensures { change_rule_from s.now result ≡ grammar.change_rule_text version (drop at s.now) }
{
    let (day, a) = day_at(s, at)?;
    let Some(b) = zone_footer_numbers::mark(s, a, b'/') else {
        return Some((
            ChangeRule {
                day,
                time: DEFAULT_TIME,
            },
            a,
        ));
    };
    let (time, c) = zone_footer_numbers::rule_time(s, b, version)?;
    Some((ChangeRule { day, time }, c))
}

// The two changes, up to the end.
#[tactic(auto, unfolding(crate::specs::Parsed::rules_text))]
fn two_changes(s: &[u8], at: usize, version: usize, std: u32, dst: u32) -> Option<Footer>
    ensures { footer_from result ≡ grammar.parsed (rules_text version std dst (drop at s.now)) }
{
    let (start, a) = change_rule_at(s, at, version)?;
    let b = zone_footer_numbers::mark(s, a, b',')?;
    let (end, c) = change_rule_at(s, b, version)?;
    if c < s.len() {
        return None;
    }
    Some(Footer::Rules(Rules {
        std,
        dst,
        start,
        end,
    }))
}

// Behind the standard offset. The daylight offset is one hour ahead where it isn't written.
#[tactic(auto, unfolding(model::specs::Footer::daylight_text, crate::specs::Parsed::rules_text))]
fn daylight(s: &[u8], at: usize, version: usize, std: u32) -> Option<Footer>
    requires { std ≤ greatest_offset }
    ensures { footer_from result ≡ grammar.parsed (grammar.daylight_text version std (drop at s.now)) }
{
    let a = name(s, at)?;
    if let Some(b) = zone_footer_numbers::mark(s, a, b',') {
        return two_changes(s, b, version, std, std + zone_footer_numbers::HOUR);
    }
    let (dst, b) = zone_footer_numbers::offset(s, a)?;
    let c = zone_footer_numbers::mark(s, b, b',')?;
    two_changes(s, c, version, std, dst)
}

// The footer that the text is, in a zone file of the given version.
#[tactic(auto, using(crate::proofs::Names::ends), unfolding(model::specs::Footer::footer_of, model::specs::Footer::footer_text))]
pub fn parse(s: &[u8], version: usize) -> Option<Footer>
    ensures { footer_from result ≡ grammar.footer_of version s.now }
{
    if s.len() == 0 {
        return Some(Footer::Empty);
    }
    let a = name(s, 0)?;
    let (std, b) = zone_footer_numbers::offset(s, a)?;
    if s.len() <= b {
        return Some(Footer::Fixed(std));
    }
    daylight(s, b, version, std)
}
