// A zone: its file, the layout of the file's table, and its footer. The offset at a second, and the second of a local time. Seconds are counted from -10400-01-01T00:00:00Z; offsets and local seconds have zone_offset::BIAS added.
#![tactic(auto)]

ghost use Rattle.std.specs.Prelude.{◌≡◌, List, ℕ, ◌+◌, ◌-◌, ◌≤◌, ◌<◌, IfSome};
ghost use Rattle.model.specs.Zone as model;
ghost use Rattle.model.specs.Tzif.{zone_of};
ghost use Rattle.model.specs.Offset.{greatest_offset};
ghost use Rattle.model.specs.Marks.{mark_of, readings};
ghost use Rattle.mark.specs.Marks.{mark_number};
ghost use Rattle.laws_zone.specs.Resolve.{Resolves};
ghost use Rattle.laws_zone.specs.Sound.{first_local};
ghost use Rattle.instant.specs.Instant.{years_end};
ghost use Rattle.zone_changes.specs.Meaning.{IsOffset};
ghost use Rattle.zone_tzif.specs.Opened.{count_at};
ghost use Rattle.zone.specs.Zones.{zone_is, ZoneOk, Asked, zone_offset, zone_read, in_run, next_count, RunAfter, ZoneBounds, Searched, SearchedFrom, ReadsFrom};

use mark::Mark;
use zone_changes::OffsetUntil;
use zone_footer::Footer;
use zone_tzif::{Layout, OffsetBounds};

// The second behind the last year that the calendar has, and the first local second that `second_of` takes: one more than the greatest offset.
pub const YEARS_END: u64 = 656384601600;

pub const FIRST_LOCAL: u64 = 187200;

// An open zone: the layout of its file's table, and its footer.
#[derive(Clone, Copy)]
pub struct Zone {
    pub table: Layout,
    pub footer: Footer,
}

// The zone of a file, where it is usable.
pub fn open(f: &[u8]) -> Option<Zone>
    ensures { (zone_read f.now result ≡ zone_of f.now) × IfSome result (ZoneOk f.now) }
{
    let table = zone_tzif::read(f)?;
    let line = big_endian::part(f, table.line, table.len);
    let footer = zone_footer::parse(line, big_endian::small_at(f, zone_tzif::VERSION_AT))?;
    Some(Zone { table, footer })
}

// UTC, which needs no file.
pub fn utc() -> Zone
    ensures { (f : List ℕ) → (zone_is f result ≡ model.utc) × ZoneOk f result }
{
    Zone {
        table: zone_tzif::utc(),
        footer: Footer::Empty,
    }
}

// ---- the offset at a second

// How many transitions are at or before the end of the run that k of them begin.
fn count_on(table: Layout, k: usize) -> usize
    ensures { result ≡ next_count table k }
{
    table.count.min(k.saturating_add(1))
}

// The offset at u, and a second before which it stays, where k transitions are at or before u.
fn run_after(f: &[u8], z: Zone, k: usize, u: u64) -> OffsetUntil
    requires { Asked f.now z u × (k ≡ count_at f.now z.table u) }
    ensures { RunAfter f.now z k u result }
{
    let table = z.table;
    let offset = zone_tzif::table_offset(f, table, k);
    if k < table.count {
        return OffsetUntil {
            offset,
            until: zone_tzif::time_at(f, table, k),
        };
    }
    let footer = z.footer;
    zone_changes::footer_run_at(footer, offset, u)
}

// The offset at u, and a second before which it stays.
pub fn run_at(f: &[u8], z: Zone, u: u64) -> OffsetUntil
    requires { Asked f.now z u }
    ensures { IsOffset (zone_offset f.now z) u result }
{
    let table = z.table;
    run_after(f, z, zone_tzif::count_at(f, table, u), u)
}

// ---- the second of a local time

// Bounds of the zone's offsets, those of the footer included.
pub fn bounds_of(f: &[u8], z: Zone) -> OffsetBounds
    requires { ZoneOk f.now z }
    ensures { ZoneBounds (zone_offset f.now z) result }
{
    let table = z.table;
    let footer = z.footer;
    let bounds = zone_tzif::table_bounds(f, table);
    match footer {
        Footer::Empty => bounds,
        Footer::Fixed(o) => zone_tzif::widened(bounds, o as u64),
        Footer::Rules(rules) => {
            let with = zone_tzif::widened(bounds, rules.std as u64);
            zone_tzif::widened(with, rules.dst as u64)
        }
    }
}

// A run from u up to e with the offset o holds a second that reads x.
#[tactic(auto, unfolding(crate::specs::Zones::in_run))]
fn in_run(u: u64, o: u64, e: u64, x: u64) -> bool
    requires { (u < years_end) × (o ≤ greatest_offset) }
    ensures { result ≡ in_run u o e x }
{
    u + o <= x && x - o < e
}

// The first reading of x from the second `from` on, past the first jump over x, and d if there is none. Of the transitions n are at or before `from`.
fn read_after(f: &[u8], z: Zone, x: u64, bounds: OffsetBounds, from: u64, n: usize, d: u64) -> u64
    requires { SearchedFrom f.now z x bounds from n d }
    ensures { Resolves (zone_offset f.now z) x result }
{
    let table = z.table;
    let last = x - bounds.least;
    let mut u = from;
    let mut k = n;
    while u <= last {
        let r = run_after(f, z, k, u);
        if in_run(u, r.offset as u64, r.until, x) {
            return x - r.offset as u64;
        }
        u = r.until;
        k = count_on(table, k);
    }
    d
}

// The second of the local second x, by the runs from x less the greatest offset on: each is the next in the table, so that none is searched for.
fn second_by_runs(f: &[u8], z: Zone, x: u64, bounds: OffsetBounds) -> u64
    requires { Searched f.now z x bounds }
    ensures { Resolves (zone_offset f.now z) x result }
{
    let table = z.table;
    let from = x - bounds.greatest;
    let n = zone_tzif::count_at(f, table, from);
    let r = run_after(f, z, n, from);
    let mut offset = r.offset as u64;
    let mut until = r.until;
    let mut k = count_on(table, n);
    while until <= x - offset {
        let q = run_after(f, z, k, until);
        let o = q.offset as u64;
        if until + o <= x {
            offset = o;
            until = q.until;
            k = count_on(table, k);
        } else {
            return read_after(f, z, x, bounds, until, k, x - offset);
        }
    }
    x - offset
}

// The second of the local second x: the earliest that reads so, or by the earliest jump over it. Most often no change is near.
pub fn second_of(f: &[u8], z: Zone, x: u64) -> u64
    requires { ZoneOk f.now z × (first_local ≤ x) × (x < years_end) }
    ensures { result ≡ model.second_of (zone_is f.now z) x }
{
    let r = run_at(f, z, x - zone_offset::GREATEST_64);
    let offset = r.offset as u64;
    if x - offset < r.until {
        return x - offset;
    }
    second_by_runs(f, z, x, bounds_of(f, z))
}

// ---- the mark of a local time

// A second from `from` on reads x. Of the transitions n are at or before `from`; by the zone's least offset none reads x behind x less that.
fn reads_from(f: &[u8], z: Zone, x: u64, bounds: OffsetBounds, from: u64, n: usize) -> bool
    requires { Searched f.now z x bounds × (n ≡ count_at f.now z.table from) }
    ensures { ReadsFrom (zone_offset f.now z) x from result }
{
    let table = z.table;
    let latest = x - bounds.least;
    let mut u = from;
    let mut k = n;
    while u <= latest {
        let run = run_after(f, z, k, u);
        if in_run(u, run.offset as u64, run.until, x) {
            return true;
        }
        u = run.until;
        k = count_on(table, k);
    }
    false
}

// The mark of the local second x, whose second is s: whether no second, one or more than one reads it. Offsets are positive, so that none from x on does.
pub fn mark_of(f: &[u8], z: Zone, x: u64, s: u64) -> Mark
    requires { ZoneOk f.now z × (first_local ≤ x) × (x < years_end) × (s ≡ model.second_of (zone_is f.now z) x) }
    ensures { mark_number result ≡ mark_of (readings (zone_is f.now z) x) }
{
    let table = z.table;
    let k = zone_tzif::count_at(f, table, s);
    let r = run_after(f, z, k, s);
    if s + r.offset as u64 != x {
        return Mark::Skipped;
    }
    if x <= r.until {
        return Mark::Plain;
    }
    if reads_from(f, z, x, bounds_of(f, z), r.until, count_on(table, k)) {
        return Mark::Repeated;
    }
    Mark::Plain
}
