// From the bytes of a rule book and a zone pack to a schedule, or to a refusal and its place in the book.
#![tactic(auto)]

ghost use Rattle.std.specs.Prelude.{◌≡◌, true, List, ℕ, ◌+◌, ◌≤◌, length};
ghost use Rattle.zone_pack.specs.Pack.{is_pack};
ghost use Rattle.book.specs.Meaning.{NameIn};
ghost use Rattle.build.specs.Read.{Checked, OpenedWell, IsUtc, AnswersNamed, AnswersDefault, AnswersUsed, SameName, Searchable};
ghost use Rattle.build.specs.Read.{lookup_after, rule_from, holidays_from, Long, RecordRoom, Adds, IsEmpty, filled, ReadsRules, AnswersRules, Builds};

use book::Entry;
use civil::Time;
use refusal::{Refusal, Refused};
use rule::{HolidayDates, Rule, Schedule};
use zone::Zone;

// The search limit without holidays: 366 days in seconds.
const FIRST_LIMIT: u64 = 366 * instant::DAY;

// A zone that is open, and where its file stands in the pack: from where on, and how many bytes. UTC has none.
#[derive(Clone, Copy)]
pub struct Opened {
    pub at: usize,
    pub len: usize,
    pub zone: Zone,
}

// The zone that was found last by a record's name: where the name stands in the book, how many letters it has, and the zone.
#[derive(Clone, Copy)]
pub struct LastLookup {
    pub name: usize,
    pub letters: usize,
    pub zone: Opened,
}

// ---- the zone of a record

// The zone of a record's name, where the pack has got it and its file is usable.
fn look_up(book: &[u8], pack: &[u8], e: Entry) -> Result<Opened, Refused>
    requires { is_pack pack.now ≡ true }
    ensures { AnswersNamed book.now pack.now e result }
{
    let name = big_endian::part(book, e.name, e.letters);
    let Some(found) = zone_pack::look_in(pack, name) else {
        return Err(Refused {
            refusal: Refusal::UnknownZone,
            place: e.place,
        });
    };
    let Some(zone) = zone::open(found.file) else {
        return Err(Refused {
            refusal: Refusal::ZoneUnusable,
            place: e.place,
        });
    };
    Ok(Opened {
        at: found.at,
        len: found.file.len(),
        zone,
    })
}

// UTC, as a zone without a file.
fn utc() -> Opened
    ensures { (p : List ℕ) → IsUtc p result }
{
    let zone = zone::utc();
    Opened {
        at: 0,
        len: 0,
        zone,
    }
}

// The zone of the last default record, or UTC.
fn default_zone(book: &[u8], pack: &[u8]) -> Result<Opened, Refused>
    requires { Checked book.now pack.now }
    ensures { AnswersDefault book.now pack.now result }
{
    let i = book::last_default(book);
    if i < book::count(book) {
        return look_up(book, pack, book::entry_at(book, i));
    }
    Ok(utc())
}

// Is the record's name that which was found last?
fn is_named(book: &[u8], e: Entry, last: LastLookup) -> bool
    ensures { result ≡ true → SameName book.now e last }
{
    big_endian::part(book, e.name, e.letters) == big_endian::part(book, last.name, last.letters)
}

// The zone of a record's name where k is known. A name's zone is opened once, where records that name it follow one another.
fn zone_named(book: &[u8], pack: &[u8], e: Entry, k: Option<LastLookup>) -> Result<Opened, Refused>
    requires { Searchable book.now pack.now e k }
    ensures { AnswersNamed book.now pack.now e result }
{
    match k {
        Some(last) if is_named(book, e, last) => Ok(last.zone),
        _ => look_up(book, pack, e),
    }
}

// The zone that a record uses where d is the default zone and k is known.
fn zone_used(
    book: &[u8],
    pack: &[u8],
    e: Entry,
    d: Opened,
    k: Option<LastLookup>,
) -> Result<Opened, Refused>
    requires { OpenedWell pack.now d × Searchable book.now pack.now e k }
    ensures { AnswersUsed book.now pack.now e d result }
{
    if e.kind == book::DEFAULT_ZONE || e.letters == 0 {
        return Ok(d);
    }
    zone_named(book, pack, e, k)
}

// What is known behind a record that uses o.
fn lookup_after(e: Entry, o: Opened, k: Option<LastLookup>) -> Option<LastLookup>
    ensures { result ≡ lookup_after e o k }
{
    if e.kind == book::DEFAULT_ZONE || e.letters == 0 {
        return k;
    }
    Some(LastLookup {
        name: e.name,
        letters: e.letters,
        zone: o,
    })
}

// ---- the rules of the records

// A work or break record and its zone as a rule.
fn rule_of(e: Entry, o: Opened) -> Rule
    ensures { result ≡ rule_from e o }
{
    let zone = o.zone;
    let from = e.start;
    let to = e.end;
    Rule {
        at: o.at,
        len: o.len,
        zone,
        days: e.days,
        from,
        to,
    }
}

// A holiday record and its zone.
fn holidays_of(e: Entry, o: Opened) -> HolidayDates
    ensures { result ≡ holidays_from e o }
{
    let zone = o.zone;
    HolidayDates {
        at: o.at,
        len: o.len,
        zone,
        dates: e.dates,
        count: e.count,
    }
}

// No rules.
fn no_rules() -> Schedule
    ensures { IsEmpty result }
{
    let zone = zone::utc();
    let from = Time {
        seconds: 0,
        nanos: 0,
    };
    let r = Rule {
        at: 0,
        len: 0,
        zone,
        days: 0,
        from,
        to: from,
    };
    let c = HolidayDates {
        at: 0,
        len: 0,
        zone,
        dates: 0,
        count: 0,
    };
    Schedule {
        work: [r; book::MOST_WORK],
        works: 0,
        breaks: [r; book::MOST_BREAKS],
        pauses: 0,
        closed: [c; book::MOST_HOLIDAYS],
        closings: 0,
        limit: FIRST_LIMIT,
    }
}

// ---- from book and pack to an answer

// The rules of a schedule and one record more, where o is the zone that the record uses. The schedule is changed in its place: it is not copied.
fn add_record(book: &[u8], s: &mut Schedule, e: Entry, o: Opened)
    requires { RecordRoom book.now s.old e × Long s.old }
    ensures { ((p : List ℕ) → Adds book.now p s.old e o s.new) × Long s.new }
{
    if e.kind == book::WORK {
        s.work[s.works] = rule_of(e, o);
        s.works += 1;
    } else if e.kind == book::BREAK {
        s.breaks[s.pauses] = rule_of(e, o);
        s.pauses += 1;
    } else if e.kind == book::HOLIDAYS {
        let days = book_dates::distinct_dates(book, e.dates, e.count);
        s.closed[s.closings] = holidays_of(e, o);
        s.closings += 1;
        s.limit += instant::WEEK * (days as u64);
    }
}

// Adds the rules of the book's records to a schedule that has none, where d is the default zone. A schedule is 5.4 kB, which are not copied here.
fn read_rules(book: &[u8], pack: &[u8], d: Opened, s: &mut Schedule) -> Result<(), Refused>
    requires { Checked book.now pack.now × OpenedWell pack.now d × IsEmpty s.old }
    ensures { ReadsRules book.now pack.now d (filled result s.new) }
{
    let mut k = None;
    for i in 0..book::count(book) {
        let e = book::entry_at(book, i);
        let o = zone_used(book, pack, e, d, k)?;
        k = lookup_after(e, o, k);
        add_record(book, s, e, o);
    }
    Ok(())
}

// Makes a schedule that has no rules that of a book and a pack, whether or not there is work in it: refusals 1 to 5, in this order.
fn rules_into(book: &[u8], pack: &[u8], s: &mut Schedule) -> Result<(), Refused>
    requires { IsEmpty s.old }
    ensures { AnswersRules book.now pack.now (filled result s.new) }
{
    if !book::book_ok(book) {
        return Err(Refusal::BookLayout.into());
    }
    if !book::limits_ok(book) {
        return Err(Refusal::BookLimit.into());
    }
    if !zone_pack::pack_ok(pack) {
        return Err(Refusal::PackLayout.into());
    }
    read_rules(book, pack, default_zone(book, pack)?, s)
}

// The schedule of a book and a pack, or its first refusal.
pub fn build(book: &[u8], pack: &[u8]) -> Result<Schedule, Refused>
    ensures { Builds book.now pack.now result }
{
    let mut s = no_rules();
    rules_into(book, pack, &mut s)?;
    if build_check::has_work(book, pack, s) {
        return Ok(s);
    }
    Err(Refusal::NoWorkingTime.into())
}
