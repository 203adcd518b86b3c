// The rule book: its layout, its limits, and its records by value. Names and dates stay in the book that the caller lends.
#![tactic(auto)]

ghost use Rattle.std.specs.Prelude.{◌≡◌, ◌+◌, ◌*◌, ◌≤◌, ◌<◌, true, length};
ghost use Rattle.model.specs.Book.{within_limits};
ghost use Rattle.big_endian.specs.Be.{two_bytes, four_bytes};
ghost use Rattle.big_endian.specs.Walk.{all_from};
ghost use Rattle.book.specs.Meaning.{records_of, holidays_kind, time_written, entry_from, bytes_at, HasRecord, IsLastDefault, IsEntry, kind_at, dates_in, tallies_of};
ghost use Rattle.book.specs.Accepts.{is_time, is_hours, is_dates, is_body, is_record, is_record_at, is_book};

use civil::Time;

// The kinds of records: a default zone, work, a break, holidays.
pub const DEFAULT_ZONE: u8 = 0;

pub const WORK: u8 = 1;

pub const BREAK: u8 = 2;

pub const HOLIDAYS: u8 = 3;

// Document 01's limits of a book: records, records of each kind but the default zone's, and dates as written.
const MOST_RECORDS: usize = 64;

pub const MOST_WORK: usize = 16;

pub const MOST_BREAKS: usize = 16;

pub const MOST_HOLIDAYS: usize = 8;

const MOST_DATES: usize = 512;

// The seconds of a day and the nanoseconds of a second: a time of day is below both.
const DAY: u32 = instant::DAY as u32;

const SECOND: u32 = instant::SECOND as u32;

// How many sets of weekdays there are: a bit for each day.
const WEEKDAY_SETS: u8 = 128;

// The bytes of a record before its name: its kind and how many letters the name has.
const NAME_AT: usize = 2;

// A set of weekdays and two times of day: 1 byte and twice 8.
const HOURS: usize = 17;

// Where the two times of day stand behind the set, and the nanoseconds of a time of day behind its seconds.
const START_AT: usize = 1;

const END_AT: usize = 9;

const NANOS_AT: usize = 4;

// The bytes of the count of dates.
const COUNT_SIZE: usize = 2;

// A record of the book. A name and dates are given by where they stand in the book.
#[derive(Clone, Copy)]
pub struct Entry {
    // DEFAULT_ZONE, WORK, BREAK or HOLIDAYS
    pub kind: u8,
    // where the record starts
    pub place: usize,
    // where its zone name starts, and the name's length
    pub name: usize,
    pub letters: usize,
    // work and break: the set of weekdays, start and end
    pub days: u8,
    pub start: Time,
    pub end: Time,
    // holidays: where the dates start, and how many there are
    pub dates: usize,
    pub count: usize,
}

// ---- the layout of a record: l is its bytes, p a place in them

// A time of day: seconds and nanoseconds.
fn time_ok(l: &[u8], p: usize) -> bool
    requires { p + 8 ≤ length l.now }
    ensures { result ≡ is_time l.now p }
{
    big_endian::be32_at(l, p) < DAY && big_endian::be32_at(l, p + NANOS_AT) < SECOND
}

// A set of weekdays and two times of day, and nothing behind them.
fn hours_ok(l: &[u8], p: usize) -> bool
    requires { p ≤ length l.now }
    ensures { result ≡ is_hours l.now p }
{
    l.len() == p + HOURS
        && big_endian::byte_at(l, p) < WEEKDAY_SETS
        && time_ok(l, p + START_AT)
        && time_ok(l, p + END_AT)
}

// A count and as many dates, and nothing behind them.
fn holidays_ok(l: &[u8], p: usize) -> bool
    requires { p ≤ length l.now }
    ensures { result ≡ is_dates l.now p }
{
    if l.len() < p + COUNT_SIZE {
        return false;
    }
    let n = big_endian::be16_at(l, p) as usize;
    l.len() == p + COUNT_SIZE + book_dates::DATE_SIZE * n
        && book_dates::dates_ok(l, p + COUNT_SIZE, n)
}

// What stands behind the name of a record of the given kind.
fn body_ok(kind: u8, l: &[u8], p: usize) -> bool
    requires { p ≤ length l.now }
    ensures { result ≡ is_body kind l.now p }
{
    match kind {
        DEFAULT_ZONE => l.len() == p,
        WORK | BREAK => hours_ok(l, p),
        HOLIDAYS => holidays_ok(l, p),
        _ => false,
    }
}

// A whole record: kind, name length, name, body, nothing more.
fn record_ok(l: &[u8]) -> bool
    ensures { result ≡ is_record l.now }
{
    let n = big_endian::small_at(l, 1);
    n <= directory::LONGEST_NAME
        && NAME_AT + n <= l.len()
        && body_ok(big_endian::byte_at(l, 0), l, NAME_AT + n)
}

// ---- the book's records

// The bytes of record i.
fn record_at(book: &[u8], i: usize) -> &[u8]
    requires { i < four_bytes }
    ensures { result.now ≡ bytes_at book.now i }
{
    big_endian::part(
        book,
        directory::start_at(book, i),
        directory::len_at(book, i),
    )
}

// Are the n records whole?
fn records_ok(book: &[u8], n: usize) -> bool
    requires { n < four_bytes }
    ensures { result ≡ all_from (is_record_at book.now) 0 n }
{
    (0..n).all(|i| record_ok(record_at(book, i)))
}

// Does the book keep its layout? Refusal 1 where not.
pub fn book_ok(book: &[u8]) -> bool
    ensures { result ≡ is_book book.now }
{
    directory::dir_ok(book) && records_ok(book, directory::count_of(book))
}

// How many records the book has.
pub fn count(book: &[u8]) -> usize
    requires { is_book book.now ≡ true }
    ensures { (result ≡ length (records_of book.now)) × (result < four_bytes) }
{
    directory::count_of(book)
}

// The time of day at p.
fn read_time(l: &[u8], p: usize) -> Time
    requires { p < four_bytes }
    ensures { result ≡ time_written l.now p }
{
    Time {
        seconds: big_endian::be32_at(l, p),
        nanos: big_endian::be32_at(l, p + NANOS_AT),
    }
}

// The record whose bytes are l and which stands at place.
fn read_entry(l: &[u8], place: usize) -> Entry
    requires { place < four_bytes }
    ensures { (result ≡ entry_from place l.now) × (result.count < two_bytes) }
{
    let n = big_endian::small_at(l, 1);
    let p = NAME_AT + n;
    let start = read_time(l, p + START_AT);
    let end = read_time(l, p + END_AT);
    Entry {
        kind: big_endian::byte_at(l, 0),
        place,
        name: place + NAME_AT,
        letters: n,
        days: big_endian::byte_at(l, p),
        start,
        end,
        dates: place + (p + COUNT_SIZE),
        count: big_endian::be16_at(l, p) as usize,
    }
}

// Record i.
pub fn entry_at(book: &[u8], i: usize) -> Entry
    requires { HasRecord book.now i }
    ensures { IsEntry book.now i result }
{
    read_entry(record_at(book, i), directory::start_at(book, i))
}

// ---- the kind of a record, read alone

// The kind of record i: its first byte.
fn kind_at(book: &[u8], i: usize) -> u8
    requires { HasRecord book.now i }
    ensures { result ≡ kind_at book.now i }
{
    big_endian::byte_at(book, directory::start_at(book, i))
}

// How many dates record i has, which is of holidays: the two bytes behind its name.
fn dates_in(book: &[u8], i: usize) -> usize
    requires { HasRecord book.now i × (kind_at book.now i ≡ holidays_kind) }
    ensures { (result ≡ dates_in book.now i) × (result < two_bytes) }
{
    let at = directory::start_at(book, i);
    big_endian::be16_at(book, at + NAME_AT + big_endian::small_at(book, at + 1)) as usize
}

// ---- the limits

// How many work, break and holiday records there are, and how many dates as written.
#[derive(Clone, Copy)]
pub struct Tallies {
    pub work: usize,
    pub breaks: usize,
    pub holidays: usize,
    pub dates: usize,
}

// The tallies of the book's n records.
fn tallies_of(book: &[u8], n: usize) -> Tallies
    requires { (n ≡ length (records_of book.now)) × (n < four_bytes) }
    ensures { result ≡ tallies_of (records_of book.now) }
{
    let mut work: usize = 0;
    let mut breaks: usize = 0;
    let mut holidays: usize = 0;
    let mut dates: usize = 0;
    for i in 0..n {
        match kind_at(book, i) {
            WORK => work += 1,
            BREAK => breaks += 1,
            HOLIDAYS => {
                holidays += 1;
                dates += dates_in(book, i);
            }
            _ => {}
        }
    }
    Tallies {
        work,
        breaks,
        holidays,
        dates,
    }
}

// Does the book keep within its limits? Refusal 2 where not.
pub fn limits_ok(book: &[u8]) -> bool
    requires { is_book book.now ≡ true }
    ensures { result ≡ within_limits (records_of book.now) }
{
    let n = count(book);
    if n > MOST_RECORDS {
        return false;
    }
    let t = tallies_of(book, n);
    t.work <= MOST_WORK
        && t.breaks <= MOST_BREAKS
        && t.holidays <= MOST_HOLIDAYS
        && t.dates <= MOST_DATES
}

// The record whose default zone wins, the last of that kind; the number of records where there is none.
pub fn last_default(book: &[u8]) -> usize
    requires { is_book book.now ≡ true }
    ensures { IsLastDefault book.now result }
{
    let n = count(book);
    let mut found = n;
    for i in 0..n {
        if kind_at(book, i) == DEFAULT_ZONE {
            found = i;
        }
    }
    found
}
