// The dates of a holiday record in a window of at most seven days, as pairs of numbers in lent memory: the blocks' borders in nanoseconds from the
// window's start.
#![tactic(auto)]

ghost use Rattle.std.specs.Prelude.{◌≡◌, ◌+◌, ◌<◌, ◌≤◌, length};
ghost use Rattle.book.specs.Meaning.{day_at};
ghost use Rattle.rule.specs.Rules.{HolidaysFit};
ghost use Rattle.window_dates.specs.Windows.{Window};
ghost use Rattle.window_piece.specs.Filled.{PairsReady};
ghost use Rattle.window_holiday.specs.Holiday.{FreeDate, FreeDates, DateAdded, RankAdded, Closed};
ghost use Rattle.window_holiday.specs.Ranks.{rank_at, rank_of, in_ranks, ranks_end, day_of_rank, date_of_rank};
ghost use Rattle.civil.specs.Dates.{InCalendar};
ghost use Rattle.model.specs.DayNumber.{day_of};

use civil::{Date, Time};
use instant::Instant;
use rule::HolidayDates;
use window_dates::LocalDates;
use window_piece::Frame;

// Half as many numbers as four bytes say: so many are negative where they have a sign.
const NEGATIVES: u64 = big_endian::FOUR_BYTES / 2;

// As many years as two bytes say, less those before -10400: with these added, the years before -10400 are behind all others, where no date is.
const YEARS: u32 = 65536 - civil::YEAR_BIAS;

// Adds the whole of a date of the window.
fn free_into(
    pack: &[u8],
    c: HolidayDates,
    days: LocalDates,
    f: Frame,
    day: i32,
    lo: Instant,
    hi: Instant,
    out: &mut [u64],
    w: usize,
) -> usize
    requires { FreeDate pack.now c days f (day_of day) lo hi × PairsReady out.old w 1 }
    ensures { DateAdded pack.now c lo hi (day_of day) out.old w out.new result }
{
    if f.first == 0 {
        let z = c.zone;
        let midnight = Time {
            seconds: 0,
            nanos: 0,
        };
        let file = big_endian::part(pack, c.at, c.len);
        let x = zone_local::piece_by(file, z, days.offset, midnight, midnight, day, lo, hi);
        return window_piece::piece_into(x, lo, out, w);
    }
    let k = f.first + civil::days_from(days.first, day) as u64 * window_piece::DAY_NANOS;
    window_piece::span_into(k, k + window_piece::DAY_NANOS, f.lo, f.hi, out, w)
}

// The rank of what is written at p: its four bytes as one number, in which the years before 0 come first.
fn rank_at(b: &[u8], p: usize) -> u32
    requires { p + 4 ≤ length b.now }
    ensures { (result ≡ rank_at b.now p) × (day_of_rank result ≡ day_at b.now p) }
{
    let n = u64::from(big_endian::four_at(b, p));
    ((n + NEGATIVES) % big_endian::FOUR_BYTES) as u32
}

// Whether k is one of so many ranks from `from` on. A lesser one wraps to a difference that is greater than any count: one comparison tells both ends.
fn in_ranks(k: u32, from: u64, count: u64) -> bool
    requires { from + count ≤ ranks_end }
    ensures { result ≡ in_ranks from count k }
{
    std::num::wrapping_sub_u64(k as u64, from) < count
}

// The day of the date that has the rank k, if there is one.
fn day_of_rank(k: u32) -> Option<i32>
    ensures { result ≡ date_of_rank k }
{
    let year = (k / 65536 + YEARS) % 65536;
    let month = k / 256 % 256;
    let day = k % 256;
    civil::day_of(Date { year, month, day })
}

// The rank of a day's date.
fn rank_of(day: i32) -> u64
    requires { InCalendar day }
    ensures { (result ≡ rank_of (day_of day)) × (result < ranks_end) }
{
    let d = civil::date_of(day);
    (d.year as u64 + civil::YEAR_BIAS as u64) * 65536 + d.month as u64 * 256 + d.day as u64
}

// Adds the whole of the date that has the rank k, if the window has that date.
fn rank_into(
    pack: &[u8],
    c: HolidayDates,
    days: LocalDates,
    f: Frame,
    k: u32,
    lo: Instant,
    hi: Instant,
    out: &mut [u64],
    w: usize,
) -> usize
    requires { FreeDates pack.now c days f lo hi × PairsReady out.old w 1 }
    ensures { RankAdded pack.now c days lo hi k out.old w out.new result }
{
    let Some(d) = day_of_rank(k) else {
        return w;
    };
    if civil::precedes(d, days.first) {
        return w;
    }
    if civil::precedes(days.last, d) {
        return w;
    }
    free_into(pack, c, days, f, d, lo, hi, out, w)
}

// Adds the dates of a holiday record that the window has, by one pass over the record's dates, from the last to the first. The day is
// counted only of a date whose rank is that of a date of the window.
pub fn holidays_into(
    book: &[u8],
    pack: &[u8],
    c: HolidayDates,
    lo: Instant,
    hi: Instant,
    out: &mut [u64],
    w: usize,
) -> usize
    requires { HolidaysFit book.now pack.now c × Window 7 lo hi × PairsReady out.old w 15 }
    ensures { Closed book.now pack.now c lo hi out.old w out.new result }
{
    let z = c.zone;
    let days = window_dates::local_dates(pack, c.at, c.len, z, lo, hi);
    let f = window_piece::frame_of(days, lo, hi);
    let from = rank_of(days.first);
    let count = (rank_of(days.last) + 1).saturating_sub(from);
    let mut n = w;
    for i in (0..c.count).rev() {
        let k = rank_at(book, c.dates + book_dates::DATE_SIZE * i);
        if in_ranks(k, from, count) {
            n = rank_into(pack, c, days, f, k, lo, hi, out, n);
        }
    }
    n
}
