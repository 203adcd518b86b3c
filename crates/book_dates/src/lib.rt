// Dates as a book writes them, one behind the other: two bytes of a signed year, month and day. Two dates are the same day where their four bytes,
// read as one number, are equal: so it is these numbers that are compared where different dates are counted.
#![tactic(auto)]

ghost use Rattle.std.specs.Prelude.{◌≡◌, true, not, ◌+◌, ◌*◌, ◌≤◌, ◌<◌, length};
ghost use Rattle.model.specs.Basic.{among, distinct};
ghost use Rattle.big_endian.specs.Be.{two_bytes};
ghost use Rattle.book_dates.specs.Days.{year_in_bytes, IsWritten, date_at, dates_at, is_day, are_days, HasDates};
ghost use Rattle.book_dates.specs.Words.{words_at, rises, mark_count, slot_of};

use civil::Date;

// The bytes of a date.
pub const DATE_SIZE: usize = 4;

// Of the numbers that two bytes can hold, how many are negative where they have a sign.
const NEGATIVES: u32 = 32768;

// Where dates are counted, how many marks there are, and how many a month and a year have: more than any has days.
const MARKS: usize = 8192;

const MONTH: u32 = 31;

const YEAR: u32 = 372;

// The year whose two bytes are this number, counted from -10400; 0 for the years before.
fn year_of(n: u32) -> u32
    requires { n < two_bytes }
    ensures { result ≡ year_in_bytes n }
{
    ((n + NEGATIVES) % big_endian::TWO_BYTES).saturating_sub(civil::YEAR_BIAS)
}

// The year, month and day that are written at p, whether or not they are a date.
fn written_at(b: &[u8], p: usize) -> Date
    requires { p + 4 ≤ length b.now }
    ensures { IsWritten b.now p result }
{
    let year = year_of(big_endian::be16_at(b, p));
    let month = u32::from(b[p + 2]);
    let day = u32::from(b[p + 3]);
    Date { year, month, day }
}

// A date: year, month and day.
fn date_ok(l: &[u8], p: usize) -> bool
    requires { p + 4 ≤ length l.now }
    ensures { result ≡ is_day l.now p }
{
    let d = written_at(l, p);
    civil::is_date(d.year, d.month, d.day)
}

// The day that is written at p.
pub fn date_at(b: &[u8], p: usize) -> Option<i32>
    requires { p + 4 ≤ length b.now }
    ensures { result ≡ date_at b.now p }
{
    civil::day_of(written_at(b, p))
}

// ---- n dates from p on

// Are they dates?
pub fn dates_ok(l: &[u8], p: usize, n: usize) -> bool
    requires { p + 4 * n ≤ length l.now }
    ensures { result ≡ are_days l.now p n }
{
    (0..n).all(|i| date_ok(l, p + DATE_SIZE * i))
}

// ---- how many are different: the four bytes of each date as a number

// Is the first of the n numbers from p on above 0, and each other above the one before it?
fn ascend(b: &[u8], p: usize, n: usize) -> bool
    requires { p + 4 * n ≤ length b.now }
    ensures { result ≡ rises 0 (words_at b.now p n) }
{
    let mut last: u32 = 0;
    for i in 0..n {
        let w = big_endian::four_at(b, p + DATE_SIZE * i);
        if w <= last {
            return false;
        }
        last = w;
    }
    true
}

// Is w among the n numbers from p on?
fn has_word(b: &[u8], p: usize, n: usize, w: u32) -> bool
    requires { p + 4 * n ≤ length b.now }
    ensures { result ≡ among (words_at b.now p n) w }
{
    (0..n).any(|i| w == big_endian::four_at(b, p + DATE_SIZE * i))
}

// Is w not among the n numbers from p on? Where one of them is w, the mark is not 0.
fn is_new(b: &[u8], p: usize, n: usize, w: u32, mark: u8) -> bool
    requires { (p + 4 * n ≤ length b.now) × (among (words_at b.now p n) w ≡ true → mark ≡ 1) }
    ensures { result ≡ not (among (words_at b.now p n) w) }
{
    mark == 0 || !has_word(b, p, n, w)
}

// The mark of a number. The dates of 22 years in a row, each written as year, month and day, have marks of their own.
#[tactic(auto, unfolding(crate::specs::Words::slot_of))]
fn slot(w: u32) -> usize
    ensures { (result ≡ slot_of w) × (result < mark_count) }
{
    (w / big_endian::TWO_BYTES * YEAR + w / 256 % 256 * MONTH + w % 256) as usize % MARKS
}

// How many different ones the n numbers from p on are. Goes from the last to the first and marks each; one without a mark is new, and for
// one that is marked the numbers behind it are asked.
fn marked_count(b: &[u8], p: usize, n: usize) -> usize
    requires { p + 4 * n ≤ length b.now }
    ensures { (result ≡ length (distinct (words_at b.now p n))) × (result ≤ n) }
{
    let mut marks: [u8; MARKS] = [0; MARKS];
    let mut count: usize = 0;
    for i in (0..n).rev() {
        let at = p + DATE_SIZE * i;
        let w = big_endian::four_at(b, at);
        let k = slot(w);
        let mark = marks[k];
        marks[k] = 1;
        if is_new(b, at + DATE_SIZE, n - 1 - i, w, mark) {
            count += 1;
        }
    }
    count
}

// How many different days the n dates from p on are.
pub fn distinct_dates(b: &[u8], p: usize, n: usize) -> usize
    requires { HasDates b.now p n }
    ensures { (result ≡ length (distinct (dates_at b.now p n))) × (result ≤ n) }
{
    if ascend(b, p, n) {
        n
    } else {
        marked_count(b, p, n)
    }
}
