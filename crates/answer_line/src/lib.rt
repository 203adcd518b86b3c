// Answer lines, written into lent memory: each function writes at a place and returns the place behind, and no other byte changes.
// A line has at most 128 bytes: two letters, at most five numbers with a space and a sign each, a newline.
#![tactic(auto)]

ghost use Rattle.std.specs.Prelude.{◌≡◌, [], ◌∷◌, ℕ, ◌+◌, ◌<◌, ◌≤◌, length, pos};
ghost use Rattle.model.specs.Bytes.{text};
ghost use Rattle.model.specs.Lines.{digits_from, shown};
ghost use Rattle.answer_line.specs.Placed.{most_digits, longest, Placed, PlacedIn, PlacedLine, PlacedCounted, PlacedPeriod, PlacedRefusal, two, minus_text};

use instant_signed::HALF;

// The most bytes of a line.
pub const LONGEST: usize = 128;

// The digit of k.
fn digit(k: u64) -> u8
    requires { k < 10 }
    ensures { result ≡ 48 + k }
{
    b'0' + k as u8
}

// Lent memory, and the place in it where the next byte goes.
#[derive(Drop)]
struct Writer<'a> {
    out: &'a mut [u8],
    at: usize,
}

impl Writer<'_> {
    // Writes one byte.
    fn byte(&mut self, byte: u8)
        requires { self.old.at < length self.old.out.now }
        ensures text { Placed self.old.out.now self.new.out.now self.old.at self.new.at (byte ∷ []) }
        ensures kept { length self.new.out.now ≡ length self.old.out.now }
        ensures lent { self.new.out.ghost_name ≡ self.old.out.ghost_name }
    {
        self.out[self.at] = byte;
        self.at += 1;
    }

    // Writes the digits of n.
    fn digits(&mut self, n: u64)
        requires { self.old.at + (most_digits + 1) ≤ length self.old.out.now }
        ensures text { PlacedIn most_digits self.old.out.now self.new.out.now self.old.at self.new.at (digits_from most_digits n []) }
        ensures kept { length self.new.out.now ≡ length self.old.out.now }
        ensures lent { self.new.out.ghost_name ≡ self.old.out.ghost_name }
    {
        if n < 10 {
            self.byte(digit(n));
            return;
        }
        self.digits(n / 10);
        self.byte(digit(n % 10));
    }

    // Writes a space and n.
    fn size(&mut self, n: u64)
        requires { self.old.at + (most_digits + 2) ≤ length self.old.out.now }
        ensures text { PlacedIn (most_digits + 1) self.old.out.now self.new.out.now self.old.at self.new.at (shown (pos n)) }
        ensures kept { length self.new.out.now ≡ length self.old.out.now }
        ensures lent { self.new.out.ghost_name ≡ self.old.out.ghost_name }
    {
        self.byte(b' ');
        self.digits(n);
    }

    // Writes a space and x.
    fn number(&mut self, x: i64)
        requires { self.old.at + (most_digits + 3) ≤ length self.old.out.now }
        ensures text { PlacedIn (most_digits + 2) self.old.out.now self.new.out.now self.old.at self.new.at (shown x) }
        ensures kept { length self.new.out.now ≡ length self.old.out.now }
        ensures lent { self.new.out.ghost_name ≡ self.old.out.ghost_name }
    {
        let k = instant_signed::lift(x);
        if k < HALF {
            self.byte(b' ');
            self.byte(b'-');
            self.digits(HALF - k);
            return;
        }
        self.size(k - HALF);
    }

    // Writes two letters.
    fn letters(&mut self, a: u8, b: u8)
        requires { self.old.at + 2 ≤ length self.old.out.now }
        ensures text { Placed self.old.out.now self.new.out.now self.old.at self.new.at (two a b []) }
        ensures kept { length self.new.out.now ≡ length self.old.out.now }
        ensures lent { self.new.out.ghost_name ≡ self.old.out.ghost_name }
    {
        self.byte(a);
        self.byte(b);
    }
}

// Writes the answer of `between`, `add` or `sub`: seconds, nanoseconds and the number of windows that the call reports.
pub fn put_counted(out: &mut [u8], at: usize, sec: i64, ns: i64, windows: u64) -> usize
    requires { at + longest ≤ length out.old }
    ensures { PlacedCounted out.old out.new at result sec ns windows }
{
    let mut w = Writer { out, at };
    w.letters(b'o', b'k');
    w.number(sec);
    w.number(ns);
    w.size(windows);
    w.byte(b'\n');
    w.at
}

// Writes the answer of `next` or `previous`: seconds and nanoseconds of start and end.
pub fn put_period(out: &mut [u8], at: usize, sec: i64, ns: i64, sec2: i64, ns2: i64) -> usize
    requires { at + longest ≤ length out.old }
    ensures { PlacedPeriod out.old out.new at result sec ns sec2 ns2 }
{
    let mut w = Writer { out, at };
    w.letters(b'o', b'k');
    w.number(sec);
    w.number(ns);
    w.number(sec2);
    w.number(ns2);
    w.byte(b'\n');
    w.at
}

// Writes a refusal: its number and its place.
pub fn put_refused(out: &mut [u8], at: usize, number: u64, place: u64) -> usize
    requires { at + longest ≤ length out.old }
    ensures { PlacedRefusal out.old out.new at result number place }
{
    let mut w = Writer { out, at };
    w.letters(b'n', b'o');
    w.size(number);
    w.size(place);
    w.byte(b'\n');
    w.at
}

// Writes the answer to a line that is no query.
pub fn put_bad(out: &mut [u8], at: usize) -> usize
    requires { at + longest ≤ length out.old }
    ensures { PlacedLine out.old out.new at result (text "bad\n") }
{
    let mut w = Writer { out, at };
    w.letters(b'b', b'a');
    w.letters(b'd', b'\n');
    w.at
}
