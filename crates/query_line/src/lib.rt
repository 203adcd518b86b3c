// Query lines, read byte by byte. A number may have any number of zeros in front, so a line may have any length; what is kept of it does not grow.
// `start`, then `fed` for each byte but the newline, then `finish`. None says that the line is no query, whatever follows.
#![tactic(auto)]

ghost use Rattle.std.specs.Prelude.{◌≡◌, List, [], ◌∷◌, ℕ, ◌≤◌, ◌<◌};
ghost use Rattle.model.specs.Lines.{query_of};
ghost use Rattle.query_line.specs.Reading.{word_of, key_of, ask_four, ask_two, yet, yet_from, query_from, IsDigit, space, minus_sign};

use instant_signed::HALF;
use name::LONGEST_WORD;

mod name;

pub use name::Name;

// A number up to this one has at most 2^63 + 1 with one digit more.
const DIGIT_FITS: u64 = HALF / 10;

// A query, with its fields in their order.
#[derive(Clone, Copy)]
pub enum Query {
    Between(i64, i64, i64, i64),
    Add(i64, i64, i64, i64),
    Sub(i64, i64, i64, i64),
    Next(i64, i64),
    Previous(i64, i64),
}

// The first word of a query.
#[derive(Clone, Copy)]
pub enum Word {
    Between,
    Add,
    Sub,
    Next,
    Previous,
}

// A line past its first space: the word, how many numbers are read, the last three of them with 2^63 added, and of the field at hand the
// sign, and the number that its digits write, if it has digits.
#[derive(Clone, Copy)]
pub struct Fields {
    pub word: Word,
    pub count: u64,
    pub a: u64,
    pub b: u64,
    pub c: u64,
    pub minus: bool,
    pub value: Option<u64>,
}

// What is known of a line after some of its bytes.
#[derive(Clone, Copy)]
pub enum Line {
    Name(Name),
    Rest(Fields),
}

// The word that these bytes are.
#[tactic(auto, unfolding(crate::specs::Reading::word_of))]
fn word_of(w: &[u8]) -> Option<Word>
    ensures { result ≡ word_of w.now }
{
    if w == b"between".as_slice() {
        Some(Word::Between)
    } else if w == b"add".as_slice() {
        Some(Word::Add)
    } else if w == b"sub".as_slice() {
        Some(Word::Sub)
    } else if w == b"next".as_slice() {
        Some(Word::Next)
    } else if w == b"previous".as_slice() {
        Some(Word::Previous)
    } else {
        None
    }
}

// The number of the field at hand with 2^63 added, where the field ends here.
#[tactic(auto, unfolding(crate::specs::Reading::key_of))]
fn key_of(minus: bool, value: Option<u64>) -> Option<u64>
    ensures { result ≡ key_of minus value }
{
    let n = value?; // nothing, or a sign alone
    if minus {
        return if n <= HALF { Some(HALF - n) } else { None };
    }
    if n < HALF { Some(HALF + n) } else { None }
}

// A byte of the first word, or the space behind it.
fn name_fed(name: Name, byte: u8) -> Option<Line>
    ensures { (s : List ℕ) → yet_from result s ≡ yet (Line.Name name) (byte ∷ s) }
{
    if byte == b' ' {
        let word = word_of(&name.bytes[..name.len])?;
        return Some(Line::Rest(Fields {
            word,
            count: 0,
            a: 0,
            b: 0,
            c: 0,
            minus: false,
            value: None,
        }));
    }
    if name.len >= LONGEST_WORD {
        return None;
    }
    let mut bytes = name.bytes;
    bytes[name.len] = byte;
    Some(Line::Name(Name {
        bytes,
        len: name.len + 1,
    }))
}

// The space behind a number.
fn spaced(f: Fields) -> Option<Line>
    ensures { (s : List ℕ) → yet_from result s ≡ yet (Line.Rest f) (space ∷ s) }
{
    let key = key_of(f.minus, f.value)?;
    if f.count >= 3 {
        return None;
    }
    Some(Line::Rest(Fields {
        word: f.word,
        count: f.count + 1,
        a: f.b,
        b: f.c,
        c: key,
        minus: false,
        value: None,
    }))
}

// A digit of a number.
fn digit(f: Fields, x: u8) -> Option<Line>
    requires { IsDigit x }
    ensures { (s : List ℕ) → yet_from result s ≡ yet (Line.Rest f) (x ∷ s) }
{
    let n = f.value.unwrap_or(0);
    if n > DIGIT_FITS {
        return None;
    }
    let n = n * 10 + u64::from(x - b'0');
    if n > HALF {
        return None;
    }
    Some(Line::Rest(Fields {
        value: Some(n),
        ..f
    }))
}

// A minus sign: only the first byte of a field may be one.
fn signed(f: Fields) -> Option<Line>
    ensures { (s : List ℕ) → yet_from result s ≡ yet (Line.Rest f) (minus_sign ∷ s) }
{
    if f.minus || f.value.is_some() {
        return None;
    }
    Some(Line::Rest(Fields { minus: true, ..f }))
}

// A byte of a number, or the space behind it.
fn rest_fed(f: Fields, byte: u8) -> Option<Line>
    ensures { (s : List ℕ) → yet_from result s ≡ yet (Line.Rest f) (byte ∷ s) }
{
    match byte {
        b' ' => spaced(f),
        b'-' => signed(f),
        b'0'..=b'9' => digit(f, byte),
        _ => None,
    }
}

// A line of which nothing is read yet.
pub fn start() -> Line
    ensures { (s : List ℕ) → yet result s ≡ query_of s }
{
    Line::Name(Name {
        bytes: [0; LONGEST_WORD],
        len: 0,
    })
}

// The line with one byte more: what it gives when the bytes s follow is what it gave when that byte and s followed.
pub fn fed(l: Line, byte: u8) -> Option<Line>
    ensures { (s : List ℕ) → yet_from result s ≡ yet l (byte ∷ s) }
{
    match l {
        Line::Name(name) => name_fed(name, byte),
        Line::Rest(f) => rest_fed(f, byte),
    }
}

// The query of a word and four numbers, each with 2^63 added.
#[tactic(auto, unfolding(crate::specs::Reading::ask_four))]
fn four(word: Word, a: u64, b: u64, c: u64, d: u64) -> Option<Query>
    ensures { result ≡ ask_four word a b c d }
{
    let a = instant_signed::lower(a);
    let b = instant_signed::lower(b);
    let c = instant_signed::lower(c);
    let d = instant_signed::lower(d);
    match word {
        Word::Between => Some(Query::Between(a, b, c, d)),
        Word::Add => Some(Query::Add(a, b, c, d)),
        Word::Sub => Some(Query::Sub(a, b, c, d)),
        Word::Next | Word::Previous => None,
    }
}

// The query of a word and two numbers, each with 2^63 added.
#[tactic(auto, unfolding(crate::specs::Reading::ask_two))]
fn two(word: Word, a: u64, b: u64) -> Option<Query>
    ensures { result ≡ ask_two word a b }
{
    let a = instant_signed::lower(a);
    let b = instant_signed::lower(b);
    match word {
        Word::Next => Some(Query::Next(a, b)),
        Word::Previous => Some(Query::Previous(a, b)),
        Word::Between | Word::Add | Word::Sub => None,
    }
}

// The query of a line that ends in a number.
fn ended(f: Fields) -> Option<Query>
    ensures { query_from result ≡ yet (Line.Rest f) [] }
{
    let key = key_of(f.minus, f.value)?;
    if f.count >= 3 {
        return four(f.word, f.a, f.b, f.c, key);
    }
    if f.count == 1 {
        return two(f.word, f.c, key);
    }
    None
}

// The query of a line that ends here.
pub fn finish(l: Line) -> Option<Query>
    ensures { query_from result ≡ yet l [] }
{
    match l {
        Line::Name(_) => None,
        Line::Rest(f) => ended(f),
    }
}
