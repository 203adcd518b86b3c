// Asks for stored listings and compares the answers with those that are expected. The file lists.bin (tools/list_cases.py writes it) has cases one
// behind the other: a book, a pack and questions. A question is two instants, how many numbers are lent, and the answer: a refusal's number and place,
// or the stretches. Before each question every lent number gets a mark of its own, so that a number that changes and should not is seen. Writes a line
// for each question whose answer differs, and at the end how many questions there were.
#![tactic(auto)]

ghost use Rattle.std.specs.Prelude.{◌≡◌, ◌-◌, ◌≤◌, ◌<◌, length};
ghost use Rattle.big_endian.specs.Walk.{all_from};
ghost use Rattle.test_replay_lists.specs.Compared.{is_mark, is_stored};

use anyhow::{Context, Result};
use refusal::Refused;
use test_cases::{Asked, LONGEST};

// The most numbers that a question lends.
const MOST_NUMBERS: usize = 2048;

// ---- the lent numbers

// Every number gets its mark: its place less 2^63.
fn mark(out: &mut [i64]) {
    for (i, number) in out.iter_mut().enumerate() {
        *number = instant_signed::lower(i as u64);
    }
}

// Does number i have its mark?
#[tactic(auto, unfolding(crate::specs::Compared::is_mark))]
fn marked_at(out: &[i64], i: usize) -> bool
    requires { i < length out.now }
    ensures { result ≡ is_mark out.now i }
{
    instant_signed::lift(out[i]) == i as u64
}

// Do all numbers from `from` on have their marks?
fn marked_from(out: &[i64], from: usize) -> bool
    ensures { result ≡ all_from (is_mark out.now) from (length out.now - from) }
{
    for i in from..out.len() {
        if !marked_at(out, i) {
            return false;
        }
    }
    true
}

// Is number i the one that question q has?
#[tactic(auto, unfolding(crate::specs::Compared::is_stored))]
fn stored_at(out: &[i64], q: &[u8], i: usize) -> bool
    requires { (i < length out.now) × (i < 4294967296) }
    ensures { result ≡ is_stored out.now q.now i }
{
    test_cases::is_stored(q, 44 + 8 * i, out[i])
}

// Are the first n numbers those that question q has?
fn stored_to(out: &[i64], q: &[u8], n: usize) -> bool
    requires { (n ≤ length out.now) × (n < 4294967296) }
    ensures { result ≡ all_from (is_stored out.now q.now) 0 n }
{
    for i in 0..n {
        if !stored_at(out, q, i) {
            return false;
        }
    }
    true
}

// ---- one question

// How many numbers question q lends.
fn room_of(q: &[u8]) -> usize {
    big_endian::size_at(q, 32)
}

// The refusal that question q expects; 0 where the listing is given.
fn refusal_of(q: &[u8]) -> usize {
    big_endian::size_at(q, 36)
}

// The refusal's place, or how many stretches there are.
fn count_of(q: &[u8]) -> usize
    ensures { result < 4294967296 }
{
    big_endian::size_at(q, 40)
}

// Is the refusal the one that is expected, and has no number changed?
fn is_refused(out: &[i64], q: &[u8], refused: Refused) -> bool {
    test_cases::is_refusal(q, 36, refused.refusal.number(), refused.place) && marked_from(out, 0)
}

// Are the stretches those that are expected, and have the numbers behind them not changed?
fn is_given(out: &[i64], q: &[u8], count: usize) -> bool {
    refusal_of(q) == 0
        && count == count_of(q)
        && count <= out.len() / 4
        && count <= 1000000000
        && stored_to(out, q, 4 * count)
        && marked_from(out, 4 * count)
}

// Asks question q with these numbers lent. Is the answer the one that is expected?
fn asked(book: &[u8], pack: &[u8], q: &[u8], out: &mut [i64]) -> bool {
    mark(out);
    let r = schedule_listing::list(
        book,
        pack,
        test_cases::signed_at(q, 0),
        test_cases::signed_at(q, 8),
        test_cases::signed_at(q, 16),
        test_cases::signed_at(q, 24),
        out,
    );
    match r {
        Ok(count) => is_given(out, q, count),
        Err(refused) => is_refused(out, q, refused),
    }
}

// The numbers that are lent for the listings.
#[derive(Drop)]
struct Lent {
    numbers: [i64; MOST_NUMBERS],
}

impl Asked for Lent {
    fn length_of(q: &[u8]) -> usize {
        if 0 < refusal_of(q) {
            return 44;
        }
        44 + 32 * count_of(q)
    }

    fn refusal_of(q: &[u8]) -> usize {
        refusal_of(q)
    }

    // Of the numbers are lent as many as the question says.
    fn agrees(&mut self, book: &[u8], pack: &[u8], q: &[u8]) -> bool {
        let n = room_of(q);
        n <= MOST_NUMBERS && asked(book, pack, q, &mut self.numbers[..n])
    }
}

fn main(rt: HostRuntime) -> Result<()> {
    let mut buffer = [0u8; LONGEST];
    let n = test_cases::load(&rt, "lists.bin", &mut buffer).context("lists.bin")?;
    let mut lent = Lent {
        numbers: [0; MOST_NUMBERS],
    };
    let seen = test_cases::ask_file(&rt, &buffer[..n], &mut lent, b"listing")?;
    seen.tell(&rt, b"listings")?;
    Ok(())
}
