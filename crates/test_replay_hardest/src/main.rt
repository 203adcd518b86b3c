// Asks for the hardest stretches of stored logs and compares the answers with those that are expected. The file hardest.bin (tools/hardest_cases.py writes
// it) has cases one behind the other: a book, a pack and questions. A question is an instant, a width, the answer (a refusal's number and place, a duration
// and the window's start) and a log. Writes a line for each question whose answer differs, and at the end how many questions there were.
#![tactic(auto)]

ghost use Rattle.std.specs.Prelude.{◌≡◌, ◌<◌, length};
ghost use Rattle.big_endian.specs.Be.{be32, four_bytes};
ghost use Rattle.test_replay_hardest.specs.Compared.{refusal_at, is_stretch, is_expected};

use anyhow::{Context, Result};
use refusal::Refused;
use schedule_hardest::HardestStretch;
use std::result;
use test_cases::{Asked, LONGEST};

// The most numbers that a log of the file has.
const MOST_NUMBERS: usize = 8194;

// Where the numbers of a question stand: the instant, the width, the refusal and its place, the duration, the window's start, how many numbers the log has, and these.
const INSTANT_SEC: usize = 0;

const INSTANT_NS: usize = 8;

const WIDTH: usize = 16;

const REFUSAL: usize = 24;

const DURATION_SEC: usize = 32;

const DURATION_NS: usize = 40;

const START_SEC: usize = 48;

const START_NS: usize = 56;

const COUNT: usize = 64;

const LOG: usize = 68;

// ---- one answer

// The refusal that question q expects; 0 for none.
fn refusal_of(q: &[u8]) -> usize
    ensures { result ≡ be32 q.now refusal_at }
{
    big_endian::size_at(q, REFUSAL)
}

// Is a stretch expected, with this duration and this start?
#[tactic(auto, unfolding(crate::specs::Compared::is_stretch))]
fn is_stretch(q: &[u8], h: HardestStretch) -> bool
    ensures { result ≡ is_stretch q.now h }
{
    refusal_of(q) == 0
        && test_cases::is_stored(q, DURATION_SEC, h.time.secs)
        && test_cases::is_stored(q, DURATION_NS, h.time.nanos)
        && test_cases::is_stored(q, START_SEC, h.start.sec)
        && test_cases::is_stored(q, START_NS, h.start.ns)
}

// Is the answer the one that is expected?
#[tactic(auto, unfolding(crate::specs::Compared::is_expected))]
fn is_expected(q: &[u8], answer: result::Result<HardestStretch, Refused>) -> bool
    ensures { result ≡ is_expected q.now answer }
{
    match answer {
        Ok(stretch) => is_stretch(q, stretch),
        Err(refused) => test_cases::is_refusal(q, REFUSAL, refused.refusal.number(), refused.place),
    }
}

// ---- one question

// How many numbers the log of question q has.
fn count_of(q: &[u8]) -> usize
    ensures { result < four_bytes }
{
    big_endian::size_at(q, COUNT)
}

// The numbers of the log of question q, as many as are lent.
fn read_log(q: &[u8], numbers: &mut [i64])
    requires { length numbers.old < four_bytes }
{
    for (i, number) in numbers.iter_mut().enumerate() {
        *number = test_cases::signed_at(q, LOG + 8 * i);
    }
}

// Asks question q, with its log put in the lent numbers. Is the answer the one that is expected?
fn asked(book: &[u8], pack: &[u8], q: &[u8], numbers: &mut [i64]) -> bool
    requires { length numbers.old < four_bytes }
{
    read_log(q, numbers);
    let answer = schedule_hardest::hardest(
        book,
        pack,
        test_cases::signed_at(q, INSTANT_SEC),
        test_cases::signed_at(q, INSTANT_NS),
        numbers,
        test_cases::signed_at(q, WIDTH),
    );
    is_expected(q, answer)
}

// The numbers that are lent for a log.
#[derive(Drop)]
struct Lent {
    numbers: [i64; MOST_NUMBERS],
}

impl Asked for Lent {
    fn length_of(q: &[u8]) -> usize {
        LOG + 8 * count_of(q)
    }

    fn refusal_of(q: &[u8]) -> usize {
        refusal_of(q)
    }

    // Of the numbers are lent as many as the log has.
    fn agrees(&mut self, book: &[u8], pack: &[u8], q: &[u8]) -> bool {
        let n = count_of(q);
        n <= MOST_NUMBERS && asked(book, pack, q, &mut self.numbers[..n])
    }
}

fn main(rt: HostRuntime) -> Result<()> {
    let mut buffer = [0u8; LONGEST];
    let n = test_cases::load(&rt, "hardest.bin", &mut buffer).context("hardest.bin")?;
    let mut lent = Lent {
        numbers: [0; MOST_NUMBERS],
    };
    let seen = test_cases::ask_file(&rt, &buffer[..n], &mut lent, b"stretch")?;
    seen.tell(&rt, b"answers")?;
    Ok(())
}
