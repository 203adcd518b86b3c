// Asks stored questions about marks and compares the answers with those that are expected. The file marks.bin (tools/marks_cases.py writes it) has cases
// one behind the other: a book, a pack and questions. A question is its kind, its length in bytes, the refusal that is expected, what is asked and the answer.
// Asked are the instant and the mark of a local time, by the pack, which is a zone file then; the next and the previous period with its marks; and the blocks
// of a window with their marks. Writes a line for each question whose answer differs, and at the end how many questions there were.
#![tactic(auto)]

ghost use Rattle.std.specs.Prelude.{◌≡◌, true, ◌+◌, ◌*◌, ◌≤◌, ◌<◌, ◌^◌, length};
ghost use Rattle.big_endian.specs.Be.{be32};
ghost use Rattle.instant.specs.Instant.{InRange, Exact};
ghost use Rattle.mark.specs.Marks.{mark_number};
ghost use Rattle.rule.specs.Rules.{ScheduleFits};
ghost use Rattle.window_dates.specs.Windows.{Window};
ghost use Rattle.window_memory.specs.Sizes.{most_rules};
ghost use Rattle.test_cases.specs.Cases.{longest_file};
ghost use Rattle.test_replay_marks.specs.Compared.{refusal_place, is_signed_at, is_mark_at, is_pair_at, is_edge_at};
ghost use Rattle.test_replay_marks.specs.Compared.{is_resolved, is_marked_period, is_resolve_answer, is_period_answer};
ghost use Rattle.test_replay_marks.specs.Asked.{Within};

use anyhow::{Context, Result};
use instant::Instant;
use instant_signed::SignedInstant;
use mark::Mark;
use refusal::Refused;
use rule::Schedule;
use schedule_periods::MarkedPeriod;
use std::result;
use test_cases::{Asked, LONGEST};
use window_marks::Border;
use window_memory::{ALL, Memory};
use zone_calls::ResolvedTime;

// The kinds of questions.
const RESOLVE: usize = 0;

const NEXT: usize = 1;

const PREVIOUS: usize = 2;

const BLOCKS: usize = 3;

// Where the numbers of a question stand: its kind, its length, the refusal and its place, and what is asked. A number that is asked or answered has eight bytes.
const KIND: usize = 0;

const LENGTH: usize = 4;

const REFUSAL: usize = 8;

const ASKED: usize = 16;

const NUMBER: usize = 8;

// Where the answers stand: an instant and its mark; a period's start, its end and their marks; how many blocks there are, and these.
const RESOLVED: usize = 56;

const RESOLVED_MARK: usize = 72;

const PERIOD_START: usize = 32;

const PERIOD_END: usize = 48;

const START_MARK: usize = 64;

const END_MARK: usize = 72;

const COUNT: usize = 48;

const FIRST_BLOCK: usize = 56;

// The bytes of a block and of each of its two ends: an instant and its mark.
const EDGE_SIZE: usize = 24;

const BLOCK_SIZE: usize = 48;

// ---- numbers of a question

// The signed number at a place of a question.
fn signed(q: &[u8], at: usize) -> i64 {
    instant_signed::lower(zone_tzif_block::key_of(big_endian::be64_at(q, at)))
}

// Is x the signed number at a place of a question?
#[tactic(auto, unfolding(crate::specs::Compared::is_signed_at))]
fn is_signed(q: &[u8], at: usize, x: i64) -> bool
    ensures { result ≡ is_signed_at q.now at «x» }
{
    instant_signed::lift(x) == zone_tzif_block::key_of(big_endian::be64_at(q, at))
}

// Is m the mark at a place of a question?
#[tactic(auto, unfolding(crate::specs::Compared::is_mark_at))]
fn is_mark(q: &[u8], at: usize, m: Mark) -> bool
    ensures { result ≡ is_mark_at q.now at (mark_number m) }
{
    u64::from(m.number()) == big_endian::be64_at(q, at)
}

// Are these the two numbers from a place of a question on?
#[tactic(auto, unfolding(crate::specs::Compared::is_pair_at))]
fn is_pair(q: &[u8], at: usize, t: SignedInstant) -> bool
    requires { at ≤ longest_file }
    ensures { result ≡ is_pair_at q.now at t.sec t.ns }
{
    is_signed(q, at, t.sec) && is_signed(q, at + NUMBER, t.ns)
}

// The refusal that question q expects; 0 for none.
fn refusal_of(q: &[u8]) -> usize
    ensures { result ≡ be32 q.now refusal_place }
{
    big_endian::size_at(q, REFUSAL)
}

// ---- the instant of a local time

// Is an instant with a mark expected, and is it this one?
#[tactic(auto, unfolding(crate::specs::Compared::is_resolved))]
fn is_resolved(q: &[u8], r: ResolvedTime) -> bool
    ensures { result ≡ is_resolved q.now r }
{
    refusal_of(q) == 0 && is_pair(q, RESOLVED, r.at) && is_mark(q, RESOLVED_MARK, r.mark)
}

// Is the answer the one that is expected?
#[tactic(auto, unfolding(crate::specs::Compared::is_resolve_answer))]
fn is_instant(q: &[u8], answer: result::Result<ResolvedTime, Refused>) -> bool
    ensures { result ≡ is_resolve_answer q.now answer }
{
    match answer {
        Ok(resolved) => is_resolved(q, resolved),
        Err(refused) => test_cases::is_refusal(q, REFUSAL, refused.refusal.number(), refused.place),
    }
}

// Asks question q, for the instant of a local time. Is the answer the one that is expected?
fn resolve_agrees(file: &[u8], q: &[u8]) -> bool {
    let answer = zone_calls::resolve_in(
        file,
        signed(q, ASKED),
        signed(q, ASKED + NUMBER),
        signed(q, ASKED + 2 * NUMBER),
        signed(q, ASKED + 3 * NUMBER),
        signed(q, ASKED + 4 * NUMBER),
    );
    is_instant(q, answer)
}

// ---- periods

// Is a period expected, with this start, this end and these marks?
#[tactic(auto, unfolding(crate::specs::Compared::is_marked_period))]
fn is_marked_period(q: &[u8], p: MarkedPeriod) -> bool
    ensures { result ≡ is_marked_period q.now p }
{
    refusal_of(q) == 0
        && is_pair(q, PERIOD_START, p.period.start)
        && is_pair(q, PERIOD_END, p.period.end)
        && is_mark(q, START_MARK, p.marks.start)
        && is_mark(q, END_MARK, p.marks.end)
}

// Is the answer the one that is expected?
#[tactic(auto, unfolding(crate::specs::Compared::is_period_answer))]
fn is_period(q: &[u8], answer: result::Result<MarkedPeriod, Refused>) -> bool
    ensures { result ≡ is_period_answer q.now answer }
{
    match answer {
        Ok(period) => is_marked_period(q, period),
        Err(refused) => test_cases::is_refusal(q, REFUSAL, refused.refusal.number(), refused.place),
    }
}

// Asks question q, for the next period. Is the answer the one that is expected?
fn next_agrees(book: &[u8], pack: &[u8], q: &[u8]) -> bool {
    let answer = schedule_periods::next_period(
        book,
        pack,
        signed(q, ASKED),
        signed(q, ASKED + NUMBER),
    );
    is_period(q, answer)
}

// The same for the previous period.
fn previous_agrees(book: &[u8], pack: &[u8], q: &[u8]) -> bool {
    let answer = schedule_periods::previous_period(
        book,
        pack,
        signed(q, ASKED),
        signed(q, ASKED + NUMBER),
    );
    is_period(q, answer)
}

// ---- the blocks of a window

// Does question q have the instant u with the mark m at a place?
#[tactic(auto, unfolding(crate::specs::Compared::is_edge_at))]
fn is_edge(q: &[u8], at: usize, u: Instant, m: Mark) -> bool
    requires { (at ≤ longest_file) × (u.sec < 2 ^ 63) }
    ensures { result ≡ is_edge_at q.now at u (mark_number m) }
{
    let t = SignedInstant {
        sec: instant_signed::seconds_of(u.sec),
        ns: i64::from(u.ns),
    };
    is_pair(q, at, t) && is_mark(q, at + 2 * NUMBER, m)
}

// Does u lie in the window from lo to hi, or at its end?
fn is_within(lo: Instant, hi: Instant, u: Instant) -> bool
    requires { InRange lo × InRange hi × Exact u }
    ensures { result ≡ true → Within lo hi u }
{
    !instant::precedes(u, lo) && !instant::precedes(hi, u)
}

// Does question q have the block from u to v at a place, with the marks of its ends in the window from lo to hi?
fn is_block(
    book: &[u8],
    pack: &[u8],
    s: Schedule,
    lo: Instant,
    hi: Instant,
    q: &[u8],
    at: usize,
    u: Instant,
    v: Instant,
) -> bool
    requires { ScheduleFits book.now pack.now s × Window 7 lo hi × (at + 24 ≤ longest_file) × Exact u × Exact v }
{
    if !is_within(lo, hi, u) {
        return false;
    }
    if !is_within(lo, hi, v) {
        return false;
    }
    if instant::precedes(v, u) {
        return false;
    }
    let start = Border { at: u, lo, hi };
    let end = Border { at: v, lo, hi };
    let marks = window_marks::edge_marks(book, pack, s, start, end);
    is_edge(q, at, u, marks.start) && is_edge(q, at + EDGE_SIZE, v, marks.end)
}

// The instant that is n nanoseconds after lo.
fn after(lo: Instant, n: u64) -> Instant
    requires { InRange lo }
    ensures { Exact result }
{
    instant::sum(lo, instant::from_nanoseconds(n))
}

// Are the n blocks, as nanoseconds from lo, those that question q has, with their marks?
fn are_blocks(
    book: &[u8],
    pack: &[u8],
    s: Schedule,
    lo: Instant,
    hi: Instant,
    q: &[u8],
    blocks: &[u64],
    n: usize,
) -> bool
    requires { ScheduleFits book.now pack.now s × Window 7 lo hi × (2 * n ≤ length blocks.now) × (n ≤ 14 * most_rules) }
{
    for i in 0..n {
        let u = after(lo, blocks[2 * i]);
        let v = after(lo, blocks[2 * i + 1]);
        let at = FIRST_BLOCK + BLOCK_SIZE * i;
        if !is_block(book, pack, s, lo, hi, q, at, u, v) {
            return false;
        }
    }
    true
}

// Are the blocks of the window from lo to hi those that question q has? The memory is lent for them.
fn window_agrees(
    book: &[u8],
    pack: &[u8],
    s: Schedule,
    lo: Instant,
    hi: Instant,
    q: &[u8],
    memory: &mut Memory<ALL>,
) -> bool
    requires { ScheduleFits book.now pack.now s × Window 7 lo hi }
{
    let n = window_week::working_in(book, pack, s, lo, hi, memory);
    n as u64 == big_endian::be64_at(q, COUNT)
        && are_blocks(book, pack, s, lo, hi, q, &memory.out, n)
}

// Is hi not before lo and at most seven days after it?
fn is_window(lo: Instant, hi: Instant) -> bool
    requires { InRange lo × InRange hi }
    ensures { result ≡ true → Window 7 lo hi }
{
    if instant::precedes(hi, lo) {
        return false;
    }
    let last = Instant {
        sec: lo.sec + instant::WEEK,
        ns: lo.ns,
    };
    !instant::precedes(last, hi)
}

// Asks question q, for the blocks of a window of a schedule. Is the answer the one that is expected?
fn schedule_agrees(book: &[u8], pack: &[u8], s: Schedule, q: &[u8]) -> bool
    requires { ScheduleFits book.now pack.now s }
{
    let Some(lo) = instant_signed::instant_of(signed(q, ASKED), signed(q, ASKED + NUMBER)) else {
        return false;
    };
    let Some(hi) = instant_signed::instant_of(
        signed(q, ASKED + 2 * NUMBER),
        signed(q, ASKED + 3 * NUMBER),
    ) else {
        return false;
    };
    is_window(lo, hi) && window_agrees(book, pack, s, lo, hi, q, &mut Memory::<ALL>::new())
}

// The same from the bytes of book and pack.
fn blocks_agree(book: &[u8], pack: &[u8], q: &[u8]) -> bool {
    match build::build(book, pack) {
        Ok(schedule) => refusal_of(q) == 0 && schedule_agrees(book, pack, schedule, q),
        Err(refused) => test_cases::is_refusal(q, REFUSAL, refused.refusal.number(), refused.place),
    }
}

// ---- one question

// The program lends nothing to a question.
#[derive(Drop)]
struct Lent;

impl Asked for Lent {
    // At least as long as what stands before the numbers.
    fn length_of(q: &[u8]) -> usize {
        big_endian::size_at(q, LENGTH).max(ASKED)
    }

    fn refusal_of(q: &[u8]) -> usize {
        refusal_of(q)
    }

    fn agrees(&mut self, book: &[u8], pack: &[u8], q: &[u8]) -> bool {
        match big_endian::size_at(q, KIND) {
            RESOLVE => resolve_agrees(pack, q),
            NEXT => next_agrees(book, pack, q),
            PREVIOUS => previous_agrees(book, pack, q),
            BLOCKS => blocks_agree(book, pack, q),
            _ => false,
        }
    }
}

fn main(rt: HostRuntime) -> Result<()> {
    let mut buffer = [0u8; LONGEST];
    let n = test_cases::load(&rt, "marks.bin", &mut buffer).context("marks.bin")?;
    let seen = test_cases::ask_file(&rt, &buffer[..n], &mut Lent, b"marked answer")?;
    seen.tell(&rt, b"answers")?;
    Ok(())
}
