// The function for many queries of one book and pack, which other languages link by crate `query_numbers_c` (part/hirgwamo.h): five numbers for a query, six
// for its answer. The book is built once.
#![tactic(auto)]

ghost use Rattle.std.specs.Prelude.{◌≡◌, ◌+◌, ◌*◌, ◌/◌, ◌^◌, ◌≤◌, ◌<◌, length};
ghost use Rattle.model.specs.Answer.{refuses};
ghost use Rattle.model.specs.Build.{build};
ghost use Rattle.refusal.specs.Refused.{number_of};
ghost use Rattle.build.specs.Read.{Builds};
ghost use Rattle.answer_numbers.specs.Outcomes.{written};
ghost use Rattle.query_numbers.specs.Batch.{is_refused, any_numbers, is_one_of, AnyFits, Ready, AnswersAs, AnswersBy, TimedBy, MovedBy, PeriodBy, OneAnswered, BatchAnswered, BatchEnds};

use refusal::Refused;
use rule::Schedule;
use schedule::Counted;
use schedule_periods::Period;

// The numbers of a query and of an answer.
pub const QUERY_SIZE: usize = 5;

pub const ANSWER_SIZE: usize = 6;

// Returned where the queries are not whole, and the number of an answer to a query of a kind that there is not.
pub const NO_QUERY: u32 = 101;

// The kinds of queries.
pub const BETWEEN: i64 = 0;

pub const ADD: i64 = 1;

pub const SUB: i64 = 2;

pub const NEXT: i64 = 3;

pub const PREVIOUS: i64 = 4;

// An answer: two numbers and the windows resolved, or a period's four.
#[derive(Clone, Copy)]
pub enum AnyAnswer {
    Counted(Counted),
    Period(Period),
}

// Why a query has no answer: it is none, or the call is refused.
#[derive(Clone, Copy)]
pub enum Unanswered {
    NoQuery,
    Refused(Refused),
}

impl From<Refused> for Unanswered {
    ghost from_gives = { is_refused };

    fn from(refused: Refused) -> Unanswered {
        Unanswered::Refused(refused)
    }
}

// ---- one answer

fn time(
    book: &[u8],
    pack: &[u8],
    s: Schedule,
    a: i64,
    b: i64,
    c: i64,
    d: i64,
) -> Result<AnyAnswer, Unanswered>
    requires { Ready book.now pack.now s }
    ensures { TimedBy book.now pack.now s «a» «b» «c» «d» result }
{
    let t = schedule::between_in(book, pack, s, a, b, c, d)?;
    Ok(AnyAnswer::Counted(t))
}

fn moved(
    book: &[u8],
    pack: &[u8],
    s: Schedule,
    back: bool,
    a: i64,
    b: i64,
    c: i64,
    d: i64,
) -> Result<AnyAnswer, Unanswered>
    requires { Ready book.now pack.now s }
    ensures { MovedBy book.now pack.now s back «a» «b» «c» «d» result }
{
    let x = schedule::move_in(book, pack, s, back, a, b, c, d)?;
    Ok(AnyAnswer::Counted(x))
}

fn period(
    book: &[u8],
    pack: &[u8],
    s: Schedule,
    back: bool,
    a: i64,
    b: i64,
) -> Result<AnyAnswer, Unanswered>
    requires { Ready book.now pack.now s }
    ensures { PeriodBy book.now pack.now s back «a» «b» result }
{
    let p = schedule_periods::period_in(book, pack, s, back, a, b)?;
    Ok(AnyAnswer::Period(p))
}

// The kind is `add` or `sub`.
fn is_move(kind: i64) -> bool
    ensures { result ≡ is_one_of 1 2 «kind» }
{
    if kind == ADD {
        return true;
    }
    kind == SUB
}

// The kind is `next` or `previous`.
fn is_period(kind: i64) -> bool
    ensures { result ≡ is_one_of 3 4 «kind» }
{
    if kind == NEXT {
        return true;
    }
    kind == PREVIOUS
}

// The answer to one query. Periods do not look at c and d. Each call stands here once, so that the compiler can put it in here.
fn answer(
    book: &[u8],
    pack: &[u8],
    s: Schedule,
    kind: i64,
    a: i64,
    b: i64,
    c: i64,
    d: i64,
) -> Result<AnyAnswer, Unanswered>
    requires { Ready book.now pack.now s }
    ensures { AnswersBy book.now pack.now s «kind» «a» «b» «c» «d» result }
{
    if kind == BETWEEN {
        return time(book, pack, s, a, b, c, d);
    }
    if is_move(kind) {
        return moved(book, pack, s, kind != ADD, a, b, c, d);
    }
    if is_period(kind) {
        return period(book, pack, s, kind != NEXT, a, b);
    }
    Err(Unanswered::NoQuery)
}

// The answer of a book that is refused.
fn refused(r: Refused, kind: i64, a: i64, b: i64, c: i64, d: i64) -> Result<AnyAnswer, Unanswered>
    requires { r.place < 2 ^ 63 }
    ensures { AnswersAs (refuses (number_of r.refusal) r.place) «kind» «a» «b» «c» «d» result }
{
    if kind < BETWEEN {
        return Err(Unanswered::NoQuery);
    }
    if PREVIOUS < kind {
        return Err(Unanswered::NoQuery);
    }
    Err(Unanswered::Refused(r))
}

// The answer to one query, from what `build` answered.
fn reply(
    book: &[u8],
    pack: &[u8],
    built: &Result<Schedule, Refused>,
    kind: i64,
    a: i64,
    b: i64,
    c: i64,
    d: i64,
) -> Result<AnyAnswer, Unanswered>
    requires { Builds book.now pack.now built.now }
    ensures { AnswersAs (build book.now pack.now) «kind» «a» «b» «c» «d» result }
{
    match built {
        Ok(s) => answer(book, pack, *s, kind, a, b, c, d),
        Err(r) => refused(*r, kind, a, b, c, d),
    }
}

// Writes the six numbers of an answer from `at` on.
fn put(out: &mut [i64], at: usize, r: Result<AnyAnswer, Unanswered>)
    requires { (at + 6 ≤ length out.old) × AnyFits r }
    ensures { out.new ≡ written at (any_numbers r) out.old }
{
    match r {
        Ok(AnyAnswer::Counted(x)) => {
            answer_numbers::put(out, at, [0, x.windows as i64, x.secs, x.nanos, 0, 0])
        },
        Ok(AnyAnswer::Period(p)) => {
            answer_numbers::put(
                out,
                at,
                [0, 0, p.start.sec, p.start.ns, p.end.sec, p.end.ns],
            )
        },
        Err(Unanswered::NoQuery) => answer_numbers::put(
            out,
            at,
            [i64::from(NO_QUERY), 0, 0, 0, 0, 0],
        ),
        Err(Unanswered::Refused(r)) => {
            answer_numbers::put(
                out,
                at,
                [i64::from(r.refusal.number()), r.place as i64, 0, 0, 0, 0],
            )
        },
    }
}

// ---- all answers

// Answers the query that begins at i, from `at` on.
fn answer_one(
    book: &[u8],
    pack: &[u8],
    built: &Result<Schedule, Refused>,
    queries: &[i64],
    i: usize,
    out: &mut [i64],
    at: usize,
)
    requires { Builds book.now pack.now built.now × (i + 5 ≤ length queries.now) × (at + 6 ≤ length out.old) }
    ensures { OneAnswered (build book.now pack.now) queries.now i at
        out.old out.new }
{
    let j = i + 1;
    let k = j + 1;
    let l = k + 1;
    let m = l + 1;
    let r = reply(
        book, pack, built, queries[i], queries[j], queries[k], queries[l], queries[m],
    );
    put(out, at, r);
}

fn answer_all(
    book: &[u8],
    pack: &[u8],
    built: &Result<Schedule, Refused>,
    queries: &[i64],
    out: &mut [i64],
)
    requires { Builds book.now pack.now built.now × (6 * (length queries.now / 5) ≤ length out.old) }
    ensures { BatchAnswered (build book.now pack.now) queries.now
        out.old out.new }
{
    let mut i: usize = 0;
    let mut at: usize = 0;
    let mut left = queries.len() / QUERY_SIZE;
    while 0 < left {
        answer_one(book, pack, built, queries, i, out, at);
        i += QUERY_SIZE;
        at += ANSWER_SIZE;
        left -= 1;
    }
}

// Answers all queries, in their order. Returns 0, or what is wrong with the slices; then nothing is written.
pub fn hirgwamo_answers(book: &[u8], pack: &[u8], queries: &[i64], answers: &mut [i64]) -> u32
    ensures { BatchEnds book.now pack.now queries.now result answers.old answers.new }
{
    if queries.len() % QUERY_SIZE != 0 {
        return NO_QUERY;
    }
    if answers.len() / ANSWER_SIZE < queries.len() / QUERY_SIZE {
        return answer_numbers::TOO_SHORT;
    }
    answer_all(book, pack, &build::build(book, pack), queries, answers);
    answer_numbers::ANSWERED
}
