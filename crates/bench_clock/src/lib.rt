// The calls for a program that times them (bench/clock): many answers, builds and listings of one book in a call, so that the book is built once
// for all answers. What is asked stands in the lent numbers and the answers come in their place: so no two of them are known to be equal before.
// And the hardest stretch of one log, whose call builds the book itself.
#![tactic(auto)]

ghost use Rattle.std.specs.Prelude.{◌≡◌, ◌+◌, ◌≤◌, length};
ghost use Rattle.rule.specs.Rules.{ScheduleFits};
ghost use Rattle.laws_base.specs.Mapped.{Mapped};
ghost use Rattle.bench_clock.specs.Asked.{reply_is, written_at, limit_of, IsTime, IsMove, IsPeriod, AnsweredAt, AllAnswered, BookAnswered, ListsOften, ListsOf};
ghost use Rattle.bench_clock.specs.Asked.{IsHardest, HardestWritten};

use refusal::Refused;
use rule::Schedule;

// The numbers of a question, and the most of an answer.
const GROUP_SIZE: usize = 4;

// ---- answers

fn time(
    book: &[u8],
    pack: &[u8],
    s: Schedule,
    a: i64,
    b: i64,
    c: i64,
    d: i64,
) -> Result<[i64; 2], Refused>
    requires { ScheduleFits book.now pack.now s }
    ensures { IsTime book.now pack.now s a b c d result }
{
    let x = schedule::between_in(book, pack, s, a, b, c, d)?;
    Ok([x.secs, x.nanos])
}

fn moved(
    book: &[u8],
    pack: &[u8],
    s: Schedule,
    back: bool,
    a: i64,
    b: i64,
    c: i64,
    d: i64,
) -> Result<[i64; 2], Refused>
    requires { ScheduleFits book.now pack.now s }
    ensures { IsMove book.now pack.now s back a b c d result }
{
    let x = schedule::move_in(book, pack, s, back, a, b, c, d)?;
    Ok([x.secs, x.nanos])
}

// The marks of a period are looked for, as the calls do, and left out.
fn period(
    book: &[u8],
    pack: &[u8],
    s: Schedule,
    back: bool,
    a: i64,
    b: i64,
) -> Result<[i64; 4], Refused>
    requires { ScheduleFits book.now pack.now s }
    ensures { IsPeriod book.now pack.now s back a b result }
{
    let x = schedule_periods::marked_period_in(book, pack, s, back, a, b)?;
    let p = x.period;
    Ok([p.start.sec, p.start.ns, p.end.sec, p.end.ns])
}

// Writes an answer's numbers from i on; of a refusal its number.
fn put<const N: usize>(xs: &mut [i64], i: usize, r: Result<[i64; N], Refused>)
    requires { (1 ≤ N) × (i + N ≤ length xs.old) }
    ensures { xs.new ≡ written_at i (reply_is r.entry) xs.old }
{
    match r {
        Ok(numbers) => answer_numbers::put(xs, i, numbers),
        Err(refused) => xs[i] = i64::from(refused.refusal.number()),
    }
}

// Answers the question whose four numbers begin at i, in their place: kind 0 is between, 1 add, 2 sub, 3 the next period, any other the previous one.
// Periods do not look at the last two numbers.
fn answer_one(book: &[u8], pack: &[u8], s: Schedule, kind: u8, xs: &mut [i64], i: usize)
    requires { ScheduleFits book.now pack.now s × (i + 4 ≤ length xs.old) }
    ensures { AnsweredAt book.now pack.now s kind i xs.old xs.new }
{
    let j = i + 1;
    let k = i + 2;
    let l = i + 3;
    if kind == 0 {
        let r = time(book, pack, s, xs[i], xs[j], xs[k], xs[l]);
        return put(xs, i, r);
    }
    if kind < 3 {
        let r = moved(book, pack, s, kind != 1, xs[i], xs[j], xs[k], xs[l]);
        return put(xs, i, r);
    }
    let r = period(book, pack, s, kind != 3, xs[i], xs[j]);
    put(xs, i, r);
}

fn answer_all(book: &[u8], pack: &[u8], s: Schedule, kind: u8, xs: &mut [i64])
    requires { ScheduleFits book.now pack.now s }
    ensures { AllAnswered book.now pack.now s kind xs.old xs.new }
{
    for k in 0..xs.len() / GROUP_SIZE {
        answer_one(book, pack, s, kind, xs, GROUP_SIZE * k);
    }
}

// Answers the questions of one kind, four numbers each, in their place. A book that is refused changes nothing.
#[unsafe(no_mangle)]
pub extern "C" fn bench_clock_answers(book: &[u8], pack: &[u8], kind: u8, xs: &mut [i64])
    ensures { BookAnswered book.now pack.now kind xs.old xs.new }
{
    let Ok(s) = build::build(book, pack) else {
        return;
    };
    answer_all(book, pack, s, kind, xs);
}

// ---- builds

// The search limit of the schedule of the book's first n bytes, in seconds, or the number of the refusal.
fn limit(book: &[u8], pack: &[u8], n: u64) -> u64
    ensures { result ≡ limit_of book.now pack.now n }
{
    match build::build(big_endian::part(book, 0, n as usize), pack) {
        Ok(s) => s.limit,
        Err(r) => u64::from(r.refusal.number()),
    }
}

// Builds once for each of the numbers, which are lengths of the book, and puts the search limits in their place.
#[unsafe(no_mangle)]
pub extern "C" fn bench_clock_builds(book: &[u8], pack: &[u8], xs: &mut [u64])
    ensures { Mapped (limit_of book.now pack.now) xs.old xs.new }
{
    for x in xs.iter_mut() {
        *x = limit(book, pack, *x);
    }
}

// ---- listings

fn lists(
    book: &[u8],
    pack: &[u8],
    s: Schedule,
    n: usize,
    a: i64,
    b: i64,
    c: i64,
    d: i64,
    out: &mut [i64],
)
    requires { ScheduleFits book.now pack.now s }
    ensures { ListsOften book.now pack.now s n a b c d out.old out.new }
{
    for k in 0..n {
        let _ = schedule_listing::list_in(book, pack, s, a, b, c, d, out);
    }
}

// Lists the stretches from one instant to another, several times over the same numbers. A book that is refused changes nothing.
#[unsafe(no_mangle)]
pub extern "C" fn bench_clock_lists(
    book: &[u8],
    pack: &[u8],
    times: usize,
    a: i64,
    b: i64,
    c: i64,
    d: i64,
    out: &mut [i64],
)
    ensures { ListsOf book.now pack.now times a b c d out.old out.new }
{
    let Ok(s) = build::build(book, pack) else {
        return;
    };
    lists(book, pack, s, times, a, b, c, d, out);
}

// ---- the hardest stretch of a log

fn hardest(
    book: &[u8],
    pack: &[u8],
    a: i64,
    b: i64,
    log: &[i64],
    width: i64,
) -> Result<[i64; 4], Refused>
    ensures { IsHardest book.now pack.now a b log.now width result }
{
    let x = schedule_hardest::hardest(book, pack, a, b, log, width)?;
    Ok([x.time.secs, x.time.nanos, x.start.sec, x.start.ns])
}

// Writes the hardest stretch of a log to the first four lent numbers, or its refusal's number to the first. Fewer than four stay as they are.
#[unsafe(no_mangle)]
pub extern "C" fn bench_clock_hardest(
    book: &[u8],
    pack: &[u8],
    a: i64,
    b: i64,
    log: &[i64],
    width: i64,
    out: &mut [i64],
)
    ensures { HardestWritten book.now pack.now a b log.now width
        out.old out.new }
{
    if out.len() < GROUP_SIZE {
        return;
    }
    put(out, 0, hardest(book, pack, a, b, log, width));
}
