// From a query to its answer line.
#![tactic(auto)]

ghost use Rattle.std.specs.Prelude.{◌≡◌, ◌+◌, ◌≤◌, length};
ghost use Rattle.rule.specs.Rules.{ScheduleFits};
ghost use Rattle.build.specs.Read.{Builds};
ghost use Rattle.answer_line.specs.Placed.{longest, PlacedLine};
ghost use Rattle.query_answer.specs.Answering.{refusal_text, counted_text, period_text, LineAnswered, Replied};

use query_line::Query;
use refusal::Refused;
use rule::Schedule;
use schedule::Counted;
use schedule_periods::Period;

// ---- the line of an answer

// Writes the line of a refusal.
fn put_refused(out: &mut [u8], at: usize, r: Refused) -> usize
    requires { at + longest ≤ length out.old }
    ensures { PlacedLine out.old out.new at result (refusal_text r) }
{
    answer_line::put_refused(out, at, u64::from(r.refusal.number()), r.place as u64)
}

// Writes the line of a working time, or of an instant that was moved to.
fn put_counted(out: &mut [u8], at: usize, r: Result<Counted, Refused>) -> usize
    requires { at + longest ≤ length out.old }
    ensures { PlacedLine out.old out.new at result (counted_text r) }
{
    match r {
        Ok(x) => answer_line::put_counted(out, at, x.secs, x.nanos, x.windows),
        Err(r) => put_refused(out, at, r),
    }
}

// Writes the line of a period.
fn put_period(out: &mut [u8], at: usize, r: Result<Period, Refused>) -> usize
    requires { at + longest ≤ length out.old }
    ensures { PlacedLine out.old out.new at result (period_text r) }
{
    match r {
        Ok(p) => answer_line::put_period(out, at, p.start.sec, p.start.ns, p.end.sec, p.end.ns),
        Err(r) => put_refused(out, at, r),
    }
}

// ---- the line of a query

// The answer of a schedule that was built.
fn put_answer(book: &[u8], pack: &[u8], s: Schedule, q: Query, out: &mut [u8], at: usize) -> usize
    requires { ScheduleFits book.now pack.now s × (at + longest ≤ length out.old) }
    ensures { LineAnswered book.now pack.now s q out.old out.new at result }
{
    match q {
        Query::Between(a, b, c, d) => {
            let r = schedule::between_in(book, pack, s, a, b, c, d);
            put_counted(out, at, r)
        }
        Query::Add(a, b, c, d) => {
            let r = schedule::move_in(book, pack, s, false, a, b, c, d);
            put_counted(out, at, r)
        }
        Query::Sub(a, b, c, d) => {
            let r = schedule::move_in(book, pack, s, true, a, b, c, d);
            put_counted(out, at, r)
        }
        Query::Next(a, b) => {
            let r = schedule_periods::period_in(book, pack, s, false, a, b);
            put_period(out, at, r)
        }
        Query::Previous(a, b) => {
            let r = schedule_periods::period_in(book, pack, s, true, a, b);
            put_period(out, at, r)
        }
    }
}

// Writes the answer line of a query, from what `build` answered. None is a line that is no query. The schedule is not copied where it is not asked.
pub fn answer(
    book: &[u8],
    pack: &[u8],
    b: &Result<Schedule, Refused>,
    q: Option<Query>,
    out: &mut [u8],
    at: usize,
) -> usize
    requires { Builds book.now pack.now b.now × (at + longest ≤ length out.old) }
    ensures { Replied book.now pack.now q out.old out.new at result }
{
    let Some(q) = q else {
        return answer_line::put_bad(out, at);
    };
    match b {
        Ok(s) => put_answer(book, pack, *s, q, out, at),
        Err(r) => put_refused(out, at, *r),
    }
}
