// The functions that other languages link (part/hirgwamo.h): one for each public call, on numbers and lent slices. Each answers in the numbers lent as
// `answer`, and returns 0 or a refusal's number; where these numbers are too few it returns TOO_SHORT and writes nothing. The function for many queries,
// `hirgwamo_answers`, is that of crate `query_numbers`.
#![tactic(auto)]

ghost use Rattle.std.specs.Prelude.{◌≡◌, ◌^◌, ◌≤◌, ◌<◌, length};
ghost use Rattle.model.specs.Build as books;
ghost use Rattle.model.specs.Calls as model;
ghost use Rattle.model.specs.Hardest as logs;
ghost use Rattle.model.specs.Marks as marks;
ghost use Rattle.model.specs.ZoneCalls as zones;
ghost use Rattle.model.specs.Answer.{refuses};
ghost use Rattle.refusal.specs.Refused.{number_of};
ghost use Rattle.answer_numbers.specs.Outcomes.{answering, EndsAs};
ghost use Rattle.hirgwamo.specs.Part.{version, Tells, TellsList, verdict, with_count, one_number, when_changed, verdict_size, between_size, instant_size, period_size, marked_period_size, stretch_size, offset_size, change_size, resolved_size, marked_instant_size};

use refusal::Refused;

// Major times 1,000,000, minor times 1,000, patch.
pub const VERSION: u32 = 1001000;

// The numbers of each answer.
pub const VERDICT_SIZE: usize = 1;

pub const TIME_SIZE: usize = 3;

pub const INSTANT_SIZE: usize = 3;

pub const PERIOD_SIZE: usize = 4;

pub const MARKED_PERIOD_SIZE: usize = 6;

pub const COUNT_SIZE: usize = 1;

pub const STRETCH_SIZE: usize = 4;

pub const OFFSET_SIZE: usize = 1;

pub const CHANGE_SIZE: usize = 3;

pub const RESOLVED_SIZE: usize = 2;

pub const MARKED_INSTANT_SIZE: usize = 3;

// ---- refusals

// Gives a refusal's place, and returns its number.
fn refuse(answer: &mut [i64], r: Refused) -> u32
    requires { (1 ≤ length answer.old) × (r.place < 2 ^ 63) }
    ensures { EndsAs result answer.new (answering (refuses (number_of r.refusal) r.place) answer.old) }
{
    answer_numbers::refuse(answer, r.refusal.number(), r.place)
}

// ---- books

// Whether a book builds.
#[tactic(auto, unfolding(answer_numbers::specs::Outcomes::outcome))]
#[unsafe(no_mangle)]
pub extern "C" fn hirgwamo_build(book: &[u8], pack: &[u8], answer: &mut [i64]) -> u32
    ensures { Tells verdict_size (verdict (books.build book.now pack.now)) result answer.old answer.new }
{
    if answer.len() < VERDICT_SIZE {
        return answer_numbers::TOO_SHORT;
    }
    match build::build(book, pack) {
        Ok(_) => answer_numbers::give(answer, [0]),
        Err(refused) => refuse(answer, refused),
    }
}

// The working time from the instant a to the instant b.
#[tactic(auto, unfolding(answer_numbers::specs::Outcomes::outcome))]
#[unsafe(no_mangle)]
pub extern "C" fn hirgwamo_between(
    book: &[u8],
    pack: &[u8],
    a_sec: i64,
    a_ns: i64,
    b_sec: i64,
    b_ns: i64,
    answer: &mut [i64],
) -> u32
    ensures { Tells between_size (with_count (model.between book.now pack.now a_sec a_ns b_sec b_ns))
        result answer.old answer.new }
{
    if answer.len() < TIME_SIZE {
        return answer_numbers::TOO_SHORT;
    }
    match schedule::between(book, pack, a_sec, a_ns, b_sec, b_ns) {
        Ok(x) => answer_numbers::give(answer, [x.secs, x.nanos, x.windows as i64]),
        Err(r) => refuse(answer, r),
    }
}

// The instant that is a duration of working time after the instant t.
#[tactic(auto, unfolding(answer_numbers::specs::Outcomes::outcome))]
#[unsafe(no_mangle)]
pub extern "C" fn hirgwamo_add(
    book: &[u8],
    pack: &[u8],
    t_sec: i64,
    t_ns: i64,
    d_sec: i64,
    d_ns: i64,
    answer: &mut [i64],
) -> u32
    ensures { Tells instant_size (with_count (model.add book.now pack.now t_sec t_ns d_sec d_ns))
        result answer.old answer.new }
{
    if answer.len() < INSTANT_SIZE {
        return answer_numbers::TOO_SHORT;
    }
    match schedule::add(book, pack, t_sec, t_ns, d_sec, d_ns) {
        Ok(x) => answer_numbers::give(answer, [x.secs, x.nanos, x.windows as i64]),
        Err(r) => refuse(answer, r),
    }
}

// The instant that is a duration of working time before the instant t.
#[tactic(auto, unfolding(answer_numbers::specs::Outcomes::outcome))]
#[unsafe(no_mangle)]
pub extern "C" fn hirgwamo_sub(
    book: &[u8],
    pack: &[u8],
    t_sec: i64,
    t_ns: i64,
    d_sec: i64,
    d_ns: i64,
    answer: &mut [i64],
) -> u32
    ensures { Tells instant_size (with_count (model.sub book.now pack.now t_sec t_ns d_sec d_ns))
        result answer.old answer.new }
{
    if answer.len() < INSTANT_SIZE {
        return answer_numbers::TOO_SHORT;
    }
    match schedule::sub(book, pack, t_sec, t_ns, d_sec, d_ns) {
        Ok(x) => answer_numbers::give(answer, [x.secs, x.nanos, x.windows as i64]),
        Err(r) => refuse(answer, r),
    }
}

// The period at an instant or the first one after it.
#[tactic(auto, unfolding(answer_numbers::specs::Outcomes::outcome))]
#[unsafe(no_mangle)]
pub extern "C" fn hirgwamo_next_period(
    book: &[u8],
    pack: &[u8],
    sec: i64,
    ns: i64,
    answer: &mut [i64],
) -> u32
    ensures { Tells period_size (model.said (model.next_period book.now pack.now «sec» «ns»))
        result answer.old answer.new }
{
    if answer.len() < PERIOD_SIZE {
        return answer_numbers::TOO_SHORT;
    }
    match schedule_periods::next_period(book, pack, sec, ns) {
        Ok(x) => {
            let p = x.period;
            answer_numbers::give(answer, [p.start.sec, p.start.ns, p.end.sec, p.end.ns])
        }
        Err(r) => refuse(answer, r),
    }
}

// The last period that begins before an instant.
#[tactic(auto, unfolding(answer_numbers::specs::Outcomes::outcome))]
#[unsafe(no_mangle)]
pub extern "C" fn hirgwamo_previous_period(
    book: &[u8],
    pack: &[u8],
    sec: i64,
    ns: i64,
    answer: &mut [i64],
) -> u32
    ensures { Tells period_size (model.said (model.previous_period book.now pack.now «sec» «ns»))
        result answer.old answer.new }
{
    if answer.len() < PERIOD_SIZE {
        return answer_numbers::TOO_SHORT;
    }
    match schedule_periods::previous_period(book, pack, sec, ns) {
        Ok(x) => {
            let p = x.period;
            answer_numbers::give(answer, [p.start.sec, p.start.ns, p.end.sec, p.end.ns])
        }
        Err(r) => refuse(answer, r),
    }
}

// The period at an instant or the first one after it, with the marks of both ends.
#[tactic(auto, unfolding(answer_numbers::specs::Outcomes::outcome))]
#[unsafe(no_mangle)]
pub extern "C" fn hirgwamo_next_period_marked(
    book: &[u8],
    pack: &[u8],
    sec: i64,
    ns: i64,
    answer: &mut [i64],
) -> u32
    ensures { Tells marked_period_size (marks.next_marked book.now pack.now «sec» «ns») result answer.old answer.new }
{
    if answer.len() < MARKED_PERIOD_SIZE {
        return answer_numbers::TOO_SHORT;
    }
    match schedule_periods::next_period(book, pack, sec, ns) {
        Ok(x) => {
            let p = x.period;
            let m = x.marks;
            answer_numbers::give(
                answer,
                [
                    p.start.sec,
                    p.start.ns,
                    p.end.sec,
                    p.end.ns,
                    i64::from(m.start.number()),
                    i64::from(m.end.number()),
                ],
            )
        }
        Err(r) => refuse(answer, r),
    }
}

// The last period that begins before an instant, with the marks of both ends.
#[tactic(auto, unfolding(answer_numbers::specs::Outcomes::outcome))]
#[unsafe(no_mangle)]
pub extern "C" fn hirgwamo_previous_period_marked(
    book: &[u8],
    pack: &[u8],
    sec: i64,
    ns: i64,
    answer: &mut [i64],
) -> u32
    ensures { Tells marked_period_size (marks.previous_marked book.now pack.now «sec» «ns») result answer.old answer.new }
{
    if answer.len() < MARKED_PERIOD_SIZE {
        return answer_numbers::TOO_SHORT;
    }
    match schedule_periods::previous_period(book, pack, sec, ns) {
        Ok(x) => {
            let p = x.period;
            let m = x.marks;
            answer_numbers::give(
                answer,
                [
                    p.start.sec,
                    p.start.ns,
                    p.end.sec,
                    p.end.ns,
                    i64::from(m.start.number()),
                    i64::from(m.end.number()),
                ],
            )
        }
        Err(r) => refuse(answer, r),
    }
}

// All stretches of working time from the instant a to the instant b, in the numbers lent as `stretches`.
#[tactic(auto, unfolding(answer_numbers::specs::Outcomes::outcome))]
#[unsafe(no_mangle)]
pub extern "C" fn hirgwamo_list(
    book: &[u8],
    pack: &[u8],
    a_sec: i64,
    a_ns: i64,
    b_sec: i64,
    b_ns: i64,
    stretches: &mut [i64],
    answer: &mut [i64],
) -> u32
    ensures { TellsList (model.list book.now pack.now a_sec a_ns b_sec b_ns stretches.old)
        result answer.old answer.new stretches.old stretches.new }
{
    if answer.len() < COUNT_SIZE {
        return answer_numbers::TOO_SHORT;
    }
    match schedule_listing::list(book, pack, a_sec, a_ns, b_sec, b_ns, stretches) {
        Ok(n) => answer_numbers::give(answer, [n as i64]),
        Err(r) => refuse(answer, r),
    }
}

// The hardest stretch of a log of runs.
#[tactic(auto, unfolding(answer_numbers::specs::Outcomes::outcome))]
#[unsafe(no_mangle)]
pub extern "C" fn hirgwamo_hardest(
    book: &[u8],
    pack: &[u8],
    t_sec: i64,
    t_ns: i64,
    log: &[i64],
    width: i64,
    answer: &mut [i64],
) -> u32
    ensures { Tells stretch_size (model.said (logs.hardest book.now pack.now t_sec t_ns log.now «width»))
        result answer.old answer.new }
{
    if answer.len() < STRETCH_SIZE {
        return answer_numbers::TOO_SHORT;
    }
    match schedule_hardest::hardest(book, pack, t_sec, t_ns, log, width) {
        Ok(x) => answer_numbers::give(answer, [x.time.secs, x.time.nanos, x.start.sec, x.start.ns]),
        Err(r) => refuse(answer, r),
    }
}

// ---- zone files

// The offset of a zone at an instant.
#[tactic(auto, unfolding(answer_numbers::specs::Outcomes::outcome))]
#[unsafe(no_mangle)]
pub extern "C" fn hirgwamo_offset(file: &[u8], sec: i64, ns: i64, answer: &mut [i64]) -> u32
    ensures { Tells offset_size (one_number (zones.offset_call file.now «sec» «ns»)) result answer.old answer.new }
{
    if answer.len() < OFFSET_SIZE {
        return answer_numbers::TOO_SHORT;
    }
    match zone_calls::offset_in(file, sec, ns) {
        Ok(offset) => answer_numbers::give(answer, [offset]),
        Err(r) => refuse(answer, r),
    }
}

// The next change of a zone's offset after an instant.
#[tactic(auto, unfolding(answer_numbers::specs::Outcomes::outcome))]
#[unsafe(no_mangle)]
pub extern "C" fn hirgwamo_next_change(file: &[u8], sec: i64, ns: i64, answer: &mut [i64]) -> u32
    ensures { Tells change_size (when_changed (zones.change_call file.now «sec» «ns»)) result answer.old answer.new }
{
    if answer.len() < CHANGE_SIZE {
        return answer_numbers::TOO_SHORT;
    }
    match zone_calls::next_change_in(file, sec, ns) {
        Ok(Some(t)) => answer_numbers::give(answer, [1, t.sec, t.ns]),
        Ok(None) => answer_numbers::give(answer, [0, 0, 0]),
        Err(r) => refuse(answer, r),
    }
}

// The instant of a local time.
#[tactic(auto, unfolding(answer_numbers::specs::Outcomes::outcome))]
#[unsafe(no_mangle)]
pub extern "C" fn hirgwamo_resolve(
    file: &[u8],
    year: i64,
    month: i64,
    day: i64,
    second: i64,
    ns: i64,
    answer: &mut [i64],
) -> u32
    ensures { Tells resolved_size (zones.resolve_call file.now «year» «month» «day» «second» «ns»)
        result answer.old answer.new }
{
    if answer.len() < RESOLVED_SIZE {
        return answer_numbers::TOO_SHORT;
    }
    match zone_calls::resolve_in(file, year, month, day, second, ns) {
        Ok(x) => answer_numbers::give(answer, [x.at.sec, x.at.ns]),
        Err(r) => refuse(answer, r),
    }
}

// The instant of a local time, with its mark.
#[tactic(auto, unfolding(answer_numbers::specs::Outcomes::outcome))]
#[unsafe(no_mangle)]
pub extern "C" fn hirgwamo_resolve_marked(
    file: &[u8],
    year: i64,
    month: i64,
    day: i64,
    second: i64,
    ns: i64,
    answer: &mut [i64],
) -> u32
    ensures { Tells marked_instant_size (marks.resolve_marked_call file.now «year» «month» «day» «second» «ns»)
        result answer.old answer.new }
{
    if answer.len() < MARKED_INSTANT_SIZE {
        return answer_numbers::TOO_SHORT;
    }
    match zone_calls::resolve_in(file, year, month, day, second, ns) {
        Ok(x) => answer_numbers::give(answer, [x.at.sec, x.at.ns, i64::from(x.mark.number())]),
        Err(r) => refuse(answer, r),
    }
}

// ---- the library

// The version of the library.
#[unsafe(no_mangle)]
pub extern "C" fn hirgwamo_version() -> u32
    ensures { result ≡ version }
{
    VERSION
}
