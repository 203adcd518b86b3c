// The hardest stretch of a pump's log: of the windows of a given width, each of which starts with a run of the log, the earliest of those with the most
// running time that was also working time. The log is lent as `&[i64]`, offset and length of each run in turn, in whole seconds from a given instant; no
// function can change what lies behind such a reference.
#![tactic(auto)]

ghost use Rattle.std.specs.Prelude.{◌≡◌, ◌+◌, ◌*◌, ◌≤◌};
ghost use Rattle.model.specs.Hardest as model;
ghost use Rattle.model.specs.Instant.{second, last_instant};
ghost use Rattle.instant.specs.Instant.{nanos, InRange};
ghost use Rattle.rule.specs.Rules.{ScheduleFits};
ghost use Rattle.refusal.specs.Answered.{answer_of};
ghost use Rattle.schedule_hardest.specs.Hardests.{hardest_numbers, hardest_reply, stretch_numbers, hardest_with};

use instant::Instant;
use instant_signed::{Duration, SignedInstant};
use refusal::{Refusal, Refused};
use rule::Schedule;
use walk_hardest::Stretch;

// What `hardest` gives: the working time of the window, and the window's start.
#[derive(Clone, Copy)]
pub struct HardestStretch {
    pub time: Duration,
    pub start: SignedInstant,
}

// A window's time as a duration, and its start as an instant.
fn stretch_given(t: Instant, h: Stretch) -> HardestStretch
    requires { InRange t × (nanos t + h.start * second ≤ last_instant) }
    ensures { hardest_numbers result ≡ stretch_numbers h.time (nanos t + h.start * second) }
{
    let time = instant::from_nanoseconds(h.time);
    HardestStretch {
        time: instant_signed::pair(false, time.sec, time.ns),
        start: instant_signed::signed_instant(Instant {
            sec: t.sec + h.start,
            ns: t.ns,
        }),
    }
}

// The hardest stretch of a log, of a schedule that was built before.
pub fn hardest_in(
    book: &[u8],
    pack: &[u8],
    s: Schedule,
    t_sec: i64,
    t_ns: i64,
    log: &[i64],
    width: i64,
) -> Result<HardestStretch, Refused>
    requires { ScheduleFits book.now pack.now s }
    ensures { answer_of hardest_reply result ≡ hardest_with book.now pack.now s
        t_sec t_ns log.now «width» }
{
    let t = instant_signed::instant_of(t_sec, t_ns).ok_or(Refusal::InstantOutOfRange)?;
    let is_log = run_log::is_log(t, log);
    let is_width = run_log::is_width(width);
    if !is_log {
        return Err(Refusal::LogMalformed.into());
    }
    if !is_width {
        return Err(Refusal::WidthOutOfRange.into());
    }
    let seconds = run_log::unsigned(width);
    Ok(stretch_given(t, walk_hardest::hardest(book, pack, s, t, log, seconds)))
}

// The hardest stretch of a log, by the book and the pack.
pub fn hardest(
    book: &[u8],
    pack: &[u8],
    t_sec: i64,
    t_ns: i64,
    log: &[i64],
    width: i64,
) -> Result<HardestStretch, Refused>
    ensures { answer_of hardest_reply result ≡ model.hardest book.now pack.now
        t_sec t_ns log.now «width» }
{
    // Not by `?`: that copies the schedule.
    match build::build(book, pack) {
        Ok(s) => hardest_in(book, pack, s, t_sec, t_ns, log, width),
        Err(r) => Err(r),
    }
}
