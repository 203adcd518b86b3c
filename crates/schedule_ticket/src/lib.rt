// The ticket clock: a command to a service ticket, at an instant. The ticket is a value that its owner keeps: a command answers the ticket from then on with the working
// time that has elapsed, or a refusal beside the ticket as it was.
#![tactic(auto)]

ghost use Rattle.std.specs.Prelude.{◌≡◌, true, ◌≤◌};
ghost use Rattle.std.proofs.Math.Option.{some};
ghost use Rattle.model.specs.Answer.{refuses};
ghost use Rattle.model.specs.Instant.{last_instant};
ghost use Rattle.model_ticket.specs.History as commands;
ghost use Rattle.model_ticket.specs.Ticket as model;
ghost use Rattle.instant.specs.Instant.{nanos, InRange};
ghost use Rattle.refusal.specs.Refused.{number_of};
ghost use Rattle.rule.specs.Rules.{schedule_is, ScheduleFits};
ghost use Rattle.ticket_marks.specs.Marks.{is_within};
ghost use Rattle.ticket.specs.Tickets.{action_is, standing, ticket_is, Begun, Goes};
ghost use Rattle.schedule_ticket.specs.Told.{AsTold, Accepts, Elapsed, next_told, TellsFirst, command_with};

use instant::{Instant, Length};
use refusal::{Refusal, Refused};
use rule::Schedule;
use ticket::{Action, State, Ticket};

// What a command answers. The number is 0 where it was accepted; then the time is what has elapsed, and the ticket the one from then on. Else they are a refusal's
// number and place, no time, and the ticket as it was.
#[derive(Clone, Copy)]
pub struct TicketAnswer {
    pub number: u32,
    pub place: usize,
    pub time: Length,
    pub ticket: Ticket,
}

// A refusal; the ticket stays.
fn refused(k: Ticket, r: Refused) -> TicketAnswer
    ensures { AsTold k (refuses (number_of r.refusal) r.place) result }
{
    let time = Length { sec: 0, ns: 0 };
    TicketAnswer {
        number: r.refusal.number(),
        place: r.place,
        time,
        ticket: k,
    }
}

// A ticket from now on, with the time that has elapsed.
fn accepted(k: Ticket, time: Length) -> TicketAnswer
    requires { Begun k × (is_within time last_instant ≡ true) }
    ensures { Accepts (record { time = nanos time; ticket = some (standing k) }) result }
{
    TicketAnswer {
        number: 0,
        place: 0,
        time,
        ticket: k,
    }
}

// The working time that has elapsed up to t.
fn elapsed(book: &[u8], pack: &[u8], s: Schedule, k: Ticket, t: Instant) -> Length
    requires { ScheduleFits book.now pack.now s × Goes k t }
    ensures { Elapsed (schedule_is book.now pack.now s) k t result }
{
    let done = k.done;
    if k.state != State::Running {
        return done;
    }
    let since = k.since;
    let spell = walk_between::between(book, pack, s, since, t);
    let time = spell.time;
    instant::sum(done, time)
}

// The ticket is started at t.
fn start(t: Instant) -> TicketAnswer
    requires { InRange t }
    ensures { Accepts (record { time = 0; ticket = some (model.next_ticket commands.start (nanos t) 0 model.new_ticket) }) result }
{
    let time = Length { sec: 0, ns: 0 };
    accepted(ticket::started(t), time)
}

// A command to a ticket that was started, which may follow at t.
fn follow(book: &[u8], pack: &[u8], s: Schedule, k: Ticket, a: Action, t: Instant) -> TicketAnswer
    requires { ScheduleFits book.now pack.now s × Goes k t × (model.may_follow (action_is a) (standing k) ≡ true) }
    ensures { Accepts (next_told (schedule_is book.now pack.now s) a (nanos t) (standing k)) result }
{
    match a {
        Action::Start => start(t),
        Action::Hold => {
            let e = elapsed(book, pack, s, k, t);
            accepted(ticket::held(k, t, e), e)
        },
        Action::Resume => {
            let done = k.done;
            accepted(ticket::resumed(k, t), done)
        },
        Action::Mark(name) => {
            let e = elapsed(book, pack, s, k, t);
            accepted(ticket::marked(k, name, t, e), e)
        },
        Action::Back(name) => {
            let j = ticket::set_back(k, name, t);
            let done = j.done;
            accepted(j, done)
        },
    }
}

// A command to a new ticket at t: it can be started.
fn first(k: Ticket, a: Action, t: Instant) -> TicketAnswer
    requires { InRange t }
    ensures { TellsFirst k a t result }
{
    if !ticket::may_begin(a) {
        return refused(
            k,
            Refused {
                refusal: Refusal::NotAllowed,
                place: 0,
            },
        );
    }
    start(t)
}

// A command to a ticket, of a schedule that was built before.
pub fn command_in(
    book: &[u8],
    pack: &[u8],
    s: Schedule,
    k: Ticket,
    a: Action,
    sec: i64,
    ns: i64,
) -> TicketAnswer
    requires { ScheduleFits book.now pack.now s }
    ensures { AsTold k (command_with book.now pack.now s k a «sec» «ns») result }
{
    let Some(t) = instant_signed::instant_of(sec, ns) else {
        return refused(
            k,
            Refused {
                refusal: Refusal::InstantOutOfRange,
                place: 0,
            },
        );
    };
    if k.state == State::New {
        return first(k, a, t);
    }
    if !ticket::is_ticket(k) {
        return refused(
            k,
            Refused {
                refusal: Refusal::NotAllowed,
                place: 0,
            },
        );
    }
    let last = k.last;
    if instant::precedes(t, last) {
        return refused(
            k,
            Refused {
                refusal: Refusal::EarlierInstant,
                place: 0,
            },
        );
    }
    if !ticket::may_follow(k, a) {
        return refused(
            k,
            Refused {
                refusal: Refusal::NotAllowed,
                place: 0,
            },
        );
    }
    follow(book, pack, s, k, a, t)
}

// A command to a ticket, by the book and the pack.
pub fn command(book: &[u8], pack: &[u8], k: Ticket, a: Action, sec: i64, ns: i64) -> TicketAnswer
    ensures { AsTold k (model.command book.now pack.now (ticket_is k) (action_is a) «sec» «ns») result }
{
    match build::build(book, pack) {
        Ok(s) => command_in(book, pack, s, k, a, sec, ns),
        Err(r) => refused(k, r),
    }
}
