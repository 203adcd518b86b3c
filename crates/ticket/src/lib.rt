// A ticket by value: where the clock of a service ticket stands between two commands, without its history. What a command makes of it, and which values are tickets.
#![tactic(auto)]

ghost use Rattle.std.specs.Prelude.{◌≡◌, true, ◌≤◌, ◌<◌, if◌then◌else◌};
ghost use Rattle.model.specs.Basic.{any};
ghost use Rattle.model_ticket.specs.History as commands;
ghost use Rattle.model_ticket.specs.Ticket as model;
ghost use Rattle.instant.specs.Instant.{nanos, InRange};
ghost use Rattle.ticket_marks.specs.Marks.{capacity, marks_in, has_name, is_within};
ghost use Rattle.ticket.specs.declared.State.TheVariants.{New, Running, Held};
ghost use Rattle.ticket.specs.Tickets.{action_is, is_state, is_instant, is_sound, standing, Begun, Goes, Becomes};

use instant::{Instant, Length};
use ticket_marks::{Mark, Marks};

// The states of a ticket. Other stands for any number that is no state's: a value with it is no ticket, and every command refuses it.
#[derive(Clone, Copy, PartialEq)]
pub enum State {
    New,
    Running,
    Held,
    Other(u32),
}

// A new ticket has nothing but its state.
#[derive(Clone, Copy)]
pub struct Ticket {
    pub state: State,
    // the instant of the last command
    pub last: Instant,
    // since when it has been running or held, and the time that had elapsed by then
    pub since: Instant,
    pub done: Length,
    pub marks: Marks,
}

// What a command asks for; a mark has a name.
#[derive(Clone, Copy)]
pub enum Action {
    Start,
    Hold,
    Resume,
    Mark(u64),
    Back(u64),
}

// A new ticket.
pub fn new_ticket() -> Ticket
    ensures { result.state ≡ New }
{
    let t = Instant { sec: 0, ns: 0 };
    let marks = ticket_marks::no_marks();
    Ticket {
        state: State::New,
        last: t,
        since: t,
        done: t,
        marks,
    }
}

// ---- which values are tickets

// Whether a state is one of the three.
fn is_state(state: State) -> bool
    ensures { result ≡ is_state state }
{
    !matches!(state, State::Other(_))
}

// Whether an instant is one of the range.
#[tactic(auto, unfolding(crate::specs::Tickets::is_instant))]
fn is_instant(t: Instant) -> bool
    ensures { result ≡ is_instant t }
{
    instant::FIRST <= t.sec && t.sec <= instant::LAST && t.ns < instant::SECOND_32
}

// Whether a ticket that is not new keeps what every command leaves: one of the states; instants of the range, in order; times no longer than what has passed since the
// first instant; at most eight marks, each name once.
pub fn is_ticket(k: Ticket) -> bool
    ensures { result ≡ is_sound k }
{
    let last = k.last;
    let since = k.since;
    let done = k.done;
    let marks = k.marks;
    if !is_state(k.state) {
        return false;
    }
    if !is_instant(last) {
        return false;
    }
    if !is_instant(since) {
        return false;
    }
    if instant::precedes(last, since) {
        return false;
    }
    if !ticket_marks::is_within(done, since) {
        return false;
    }
    if ticket_marks::CAPACITY < marks.len {
        return false;
    }
    ticket_marks::are_marks(marks, last)
}

// ---- which command may follow

// Whether a command may follow, of a ticket that was started.
pub fn may_follow(k: Ticket, a: Action) -> bool
    requires { Begun k }
    ensures { result ≡ model.may_follow (action_is a) (standing k) }
{
    let marks = k.marks;
    match a {
        Action::Start => false,
        Action::Hold => k.state == State::Running,
        Action::Resume => k.state != State::Running,
        Action::Mark(name) => name < ticket_marks::NAMES,
        Action::Back(name) => ticket_marks::find(marks, marks.len, name).is_some(),
    }
}

// Whether a command may follow, of a new ticket.
pub fn may_begin(a: Action) -> bool
    ensures { result ≡ model.may_follow (action_is a) model.new_ticket }
{
    matches!(a, Action::Start)
}

// ---- what a command leaves

// The ticket is started at t.
pub fn started(t: Instant) -> Ticket
    requires { InRange t }
    ensures { Becomes result (model.next_ticket commands.start (nanos t) 0 model.new_ticket) }
{
    let marks = ticket_marks::no_marks();
    let done = Length { sec: 0, ns: 0 };
    Ticket {
        state: State::Running,
        last: t,
        since: t,
        done,
        marks,
    }
}

// The ticket goes on hold at t, when the time e has elapsed.
pub fn held(k: Ticket, t: Instant, e: Length) -> Ticket
    requires { Goes k t × (is_within e (nanos t) ≡ true) }
    ensures { Becomes result (model.next_ticket commands.hold (nanos t) (nanos e) (standing k)) }
{
    let marks = k.marks;
    Ticket {
        state: State::Held,
        last: t,
        since: t,
        done: e,
        marks,
    }
}

// The ticket resumes at t.
pub fn resumed(k: Ticket, t: Instant) -> Ticket
    requires { Goes k t }
    ensures { Becomes result (model.next_ticket commands.resume (nanos t) 0 (standing k)) }
{
    let marks = k.marks;
    let done = k.done;
    Ticket {
        state: State::Running,
        last: t,
        since: t,
        done,
        marks,
    }
}

// A mark is set at t, when the time e has elapsed.
pub fn marked(k: Ticket, name: u64, t: Instant, e: Length) -> Ticket
    requires { Goes k t × (is_within e (nanos t) ≡ true) × (name < commands.names) }
    ensures { Becomes result (model.next_ticket (commands.mark name) (nanos t) (nanos e) (standing k)) }
{
    let since = k.since;
    let done = k.done;
    let before = k.marks;
    let x = Mark {
        name,
        running: k.state == State::Running,
        time: e,
    };
    let marks = ticket_marks::set(before, x);
    Ticket {
        state: k.state,
        last: t,
        since,
        done,
        marks,
    }
}

// The state that a mark restores.
fn state_at(m: Mark) -> State
    ensures { result ≡ (if m.running then Running else Held) }
{
    if m.running {
        State::Running
    } else {
        State::Held
    }
}

// The ticket is set back to the mark of that name, which is set, and counts on from t.
pub fn set_back(k: Ticket, name: u64, t: Instant) -> Ticket
    requires { Goes k t × (any (has_name name) (marks_in k.marks) ≡ true) }
    ensures { Becomes result (model.next_ticket (commands.back name) (nanos t) 0 (standing k)) × (result.since ≡ t) }
{
    let all = k.marks;
    let j = ticket_marks::find(all, all.len, name).unwrap();
    let m = all.items[j];
    let done = m.time;
    let marks = ticket_marks::first(all, j + 1);
    Ticket {
        state: state_at(m),
        last: t,
        since: t,
        done,
        marks,
    }
}
