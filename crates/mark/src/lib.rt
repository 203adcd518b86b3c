// The marks of a local time and of a block's ends (document 02, request 4). Of two marks the greater is kept.
#![tactic(auto)]

ghost use Rattle.std.specs.Prelude.{◌≡◌};
ghost use Rattle.mark.specs.Marks.{mark_number};

#[derive(Clone, Copy, PartialEq, Eq, PartialOrd, Ord)]
pub enum Mark {
    // one instant reads so
    Plain,
    // two or more instants read so: the clock was set back
    Repeated,
    // no instant reads so: the clock was set forward over it
    Skipped,
    // the instant lies beyond the range
    Beyond,
}

impl Mark {
    // The number by which it is answered.
    pub fn number(self) -> u32
        ensures { result ≡ mark_number self }
    {
        match self {
            Mark::Plain => 0,
            Mark::Repeated => 1,
            Mark::Skipped => 2,
            Mark::Beyond => 3,
        }
    }
}
