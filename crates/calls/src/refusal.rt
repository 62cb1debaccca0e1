// The call refusals of document 01, and the room that no call refuses.
ghost use Rattle.std.specs.Prelude.{◌≡◌};
ghost use Rattle.calls.specs.Reply.{refusal_number};

use std::fmt;

// Why a call is refused. Of several the lowest number is given.
// A bad table is not the first variant: the tag 0 would be set for each record that is looked at (host/counts.txt).
#[derive(Clone, Copy, Debug, PartialEq, Eq)]
pub enum Refusal {
    BadBusEvent = 4,
    TableNotWellFormed = 1,
    LinkNotInRange = 2,
    NoRoom = 3,
}

impl Refusal {
    // The paper's number.
    pub fn number(self) -> u8
        ensures { result ≡ refusal_number self }
    {
        self as u8
    }
}

impl fmt::Display for Refusal {
    fn fmt<W: fmt::Write>(&self, f: &mut fmt::Formatter<W>) -> fmt::Result {
        f.write_str(match self {
            Refusal::TableNotWellFormed => "a table is not well formed",
            Refusal::LinkNotInRange => "the link record is not in range",
            Refusal::NoRoom => "the output has too little room",
            Refusal::BadBusEvent =>
                "the bus event names no datapoint, or a value that it cannot take",
        })
    }
}

pub const LEAST_ROOM: usize = 262;
