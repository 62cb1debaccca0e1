// The reading of a datapoint (document 02, item 3).
ghost use Rattle.std.specs.Prelude.{◌≡◌};
ghost use Rattle.dpt.specs.Reply.{reading_refusal_number};

use std::fmt;

// "one of: a switch state (DPT 1, type 0), a count (DPT 5, type 7), a two-octet value (DPT 9, type 8), a single (DPT 14,
// type 10), or unreadable. The reading carries its floating value in the case it belongs to."
#[derive(Clone, Copy)]
pub enum Reading {
    Switch(bool),
    Count(u8),
    TwoOctet(f32),
    Single(f32),
    Unreadable,
}

// Why none is given for an ID: "call 1 as before, then 4 for an ID that is absent".
#[derive(Clone, Copy, Debug, PartialEq, Eq)]
pub enum ReadingRefusal {
    TableNotWellFormed = 1,
    AbsentId = 4,
}

impl ReadingRefusal {
    // The paper's number.
    pub fn number(self) -> u8
        ensures { result ≡ reading_refusal_number self }
    {
        self as u8
    }
}

impl fmt::Display for ReadingRefusal {
    fn fmt<W: fmt::Write>(&self, f: &mut fmt::Formatter<W>) -> fmt::Result {
        f.write_str(match self {
            ReadingRefusal::TableNotWellFormed => "the table is not well formed",
            ReadingRefusal::AbsentId => "the ID is absent",
        })
    }
}

// The same as C has it: minus the refusal's number, or the place of the reading's case in the paper's list, 1 to 5; and
// what the case carries, a whole number (on is 1, off is 0) or a floating one. What it does not carry is 0.
#[repr(C)]
#[derive(Clone, Copy)]
pub struct ReadingNumbers {
    pub number: i32,
    pub whole: u32,
    pub value: f32,
}
