// A burst: everything between two idle marks at once (document 02, item 8).
ghost use Rattle.std.specs.Prelude.{◌≡◌};
ghost use Rattle.ft12.specs.Burst.{number_of_refusal};

// "up to 2048 bytes"; "a lent run of 2048 places"; "call number 8 for a longer burst or a shorter run".
pub const LONGEST_BURST: usize = 2048;

pub const LEAST_PLACES: usize = 2048;

pub const BAD_BURST: u8 = 8;

// "whether the burst ended clean, in damage or in an unfinished frame", with the place in this list, which firmware gets.
#[derive(Clone, Copy, Debug, PartialEq, Eq)]
pub enum Ending {
    Clean = 1,
    Damaged = 2,
    Unfinished = 3,
}

// "how many sound frames (ignored ones too) and acknowledgements it found", and how the burst ended.
#[derive(Clone, Copy, Debug, PartialEq, Eq)]
pub struct Figures {
    pub frames: u16,
    pub acknowledgements: u16,
    pub ending: Ending,
}

// Why the reader of bursts refuses: a longer burst, or a shorter run. Both have the number BAD_BURST.
#[derive(Clone, Copy, Debug, PartialEq, Eq)]
pub enum BurstRefusal {
    TooLong,
    TooFewPlaces,
}

impl BurstRefusal {
    // The paper's number.
    pub fn number(self) -> u8
        ensures { result ≡ number_of_refusal self }
    {
        match self {
            BurstRefusal::TooLong | BurstRefusal::TooFewPlaces => BAD_BURST,
        }
    }
}

// The answer as C has it: minus the refusal's number, or the place of the ending in the paper's list, 1 to 3; and the two
// counts, 0 where the burst was refused.
#[repr(C)]
#[derive(Clone, Copy)]
pub struct BurstNumbers {
    pub number: i32,
    pub frames: u16,
    pub acknowledgements: u16,
}
