// The error codes of document 000, appendix B, that the server gives.
ghost use Rattle.std.specs.Prelude.{◌≡◌};
ghost use Rattle.baos.specs.Message.{code_number};

// What the positive answer of a set has in an error code's place.
pub const NO_ERROR: u8 = 0;

// What an error answer says is wrong.
#[derive(Clone, Copy, Debug, PartialEq, Eq)]
pub enum Code {
    NoElementFound = 2,
    BufferTooSmall = 3,
    ItemNotWritable = 4,
    ServiceNotSupported = 5,
    BadServiceParameter = 6,
    BadId = 7,
    BadCommandOrValue = 8,
    BadLength = 9,
    MessageInconsistent = 10,
}

impl Code {
    // As an answer has it.
    #[tactic(auto, unfolding(crate::specs::Message::code_number))]
    pub fn number(self) -> u8
        ensures { result ≡ code_number self }
    {
        self as u8
    }
}
