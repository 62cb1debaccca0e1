// What the bus has for a datapoint.
ghost use Rattle.std.specs.Prelude.{◌≡◌};
ghost use Rattle.baos.specs.Bus.{status_of};

// What becomes of a transmission on the bus, by the transmission status that it leaves.
#[derive(Clone, Copy, Debug, PartialEq, Eq)]
pub enum Outcome {
    Sent = 0,
    Failed = 1,
    InProgress = 2,
}

impl Outcome {
    // The transmission status that it leaves: 00, 01 or 10.
    #[tactic(auto, unfolding(crate::specs::Bus::status_of))]
    pub fn status(self) -> u8
        ensures { result ≡ status_of self }
    {
        self as u8
    }
}

// A bus event at the datapoint of an ID: a value, which is lent beside it, or the outcome of a transmission.
#[derive(Clone, Copy, Debug, PartialEq, Eq)]
pub enum BusEvent {
    Value,
    Transmission(Outcome),
}
