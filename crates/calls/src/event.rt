// The six things that happen.
use baos::bus::Outcome;

// The six things that happen. The value of a bus value is lent beside it.
#[derive(Clone, Copy)]
pub enum Event {
    HostByte(u8),
    IdleMark,
    AckWaitOver,
    Poll,
    BusValue(u16),
    TransmissionOutcome(u16, Outcome),
}
