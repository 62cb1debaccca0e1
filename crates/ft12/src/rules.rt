// What the link rules find.

// What a host byte is to the link.
#[derive(Clone, Copy)]
pub enum Heard {
    // A byte of a frame that is not yet whole.
    Gathered,
    // Damage, or a byte behind it.
    Dropped,
    // A whole frame, or an acknowledgement, that asks for nothing.
    Ignored,
    // The acknowledgement of the outstanding frame.
    Acknowledged,
    // The reset request.
    Reset,
    // A data frame with the other count bit.
    Repeat,
    // A data frame with the expected count bit and this L, nothing outstanding.
    Request(u8),
}

// The two count bits and the count of resends, as the record holds them.
#[derive(Clone, Copy)]
pub struct Bits {
    pub expected: u8,
    pub send: u8,
    pub resends: u8,
}
