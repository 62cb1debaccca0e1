// The link record.

// The link record, lent by the serial loop. A two-valued thing is a byte, 0 or 1; a bit is 1 where it is odd.
#[repr(C)]
#[derive(Clone, Copy, Debug, PartialEq, Eq)]
pub struct Link {
    // The bytes of the frame that is being received, and how many they are.
    pub receiver: [u8; 260],
    pub received: u16,
    // Whether the receiver drops what comes, up to the next idle mark.
    pub dropping: u8,
    // The count bit of the next request that is carried out.
    pub expected: u8,
    // The count bit of the next data frame that the server sends, or of the outstanding one.
    pub send: u8,
    // The bytes of the frame that waits for its acknowledgement, and how many they are: none where nothing is
    // outstanding.
    pub outstanding: [u8; 261],
    pub held: u16,
    // How often the outstanding frame was sent again.
    pub resends: u8,
}
