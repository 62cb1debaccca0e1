// The bytes and sizes of FT1.2 frames.

// "E5: acknowledgement."
pub const ACKNOWLEDGEMENT: u8 = 0xE5;

// "Fixed frame: 10 C C 16." "C = 40 is the reset request"; the server's own is C0.
pub const FIXED_START: u8 = 0x10;

pub const RESET_REQUEST: u8 = 0x40;

pub const SERVER_RESET: u8 = 0xC0;

// "Data frame: 68 L L 68, control, data, checksum, 16."
pub const DATA_START: u8 = 0x68;

pub const FRAME_END: u8 = 0x16;

// "a message has at most 254 bytes and a frame 261"
pub const LONGEST_MESSAGE: usize = 254;

pub const LONGEST_FRAME: usize = 261;

// What stands of a data frame in front of its message, and around it.
pub const BEFORE_MESSAGE: usize = 5;

pub const AROUND_MESSAGE: usize = 7;

// "Control from host: 73 (count bit odd) or 53 (even); from server: F3 or D3."
pub const HOST_ODD: u8 = 0x73;

pub const HOST_EVEN: u8 = 0x53;

pub const SERVER_ODD: u8 = 0xF3;

pub const SERVER_EVEN: u8 = 0xD3;

// "three times at most"
pub const MOST_RESENDS: u8 = 3;
