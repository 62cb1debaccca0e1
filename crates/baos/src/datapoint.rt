// A datapoint record.

// A datapoint: one record of the lent run of records.
#[repr(C)]
#[derive(Clone, Copy, Debug, Default, PartialEq, Eq)]
pub struct Datapoint {
    pub id: u16,
    pub typecode: u8,
    // Config flags and DPT, as the project sets them: any byte.
    pub flags: u8,
    pub dpt: u8,
    // Bit 4 valid, bit 3 updated from bus, bit 2 data request, bits 1-0 transmission status.
    pub state: u8,
    pub value: [u8; 14],
    // The report mark, 0 or 1: 1 where the value came from the bus and waits for an indication.
    pub mark: u8,
}

// The weights of two config flags, "Datapoint communication" and "Transmit to bus".
pub const COMMUNICATION: u8 = 0x04;

pub const TRANSMIT: u8 = 0x40;
