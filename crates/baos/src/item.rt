// A server item.

// A server item.
#[repr(C)]
#[derive(Clone, Copy, Debug, Default, PartialEq, Eq)]
pub struct Item {
    pub id: u16,
    // How many bytes of data it has, 1 to 16.
    pub size: u8,
    // 0 or 1.
    pub writable: u8,
    pub bytes: [u8; 16],
}
