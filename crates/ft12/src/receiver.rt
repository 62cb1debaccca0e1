// The byte-wise receiver: what a byte is after those gathered before it.

// What a byte is, after the bytes gathered before it.
#[derive(Clone, Copy)]
pub enum Judgement {
    // It fits, and the frame is not yet whole.
    More,
    // It breaks the forms.
    Damage,
    Acknowledgement,
    // It ends a fixed frame with this control byte.
    Fixed(u8),
    // It ends a data frame with this control byte and this L.
    Data(u8, u8),
}
