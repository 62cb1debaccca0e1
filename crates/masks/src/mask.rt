// Unused bits tested eight bytes at a time.
ghost use Rattle.std.specs.Prelude.{◌≡◌};
ghost use Rattle.masks.specs.Mask.{are_clear};

// Bits of two words of eight bytes, the first byte the lowest.
#[derive(Clone, Copy)]
pub struct Masks {
    pub low: u64,
    pub high: u64,
}

impl Masks {
    // Whether none of these bits is set in the two words.
    #[inline(always)]
    #[tactic(auto, unfolding(crate::specs::Mask::are_clear))]
    pub fn are_clear(self, low: u64, high: u64) -> bool
        ensures { result ≡ are_clear self low high }
    {
        low & self.low == 0 && high & self.high == 0
    }
}
