// Datapoints one behind the other: IDs that rise, unused bits that are 0.
ghost use Rattle.std.specs.Prelude.{◌≡◌, ◌≤◌};
ghost use Rattle.baos.specs.Datapoint.{datapoint_id, datapoint_ok};
ghost use Rattle.masks.specs.Mask.{datapoint_masks};

use crate::mask::Masks;
use crate::record::Record;
use baos::datapoint::Datapoint;

// The bits of a record's bytes 5 to 12 and 13 to 20 that have to be 0, by type code: two words, the first byte the
// lowest.
static UNUSED_BITS: [(u64, u64); 15] = [
    (0xfffffffffffffee0, 0xfeffffffffffffff),
    (0xfffffffffffffce0, 0xfeffffffffffffff),
    (0xfffffffffffff8e0, 0xfeffffffffffffff),
    (0xfffffffffffff0e0, 0xfeffffffffffffff),
    (0xffffffffffffe0e0, 0xfeffffffffffffff),
    (0xffffffffffffc0e0, 0xfeffffffffffffff),
    (0xffffffffffff80e0, 0xfeffffffffffffff),
    (0xffffffffffff00e0, 0xfeffffffffffffff),
    (0xffffffffff0000e0, 0xfeffffffffffffff),
    (0xffffffff000000e0, 0xfeffffffffffffff),
    (0xffffff00000000e0, 0xfeffffffffffffff),
    (0xff000000000000e0, 0xfeffffffffffffff),
    (0x00000000000000e0, 0xfeffffffffffff00),
    (0x00000000000000e0, 0xfeffffffff000000),
    (0x00000000000000e0, 0xfe00000000000000),
];

fn unused_bits(typecode: u8) -> Masks
    requires { typecode ≤ 14 }
    ensures { result ≡ datapoint_masks typecode }
{
    let (low, high) = UNUSED_BITS[typecode as usize];
    Masks { low, high }
}

impl Record for Datapoint {
    ghost id_of = { datapoint_id };

    ghost ok = { datapoint_ok };

    #[inline(always)]
    fn id(&self) -> u16 {
        self.id
    }

    // Two words of eight bytes against masks by type code.
    #[inline(always)]
    #[tactic(auto, using(crate::proofs::MaskLaws::not_coded))]
    fn fits_after(&self, last: u16) -> bool {
        if self.typecode > 14 || self.id <= last {
            return false;
        }
        let v = &self.value;
        let low = u64::from_le_bytes([self.state, v[0], v[1], v[2], v[3], v[4], v[5], v[6]]);
        let high = u64::from_le_bytes([v[7], v[8], v[9], v[10], v[11], v[12], v[13], self.mark]);
        unused_bits(self.typecode).are_clear(low, high)
    }
}
