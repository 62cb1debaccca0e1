// Items one behind the other: IDs that rise, unused bytes that are 0.
ghost use Rattle.std.specs.Prelude.{◌≡◌, ◌+◌, ◌≤◌};
ghost use Rattle.baos.specs.Item.{item_id, item_ok};
ghost use Rattle.masks.specs.Mask.{item_masks};

use crate::mask::Masks;
use crate::record::Record;
use baos::item::Item;

// The bits of an item's bytes that have to be 0, by the place of the last one in use.
static UNUSED_BYTES: [(u64, u64); 16] = [
    (0xffffffffffffff00, 0xffffffffffffffff),
    (0xffffffffffff0000, 0xffffffffffffffff),
    (0xffffffffff000000, 0xffffffffffffffff),
    (0xffffffff00000000, 0xffffffffffffffff),
    (0xffffff0000000000, 0xffffffffffffffff),
    (0xffff000000000000, 0xffffffffffffffff),
    (0xff00000000000000, 0xffffffffffffffff),
    (0x0000000000000000, 0xffffffffffffffff),
    (0x0000000000000000, 0xffffffffffffff00),
    (0x0000000000000000, 0xffffffffffff0000),
    (0x0000000000000000, 0xffffffffff000000),
    (0x0000000000000000, 0xffffffff00000000),
    (0x0000000000000000, 0xffffff0000000000),
    (0x0000000000000000, 0xffff000000000000),
    (0x0000000000000000, 0xff00000000000000),
    (0x0000000000000000, 0x0000000000000000),
];

fn unused_bytes(last: u32) -> Masks
    requires { last ≤ 15 }
    ensures { result ≡ item_masks (last + 1) }
{
    let (low, high) = UNUSED_BYTES[last as usize];
    Masks { low, high }
}

impl Record for Item {
    ghost id_of = { item_id };

    ghost ok = { item_ok };

    #[inline(always)]
    fn id(&self) -> u16 {
        self.id
    }

    // Size and writable are one number, lessened by 1 and with a bit above them: of the size's bits 7 to 4 and
    // writable's 7 to 1 none may be left, which is compiled to one load and one test.
    #[inline(always)]
    fn fits_after(&self, last: u16) -> bool {
        let w = self.size as u32 + self.writable as u32 * 0x100 + 0xFFFF;
        if w / 0x10 % 0x10 != 0 || w / 0x200 % 0x80 != 0 || self.id <= last {
            return false;
        }
        let v = &self.bytes;
        let low = u64::from_le_bytes([v[0], v[1], v[2], v[3], v[4], v[5], v[6], v[7]]);
        let high = u64::from_le_bytes([v[8], v[9], v[10], v[11], v[12], v[13], v[14], v[15]]);
        unused_bytes(w % 0x10).are_clear(low, high)
    }
}
