// A server item, by value: whether a set entry may be applied to it, and how it is set.
ghost use Rattle.std.specs.Prelude.{◌≡◌, ◌≤◌, length};
ghost use Rattle.baos.specs.Item.{with_bytes};
ghost use Rattle.baos.specs.Message.{code_of};
ghost use Rattle.baos.specs.Set.{item_code};

use baos::code::Code;
use baos::item::Item;
use words::bytes::put_bytes;

// What is wrong with a set entry for this item.
#[tactic(auto, unfolding(baos::specs::Message::code_of, baos::specs::Message::code_number, baos::specs::Set::item_code))]
pub fn judge_item(i: Item, value: &[u8]) -> Result<(), Code>
    ensures { code_of result ≡ item_code i value.now }
{
    if i.writable != 1 {
        Err(Code::ItemNotWritable)
    } else if value.len() != i.size as usize {
        Err(Code::BadLength)
    } else {
        Ok(())
    }
}

// The item with these data.
pub fn with_bytes(i: Item, value: &[u8]) -> Item
    requires { length value.now ≤ 16 }
    ensures { result ≡ with_bytes value.now i }
{
    let mut bytes = [0u8; 16];
    put_bytes(&mut bytes, 0, value);
    Item { bytes, ..i }
}
