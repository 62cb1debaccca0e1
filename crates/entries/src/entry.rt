// The entries of answers, one record each.
ghost use Rattle.std.specs.Prelude.{◌+◌, ◌≤◌, length};
ghost use Rattle.baos.specs.Get.{item_entry, description_entry, value_entry};
ghost use Rattle.baos.specs.Datapoint.{size_of};
ghost use Rattle.baos.specs.Inner.Gather.{wide_value};
ghost use Rattle.baos.specs.Inner.Promise.{Written, WrittenWide};

use baos::datapoint::Datapoint;
use baos::item::Item;
use values::value::size_by_rule;
use words::bytes::put_bytes;

// The item's entry in an answer, into the buffer at `at`; answers where it ends.
pub fn put_item(out: &mut [u8], at: usize, i: Item) -> usize
    requires { (i.size ≤ 16) × (at + 3 + i.size ≤ length out.old) }
    ensures { Written out.old at (item_entry i).bytes result out.new }
{
    let [high, low] = i.id.to_be_bytes();
    let n = i.size as usize;
    // By way of the stack go the bytes alone, and not the item.
    let bytes = i.bytes;
    put_bytes(out, at, &[high, low, i.size]);
    put_bytes(out, at + 3, &bytes[..n]);
    at + 3 + n
}

// The record's entry in a description answer, into the buffer at `at`; answers where it ends.
pub fn put_description(out: &mut [u8], at: usize, d: Datapoint) -> usize
    requires { at + 5 ≤ length out.old }
    ensures { Written out.old at (description_entry d).bytes result out.new }
{
    let [high, low] = d.id.to_be_bytes();
    put_bytes(out, at, &[high, low, d.typecode, d.flags, d.dpt]);
    at + 5
}

// The record's entry in a value answer or an indication, the state byte as it is, into the buffer at `at`; answers
// where it ends.
#[tactic(auto, using(baos::proofs::DatapointLaws::size_fits, baos::proofs::ValueLaws::size_of_bits))]
pub fn put_value(out: &mut [u8], at: usize, d: Datapoint) -> usize
    requires { (d.typecode ≤ 14) × (at + 4 + size_of d.typecode ≤ length out.old) }
    ensures { Written out.old at (value_entry d).bytes result out.new }
{
    let [high, low] = d.id.to_be_bytes();
    // One byte, as most values have: no copy, and no look at its size.
    if d.typecode < 8 {
        put_bytes(out, at, &[high, low, d.state, 1, d.value[0]]);
        return at + 5;
    }
    let n = size_by_rule(d.typecode);
    // By way of the stack goes the value alone, and not the record.
    let value = d.value;
    put_bytes(out, at, &[high, low, d.state, n as u8]);
    put_bytes(out, at + 4, &value[..n]);
    at + 4 + n
}

// The same where others follow, with all of the value's memory: no branch on its size. The next entry overwrites what
// is behind the value.
#[tactic(auto, using(baos::proofs::DatapointLaws::size_fits))]
pub fn put_wide_value(out: &mut [u8], at: usize, d: Datapoint) -> usize
    requires { (d.typecode ≤ 14) × (at + 18 ≤ length out.old) }
    ensures { WrittenWide out.old at (wide_value d) (value_entry d).bytes result out.new }
{
    let [high, low] = d.id.to_be_bytes();
    let n = size_by_rule(d.typecode);
    // The value first: it then goes from the record into the buffer, and not by way of the stack.
    put_bytes(out, at + 4, &d.value);
    put_bytes(out, at, &[high, low, d.state, n as u8]);
    at + 4 + n
}
