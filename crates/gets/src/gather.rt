// Gathering entries into an answer: the core by value, and the two passes over a lent table. The first measures, and
// nothing is written before it is known that all entries fit; the second builds.
ghost use Rattle.std.specs.Prelude.{◌≡◌, true, Bool, ℕ, ◌++◌, ◌+◌, ◌≤◌, ◌<◌, length, take, drop};
ghost use Rattle.std.proofs.Common.{lit≤};
ghost use Rattle.baos.specs.declared.inner.Wanted.{Wanted};
ghost use Rattle.baos.specs.Get.{AnswerEntry, item_entry};
ghost use Rattle.baos.specs.Datapoint.{datapoint_id, datapoint_ok};
ghost use Rattle.baos.specs.Item.{item_id, item_ok};
ghost use Rattle.baos.specs.Table.{place, table_ok};
ghost use Rattle.baos.specs.Inner.Gather.{is_behind, is_within, is_wanted, entry_of, wide_of, left_of};
ghost use Rattle.baos.specs.Inner.Gather.{walked, nothing_gathered};
ghost use Rattle.baos.specs.Inner.Gather.{datapoints_built, datapoints_left, items_built};
ghost use Rattle.baos.specs.Inner.Promise.{Written, WrittenWide, Answered};
ghost use Rattle.baos.proofs.MeasureLaws.{entry_id};
ghost use Rattle.gets.specs.EntryLaws.{datapoint_bounds, item_id_lem, item_bounds};
ghost use Rattle.gets.specs.Measure.{size_wanted, record_step, Measured};

use crate::found::{Entries, Faulty};
use baos::datapoint::Datapoint;
use baos::inner::Wanted;
use baos::item::Item;
use entries::entry::{put_description, put_item, put_value, put_wide_value};
use masks::record::Record;
use records::datapoint::{handed_out, passes_filter};
use values::value::size_by_rule;

// Whether the ID is behind the range.
#[tactic(auto, unfolding(baos::specs::Inner::Gather::is_behind))]
pub fn is_behind(w: Wanted, id: u16) -> bool
    ensures { result ≡ is_behind w id }
{
    w.end <= id as u32
}

// A record of a table from which entries are gathered: its ID, and the entry that an answer has of it.
pub trait Listed: Record {
    ghost most: { ℕ };

    ghost is_wanted: { Wanted → Self → Bool };

    ghost entry: { Wanted → Self → AnswerEntry };

    // How many bytes its entry takes, if it is wanted. Its ID is in the range: the passes begin at the place of the
    // first ID, and end behind the last.
    fn entry_size(&self, w: Wanted) -> Option<usize>
        requires { (Self.ok self.now ≡ true) × (w.start ≤ Self.id_of self.now) × (Self.id_of self.now < w.end) }
        ensures { result ≡ size_wanted (is_wanted w self.now) (entry w self.now) };

    ghost few: { most ≤ 1000 };

    ghost entry_id: { (w : Wanted) (r : Self) → (entry w r).id ≡ Self.id_of r };

    ghost entry_bounds: { (w : Wanted) (r : Self) → Self.ok r ≡ true → (1 ≤ length (entry w r).bytes) × (length (entry w r).bytes ≤ 32) };
}

impl Listed for Datapoint {
    ghost most = { 1000 };

    ghost few = { lit≤ tt };

    ghost is_wanted = { is_wanted };

    ghost entry = { entry_of };

    ghost entry_id = { entry_id };

    ghost entry_bounds = { datapoint_bounds };

    fn entry_size(&self, w: Wanted) -> Option<usize> {
        if !passes_filter(*self, w.filter) {
            return None;
        }
        Some(if w.values {
            4 + size_by_rule(self.typecode)
        } else {
            5
        })
    }
}

impl Listed for Item {
    ghost most = { 64 };

    ghost few = { lit≤ tt };

    ghost is_wanted = { λ w i. is_within w i.id };

    ghost entry = { λ w i. item_entry i };

    ghost entry_id = { λ w i. item_id_lem i };

    ghost entry_bounds = { λ w i. item_bounds i };

    fn entry_size(&self, w: Wanted) -> Option<usize> {
        Some(3 + self.size as usize)
    }
}

// The record's entry, into the buffer at `at`; answers where it ends.
#[tactic(auto, unfolding(baos::specs::Inner::Gather::entry_of))]
fn put_entry(out: &mut [u8], at: usize, w: Wanted, d: Datapoint) -> usize
    requires { (d.typecode ≤ 14) × (at + length (entry_of w d).bytes ≤ length out.old) }
    ensures { Written out.old at (entry_of w d).bytes result out.new }
{
    if w.values {
        put_value(out, at, d)
    } else {
        put_description(out, at, d)
    }
}

// The same where others follow: it writes more, and so promises another thing.
#[tactic(auto, unfolding(baos::specs::Inner::Gather::entry_of, baos::specs::Inner::Gather::wide_of))]
fn put_wide_entry(out: &mut [u8], at: usize, w: Wanted, d: Datapoint) -> usize
    requires { (d.typecode ≤ 14) × (at + 18 ≤ length out.old) }
    ensures { WrittenWide out.old at (wide_of w d) (entry_of w d).bytes result out.new }
{
    if w.values {
        put_wide_value(out, at, d)
    } else {
        put_description(out, at, d)
    }
}

// The record after its entry was built.
#[tactic(auto, unfolding(baos::specs::Inner::Gather::left_of))]
fn left_of(w: Wanted, d: Datapoint) -> Datapoint
    ensures { result ≡ left_of w d }
{
    if w.values { handed_out(d) } else { d }
}

// The first pass over a table, from the place of the first ID of the range on: rows 2 and 3.
pub fn measure<R: Listed>(table: &[R], from: usize, w: Wanted) -> Result<Entries, Faulty>
    requires { (table_ok R.most R.id_of R.ok table.now ≡ true) × (from ≡ place R.id_of w.start table.now) }
    ensures { Measured w.start
        (walked (record_step R.id_of R.is_wanted R.entry w) nothing_gathered (drop from table.now)) result }
{
    let mut found = Entries::new();
    for record in &table[from..] {
        if is_behind(w, record.id()) {
            break;
        }
        if let Some(size) = record.entry_size(w) {
            found = found
                .with_entry(record.id(), size)
                .map_err(|fault| Faulty { found, fault })?;
        }
    }
    found
        .unless_none(w.start)
        .map_err(|fault| Faulty { found, fault })
}

// The second pass over the datapoints, from the place of the first ID of the range on: the entries go into the buffer
// at `at`, and each record is left as it is after its entry was built. Answers where the entries end. A wanted record
// is read anew, so that the others are not copied, and stored before its entry is built, so that only what is changed
// is stored. An entry that others follow is written with all of its value's memory, without a look at its size; all
// entries together have `size` bytes.
pub fn build_datapoints(
    table: &mut [Datapoint],
    from: usize,
    w: Wanted,
    out: &mut [u8],
    at: usize,
    size: usize,
) -> usize
    requires { (table_ok 1000 datapoint_id datapoint_ok table.old ≡ true)
        × (from ≡ place datapoint_id w.start table.old)
        × (at + length (datapoints_built w (drop from table.old)) ≤ length out.old)
        × (size ≡ length (datapoints_built w (drop from table.old))) }
    ensures { Answered (take from table.old ++ datapoints_left w
        (drop from table.old)) out.old at (datapoints_built w (drop from table.old)) result
        out.new table.new }
{
    let stop = at + size;
    let mut end = at;
    for i in from..table.len() {
        let d = table[i];
        if is_behind(w, d.id) {
            return end;
        }
        if passes_filter(d, w.filter) {
            // Read and stored in either branch: what is left and what is put then share one test for values.
            if end + 18 <= stop {
                let e = table[i];
                table[i] = left_of(w, e);
                end = put_wide_entry(out, end, w, e);
            } else {
                let e = table[i];
                table[i] = left_of(w, e);
                end = put_entry(out, end, w, e);
            }
        }
    }
    end
}

// The second pass over the items, which stay as they are.
pub fn build_items(table: &[Item], from: usize, w: Wanted, out: &mut [u8], at: usize) -> usize
    requires { (table_ok 64 item_id item_ok table.now ≡ true) × (from ≡ place item_id w.start table.now)
        × (at + length (items_built w (drop from table.now)) ≤ length out.old) }
    ensures { Written out.old at (items_built w (drop from table.now)) result out.new }
{
    let mut end = at;
    for item in &table[from..] {
        if is_behind(w, item.id) {
            return end;
        }
        end = put_item(out, end, *item);
    }
    end
}
