// Gathering strings into an answer, in two passes over the table as for other gets. The text lists are searched
// forward, by cursors that go along with each pass; those of the range's first ID are found once, for both.
ghost use Rattle.std.specs.Prelude.{◌≡◌, true, ◌++◌, ◌+◌, ◌≤◌, length, drop};
ghost use Rattle.words.specs.Words.{two_bytes};
ghost use Rattle.baos.specs.Datapoint.{datapoint_id, datapoint_ok};
ghost use Rattle.baos.specs.Text.{text_lists};
ghost use Rattle.baos.specs.Table.{place, table_ok};
ghost use Rattle.baos.specs.Inner.Cursors.{cursors_of};
ghost use Rattle.baos.specs.Inner.Gather.{walked, nothing_gathered};
ghost use Rattle.baos.specs.Inner.Strings.{string_step, strings_built};
ghost use Rattle.baos.specs.Inner.Promise.{Written};
ghost use Rattle.gets.specs.Measure.{Measured};

use baos::datapoint::Datapoint;
use baos::inner::{Cursors, Wanted};
use gets::found::{Entries, Faulty};
use gets::gather::is_behind;
use texts::text::TextLists;
use words::bytes::put_bytes;

// What stands in front of a text: "a length of two bytes".
const STRING_HEAD: usize = 2;

// A string, into the buffer at `at`; answers where it ends. A text has 30 bytes at most.
fn put_string(out: &mut [u8], at: usize, text: &[u8]) -> usize
    requires { (length text.now ≤ 30) × (at + 2 + length text.now ≤ length out.old) }
    ensures { Written out.old at (two_bytes (length text.now) ++ text.now) result out.new }
{
    let n = text.len();
    out[at] = 0;
    out[at + 1] = n as u8;
    put_bytes(out, at + STRING_HEAD, text);
    at + STRING_HEAD + n
}

// The first pass over the datapoints, from the place of the first ID of the range on, and in the text lists from that
// ID's cursors on: rows 2 and 3.
pub fn measure_strings(
    table: &[Datapoint],
    from: usize,
    w: Wanted,
    texts: TextLists<'_>,
    c: Cursors,
) -> Result<Entries, Faulty>
    requires { (table_ok 1000 datapoint_id datapoint_ok table.now ≡ true)
        × (from ≡ place datapoint_id w.start table.now)
        × (c ≡ cursors_of w.start (text_lists texts.site.now texts.defaults.now)) }
    ensures { Measured w.start (walked (string_step (text_lists texts.entry.site.now texts.entry.defaults.now) w)
        nothing_gathered (drop from table.now)) result }
{
    let mut found = Entries::new();
    let mut cursors = c;
    for d in &table[from..] {
        if is_behind(w, d.id) {
            break;
        }
        cursors = texts.cursors_at(cursors, d.id);
        let size = STRING_HEAD + texts.text_of(cursors, d.id).len();
        found = found
            .with_entry(d.id, size)
            .map_err(|fault| Faulty { found, fault })?;
    }
    found
        .unless_none(w.start)
        .map_err(|fault| Faulty { found, fault })
}

// The second pass over the datapoints, which stay as they are, from the same place and the same cursors on: the strings
// go into the buffer at `at`. Answers where they end.
pub fn build_strings(
    table: &[Datapoint],
    from: usize,
    w: Wanted,
    texts: TextLists<'_>,
    c: Cursors,
    out: &mut [u8],
    at: usize,
) -> usize
    requires { (table_ok 1000 datapoint_id datapoint_ok table.now ≡ true)
        × (from ≡ place datapoint_id w.start table.now)
        × (c ≡ cursors_of w.start (text_lists texts.site.now texts.defaults.now))
        × (at + length (strings_built (text_lists texts.site.now texts.defaults.now) w (drop from table.now))
        ≤ length out.old) }
    ensures { Written out.old at
        (strings_built (text_lists texts.entry.site.now texts.entry.defaults.now) w (drop from table.now)) result
        out.new }
{
    let mut end = at;
    let mut cursors = c;
    for d in &table[from..] {
        if is_behind(w, d.id) {
            return end;
        }
        cursors = texts.cursors_at(cursors, d.id);
        end = put_string(out, end, texts.text_of(cursors, d.id));
    }
    end
}
