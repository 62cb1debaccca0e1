// GetDescriptionString: the checks before and after the first pass.
ghost use Rattle.std.specs.Prelude.{◌≡◌, true, false, ◌+◌, ◌≤◌, length, drop, MatchResult};
ghost use Rattle.baos.specs.Datapoint.{datapoint_id, datapoint_ok};
ghost use Rattle.baos.specs.Text.{text_lists, text_lists_ok};
ghost use Rattle.baos.specs.Table.{datapoints_with_texts, place, table_ok};
ghost use Rattle.baos.specs.Get.{get_description_string};
ghost use Rattle.baos.specs.Inner.Cursors.{cursors_of};
ghost use Rattle.baos.specs.Inner.Gather.{request_finding, wanted_of, walked, nothing_gathered};
ghost use Rattle.baos.specs.Inner.Strings.{string_step};
ghost use Rattle.baos.specs.Inner.Promise.{Written};
ghost use Rattle.gets.specs.Measure.{Checked};

use crate::gather::{build_strings, measure_strings};
use baos::datapoint::Datapoint;
use baos::inner::{Cursors, Fault, Wanted};
use gets::found::Entries;
use gets::get::{check_request, wanted};
use messages::message::Request;
use tables::table::place;
use texts::text::{AT_START, TextLists};

// What the checks have found: what is wanted, from which place of the table and of the text lists on, and the entries.
#[derive(Clone, Copy)]
struct Listing {
    wanted: Wanted,
    from: usize,
    cursors: Cursors,
    found: Entries,
}

// All checks, with the first pass. The cursors of the range's first ID are found once, for both passes.
fn list(table: &[Datapoint], texts: TextLists<'_>, request: Request<'_>) -> Result<Listing, Fault>
    requires { table_ok 1000 datapoint_id datapoint_ok table.now ≡ true }
    ensures { let m = request.entry.message.now in
        let ts = text_lists texts.entry.site.now texts.entry.defaults.now in MatchResult result
        (λ l. (l.wanted ≡ wanted_of false m) × (l.from ≡ place datapoint_id l.wanted.start table.now)
        × (l.cursors ≡ cursors_of l.wanted.start ts)
        × Checked (request_finding false m) l.wanted.start
        (walked (string_step ts l.wanted) nothing_gathered (drop l.from table.now)) (Ok l.found))
        (λ f. let w = wanted_of false m in Checked (request_finding false m) w.start
        (walked (string_step ts w) nothing_gathered (drop (place datapoint_id w.start table.now) table.now)) (Err f)) }
{
    check_request(request.message, false)?;
    let wanted = wanted(request.message, false);
    let from = place(table, wanted.start);
    let cursors = texts.cursors_at(AT_START, wanted.start);
    let found = measure_strings(table, from, wanted, texts, cursors)?;
    Ok(Listing {
        wanted,
        from,
        cursors,
        found,
    })
}

// GetDescriptionString: the answer, into the buffer at `at`; answers where it ends. Nothing is written before the first
// pass has found that all strings fit.
pub fn get_strings<'a>(
    table: &[Datapoint],
    site: &'a [u8],
    defaults: &'a [u8],
    request: Request<'_>,
    out: &mut [u8],
    at: usize,
) -> usize
    requires { (table_ok 1000 datapoint_id datapoint_ok table.now ≡ true)
        × (text_lists_ok (text_lists site.now defaults.now) ≡ true) × (at + 254 ≤ length out.old) }
    ensures { Written out.old at (get_description_string
        (datapoints_with_texts table.now (text_lists site.now defaults.now)) request.entry.message.now).says result out.new }
{
    let texts = TextLists { site, defaults };
    match list(table, texts, request) {
        Ok(l) => {
            let end = request.put_answer_head(out, at, l.found.count);
            build_strings(table, l.from, l.wanted, texts, l.cursors, out, end)
        }
        Err(fault) => request.put_fault(out, at, fault),
    }
}
