// The gets: what is asked for, and the checks before and after the first pass.
ghost use Rattle.std.specs.Prelude.{◌≡◌, true, false, ◌∷◌, ◌++◌, ◌+◌, ◌≤◌, length, drop, MatchResult};
ghost use Rattle.words.specs.Words.{two_bytes};
ghost use Rattle.baos.specs.Datapoint.{datapoint_id, datapoint_ok};
ghost use Rattle.baos.specs.Item.{item_id, item_ok};
ghost use Rattle.baos.specs.Table.{datapoints_only, items_only, parameters_only, place, table_ok};
ghost use Rattle.baos.specs.Message.{sub_service, start_of, coded, code_number, finding_of};
ghost use Rattle.baos.specs.Get.{get_server_item, get_parameter_byte};
ghost use Rattle.baos.specs.Inner.Gather.{filter_asked, size_asked, wanted_of, request_finding, walked};
ghost use Rattle.baos.specs.Inner.Gather.{nothing_gathered};
ghost use Rattle.baos.specs.Inner.Gather.{get_datapoints, parameters_present};
ghost use Rattle.baos.specs.Inner.Promise.{Written, Answered};
ghost use Rattle.gets.specs.Measure.{record_step, Checked};

use crate::found::Entries;
use crate::gather::{Listed, build_datapoints, build_items, measure};
use baos::code::Code;
use baos::datapoint::Datapoint;
use baos::inner::{Fault, Wanted};
use baos::item::Item;
use baos::service::{MESSAGE_HEAD, ROOM_FOR_ENTRIES, VALUE_REQUEST};
use messages::message::{Request, filter_of, number_of, start_of};
use tables::table::place;
use words::bytes::put_bytes;

// How far behind the start the first parameter byte stands that does not fit.
const FIRST_OVER: u16 = 248;

// The filter, where values are asked for.
#[tactic(auto, unfolding(baos::specs::Inner::Gather::filter_asked))]
fn filter_asked(m: &[u8], values: bool) -> u8
    ensures { result ≡ filter_asked values m.now }
{
    if values { filter_of(m) } else { 0 }
}

// How long the request has to be.
#[tactic(auto, unfolding(baos::specs::Inner::Gather::size_asked))]
fn size_asked(values: bool) -> usize
    ensures { result ≡ size_asked values }
{
    if values { VALUE_REQUEST } else { MESSAGE_HEAD }
}

// What the request asks for: values, or anything else. `values` stays a flag, as the definitions' record has it.
#[tactic(auto, unfolding(baos::specs::Inner::Gather::wanted_of))]
pub fn wanted(m: &[u8], values: bool) -> Wanted
    requires { 6 ≤ length m.now }
    ensures { result ≡ wanted_of values m.now }
{
    let start = start_of(m);
    Wanted {
        start,
        end: start as u32 + number_of(m) as u32,
        filter: filter_asked(m, values),
        values,
    }
}

// Rows 10 and 6.
pub fn check_request(m: &[u8], values: bool) -> Result<(), Fault>
    requires { 6 ≤ length m.now }
    ensures { finding_of result ≡ request_finding values m.now }
{
    let id = start_of(m);
    if m.len() != size_asked(values) {
        return Err(Fault {
            id,
            code: Code::MessageInconsistent,
        });
    }
    if number_of(m) == 0 || 2 < filter_asked(m, values) {
        return Err(Fault {
            id,
            code: Code::BadServiceParameter,
        });
    }
    Ok(())
}

// How many parameter bytes there are to return.
fn parameters_present(count: usize, start: usize, number: usize) -> usize
    ensures { result ≡ parameters_present count start number }
{
    if start == 0 || count < start {
        return 0;
    }
    number.min(count - (start - 1))
}

// The parameter bytes to return.
fn parameters_asked<'a>(parameters: &'a [u8], request: Request<'_>) -> Result<&'a [u8], Fault>
    requires { length parameters.now ≤ 255 }
    ensures { let m = request.entry.message.now in
        let says = (get_parameter_byte (parameters_only parameters.now) m).says in MatchResult result
        (λ b. (length b.now ≤ 248) × (says ≡ (0xF0 ∷ (sub_service m + 0x80)
        ∷ two_bytes (start_of m) ++ two_bytes (length b.now)) ++ b.now))
        (λ f. says ≡ coded m f.id (code_number f.code)) }
{
    check_request(request.message, false)?;
    let start = start_of(request.message);
    let n = parameters_present(
        parameters.len(),
        start as usize,
        number_of(request.message) as usize,
    );
    if n == 0 {
        return Err(Fault {
            id: start,
            code: Code::NoElementFound,
        });
    }
    if ROOM_FOR_ENTRIES < n {
        return Err(Fault {
            id: start + FIRST_OVER,
            code: Code::BufferTooSmall,
        });
    }
    let first = start as usize - 1;
    Ok(&parameters[first..first + n])
}

// GetParameterByte: the answer, into the buffer at `at`; answers where it ends.
pub fn get_parameters(parameters: &[u8], request: Request<'_>, out: &mut [u8], at: usize) -> usize
    requires { (length parameters.now ≤ 255) × (at + 254 ≤ length out.old) }
    ensures { Written out.old at
        (get_parameter_byte (parameters_only parameters.now) request.entry.message.now).says result out.new }
{
    match parameters_asked(parameters, request) {
        Ok(bytes) => {
            let n = bytes.len();
            let end = request.put_answer_head(out, at, n as u16);
            put_bytes(out, end, bytes);
            end + n
        }
        Err(fault) => request.put_fault(out, at, fault),
    }
}

// What the checks of a get have found: what is wanted, from which place of the table on, and the entries.
#[derive(Clone, Copy)]
struct Listing {
    wanted: Wanted,
    from: usize,
    found: Entries,
}

// All checks of a get of a table, with its first pass.
fn list<R: Listed>(table: &[R], request: Request<'_>, values: bool) -> Result<Listing, Fault>
    requires { table_ok R.most R.id_of R.ok table.now ≡ true }
    ensures { let m = request.entry.message.now in
        let step = record_step R.id_of R.is_wanted R.entry in MatchResult result
        (λ l. (l.wanted ≡ wanted_of values m) × (l.from ≡ place R.id_of l.wanted.start table.now)
        × Checked (request_finding values m) l.wanted.start
        (walked (step l.wanted) nothing_gathered (drop l.from table.now)) (Ok l.found))
        (λ f. let w = wanted_of values m in Checked (request_finding values m) w.start
        (walked (step w) nothing_gathered (drop (place R.id_of w.start table.now) table.now)) (Err f)) }
{
    check_request(request.message, values)?;
    let wanted = wanted(request.message, values);
    let from = place(table, wanted.start);
    let found = measure(table, from, wanted)?;
    Ok(Listing {
        wanted,
        from,
        found,
    })
}

// GetDatapointDescription, or GetDatapointValue where values are asked for: the answer, into the buffer at `at`;
// answers where it ends. Nothing is written before the first pass has found that all entries fit.
pub fn get_datapoints(
    table: &mut [Datapoint],
    request: Request<'_>,
    values: bool,
    out: &mut [u8],
    at: usize,
) -> usize
    requires { (table_ok 1000 datapoint_id datapoint_ok table.old ≡ true) × (at + 254 ≤ length out.old) }
    ensures { let m = request.entry.message.now in Answered (get_datapoints values
        (datapoints_only table.old) m).after.datapoints
        out.old at (get_datapoints values (datapoints_only table.old) m).says result
        out.new table.new }
{
    match list(table, request, values) {
        Ok(l) => {
            let end = request.put_answer_head(out, at, l.found.count);
            build_datapoints(table, l.from, l.wanted, out, end, l.found.size)
        }
        Err(fault) => request.put_fault(out, at, fault),
    }
}

// GetServerItem: the answer, into the buffer at `at`; answers where it ends.
pub fn get_items(table: &[Item], request: Request<'_>, out: &mut [u8], at: usize) -> usize
    requires { (table_ok 64 item_id item_ok table.now ≡ true) × (at + 254 ≤ length out.old) }
    ensures { Written out.old at
        (get_server_item (items_only table.now) request.entry.message.now).says result out.new }
{
    match list(table, request, false) {
        Ok(l) => {
            let end = request.put_answer_head(out, at, l.found.count);
            build_items(table, l.from, l.wanted, out, end)
        }
        Err(fault) => request.put_fault(out, at, fault),
    }
}
