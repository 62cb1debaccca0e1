// The sets of items and datapoints: the entries of a request are found, judged, and then applied.
ghost use Rattle.std.specs.Prelude.{if◌then◌else◌, ◌≡◌, true, ◌∷◌, [], map, ◌≤◌, ◌+◌, length, drop, IsTrue, MatchResult};
ghost use Rattle.baos.specs.Datapoint.{datapoint_id, datapoint_ok};
ghost use Rattle.baos.specs.Item.{item_id, item_ok};
ghost use Rattle.baos.specs.Table.{datapoints_only, items_only, found, changed_at, place, rising, table_ok};
ghost use Rattle.baos.specs.Message.{start_of, coded, answer_of, code_of, finding_of};
ghost use Rattle.baos.specs.Inner.Promise.{Answered, Written};
ghost use Rattle.baos.specs.Set.{set_datapoint_value, set_server_item, fills, span, set_entries, first_bad, set_finding};
ghost use Rattle.baos.specs.Set.{applied, all_short};
ghost use Rattle.sets.specs.Settable.{begins, Placed, entries_of};

use crate::entry::{Settable, entry_end, entry_id};
use baos::code::{Code, NO_ERROR};
use baos::datapoint::Datapoint;
use baos::inner::Fault;
use baos::item::Item;
use baos::service::MESSAGE_HEAD;
use messages::message::{Request, number_of, start_of};
use tables::table::place;

// The entries of a request found, one after the other: whether n of them fill the message exactly. Each ID that
// `places` has room for is searched here and nowhere else, while the next entry's length is waited for.
fn find_entries<T: Settable>(table: &[T], request: Request<'_>, n: u16, places: &mut [u16]) -> bool
    requires { (length table.now ≤ T.most) × (rising 0 (map T.id_of table.now) ≡ true) }
    ensures filled { result ≡ fills T.HEAD n (drop 6 request.entry.message.now) }
    ensures placed { IsTrue result
        → Placed T.id_of T.first T.HEAD request.entry.message.now table.now n places.new }
{
    let m = request.message;
    let head = T::HEAD;
    let mut at = MESSAGE_HEAD;
    for k in 0..n as usize {
        if m.len() - at < head {
            return false;
        }
        let span = head + m[at + head - 1] as usize;
        if m.len() - at < span {
            return false;
        }
        if k < places.len() {
            places[k] = place(table, entry_id(m, at)) as u16;
        }
        at += span;
    }
    at == m.len()
}

// Where in the table the ID of entry k belongs, which begins at `at`. It was found before, if there was room for it.
fn place_of<T: Settable>(table: &[T], m: &[u8], places: &[u16], k: usize, at: usize) -> usize
    requires { (length table.now ≤ T.most) × (rising 0 (map T.id_of table.now) ≡ true)
        × (at + span T.HEAD (drop at m.now) ≤ length m.now) × (at ≡ begins T.HEAD m.now k)
        × Placed T.id_of T.first T.HEAD m.now table.now (k + 1) places.now }
    ensures { result ≡ place T.id_of (T.first (drop at m.now)).id table.now }
{
    match places.get(k) {
        Some(place) => *place as usize,
        None => place(table, entry_id(m, at)),
    }
}

// What is wrong with an entry, judged by the table; the record of its ID belongs at `index`.
fn judge_at<T: Settable>(table: &[T], m: &[u8], at: usize, index: usize) -> Result<(), Code>
    requires { (rising 0 (map T.id_of table.now) ≡ true) × (at + span T.HEAD (drop at m.now) ≤ length m.now)
        × (index ≡ place T.id_of (T.first (drop at m.now)).id table.now) }
    ensures { let e = T.first (drop at m.now) in code_of result ≡ T.judged (found T.id_of e.id table.now) e }
{
    if index < table.len() {
        table[index].judge(m, at)
    } else {
        Err(Code::BadId)
    }
}

// The entries judged one after the other: the first bad one decides.
fn judge_entries<T: Settable>(table: &[T], m: &[u8], n: u16, places: &[u16]) -> Result<(), Fault>
    requires { (length table.now ≤ T.most) × (rising 0 (map T.id_of table.now) ≡ true)
        × (fills T.HEAD n (drop 6 m.now) ≡ true) × Placed T.id_of T.first T.HEAD m.now table.now n places.now }
    ensures { finding_of result ≡ first_bad (λ e. T.judged (found T.id_of e.id table.now) e)
        (set_entries T.first T.HEAD n (drop 6 m.now)) }
{
    let mut at = MESSAGE_HEAD;
    for k in 0..n as usize {
        let index = place_of(table, m, places, k, at);
        if let Err(code) = judge_at(table, m, at, index) {
            let id = entry_id(m, at);
            return Err(Fault { id, code });
        }
        at = entry_end(m, at, T::HEAD);
    }
    Ok(())
}

// An entry applied: the record of its ID is changed, if there is one; it belongs at `index`.
fn apply_at<T: Settable>(table: &mut [T], m: &[u8], at: usize, index: usize)
    requires { (rising 0 (map T.id_of table.old) ≡ true) × (at + span T.HEAD (drop at m.now) ≤ length m.now)
        × (length (T.first (drop at m.now)).value ≤ T.room)
        × (index ≡ place T.id_of (T.first (drop at m.now)).id table.old) }
    ensures { let e = T.first (drop at m.now) in table.new ≡ changed_at T.id_of e.id (T.changed e) table.old }
{
    if index < table.len() {
        table[index] = table[index].apply(m, at);
    }
}

// The entries applied in order.
fn apply_entries<T: Settable>(table: &mut [T], m: &[u8], n: u16, places: &[u16])
    requires { (length table.old ≤ T.most) × (rising 0 (map T.id_of table.old) ≡ true)
        × (fills T.HEAD n (drop 6 m.now) ≡ true)
        × (all_short T.room (set_entries T.first T.HEAD n (drop 6 m.now)) ≡ true)
        × Placed T.id_of T.first T.HEAD m.now table.old n places.now }
    ensures { table.new
        ≡ applied T.id_of T.changed (set_entries T.first T.HEAD n (drop 6 m.now)) table.old }
{
    let mut at = MESSAGE_HEAD;
    for k in 0..n as usize {
        let index = place_of(table, m, places, k, at);
        apply_at(table, m, at, index);
        at = entry_end(m, at, T::HEAD);
    }
}

// A set request carried out: all entries are judged before any is applied. `places` has room for what is found of some.
fn set_records<T: Settable>(
    table: &mut [T],
    request: Request<'_>,
    places: &mut [u16],
) -> Result<(), Fault>
    requires { table_ok T.most T.id_of T.ok table.old ≡ true }
    ensures judged { finding_of result
        ≡ set_finding T.HEAD T.first (λ e. T.judged (found T.id_of e.id table.old) e) request.entry.message.now }
    ensures left { MatchResult result
        (λ _. table.new ≡ applied T.id_of T.changed (entries_of T.first T.HEAD request.entry.message.now) table.old)
        (λ _. table.new ≡ table.old) }
{
    let m = request.message;
    let id = start_of(m);
    let n = number_of(m);
    if !find_entries(table, request, n, places) {
        return Err(Fault {
            id,
            code: Code::MessageInconsistent,
        });
    }
    if n == 0 {
        return Err(Fault {
            id,
            code: Code::BadServiceParameter,
        });
    }
    judge_entries(table, m, n, places)?;
    apply_entries(table, m, n, places);
    Ok(())
}

// The answer to the set request, by what was wrong with it.
fn put_answer(out: &mut [u8], at: usize, request: Request<'_>, outcome: Result<(), Fault>) -> usize
    requires { at + 7 ≤ length out.old }
    ensures { let m = request.entry.message.now in
        Written out.old at (answer_of (finding_of outcome) m (coded m (start_of m) 0)) result out.new }
{
    match outcome {
        Ok(()) => request.put_coded(out, at, start_of(request.message), NO_ERROR),
        Err(fault) => request.put_fault(out, at, fault),
    }
}

// SetDatapointValue: the answer, into the buffer at `at`; answers where it ends. A message of 254 bytes has at most 62
// entries, so that each ID is searched once.
pub fn set_datapoints(
    table: &mut [Datapoint],
    request: Request<'_>,
    out: &mut [u8],
    at: usize,
) -> usize
    requires { (table_ok 1000 datapoint_id datapoint_ok table.old ≡ true) × (length request.message.now ≤ 254)
        × (at + 254 ≤ length out.old) }
    ensures { let m = request.entry.message.now in Answered
        (set_datapoint_value (datapoints_only table.old) m).after.datapoints
        out.old at (set_datapoint_value (datapoints_only table.old) m).says result
        out.new table.new }
{
    let outcome = set_records(table, request, &mut [0; 62]);
    put_answer(out, at, request, outcome)
}

// SetServerItem: the answer, into the buffer at `at`; answers where it ends. Items are few, and are searched anew.
pub fn set_items(table: &mut [Item], request: Request<'_>, out: &mut [u8], at: usize) -> usize
    requires { (table_ok 64 item_id item_ok table.old ≡ true) × (at + 254 ≤ length out.old) }
    ensures { let m = request.entry.message.now in Answered (set_server_item (items_only table.old) m).after.items
        out.old at (set_server_item (items_only table.old) m).says result
        out.new table.new }
{
    let outcome = set_records(table, request, &mut []);
    put_answer(out, at, request, outcome)
}
