// One entry of a set request, given by the request's bytes and the place where it begins, and one record.
ghost use Rattle.std.specs.Prelude.{if◌then◌else◌, ℕ, ◌≡◌, true, Bool, List, [], ◌∷◌, map, ◌≤◌, ◌+◌, length, get_or, drop, eqb};
ghost use Rattle.words.specs.Words.{of_two_bytes};
ghost use Rattle.baos.specs.Datapoint.{datapoint_id, datapoint_ok};
ghost use Rattle.baos.specs.Item.{item_id, item_ok};
ghost use Rattle.baos.specs.Table.{found, place, rising};
ghost use Rattle.baos.specs.Message.{code_of};
ghost use Rattle.baos.specs.Set.{SetEntry, span, first_datapoint_entry, first_item_entry, judged_datapoint, judged_item};
ghost use Rattle.baos.specs.Set.{set_datapoint, set_item};
ghost use Rattle.sets.specs.Settable.{SettableLaws, datapoint_laws, item_laws};

use baos::code::Code;
use baos::datapoint::Datapoint;
use baos::item::Item;
use baos::service::{DATAPOINT_ENTRY_HEAD, ITEM_ENTRY_HEAD};
use commands::command::{command, judge_entry};
use commands::item::{judge_item, with_bytes};
use masks::record::Record;

// The ID of an entry.
pub fn entry_id(m: &[u8], at: usize) -> u16
    requires { at + 2 ≤ length m.now }
    ensures { result ≡ of_two_bytes (get_or (drop at m.now) 0 0) (get_or (drop at m.now) 1 0) }
{
    u16::from_be_bytes([m[at], m[at + 1]])
}

// Where an entry with a head of so many bytes ends.
#[tactic(auto, using(baos::proofs::SetLaws::span_head, baos::proofs::SetLaws::span_at_lem))]
pub fn entry_end(m: &[u8], at: usize, head: usize) -> usize
    requires { (1 ≤ head) × (head ≤ 4) × (at + span head (drop at m.now) ≤ length m.now) }
    ensures { result ≡ at + span head (drop at m.now) }
{
    at + head + m[at + head - 1] as usize
}

// A record that an entry of a set request changes, in a table in the order of the IDs.
pub trait Settable: Record + Copy {
    // How many bytes of an entry stand in front of its value. The last is the value's length.
    const HEAD: usize;

    ghost HEAD: { ℕ };

    // How many records a table may have, and how many bytes a record has room for.
    ghost most: { ℕ };

    ghost room: { ℕ };

    // The entry that the bytes begin with, what is wrong with it by what its ID found, and a record it changed.
    ghost first: { List ℕ → SetEntry };

    ghost judged: { List Self → SetEntry → ℕ };

    ghost changed: { SetEntry → Self → Self };

    // What is wrong with an entry, judged by the record that stands where its ID belongs: that may have another.
    fn judge(self, m: &[u8], at: usize) -> Result<(), Code>
        requires { at + span HEAD (drop at m.now) ≤ length m.now }
        ensures { let e = first (drop at m.now) in code_of result ≡ judged (found Self.id_of e.id (self ∷ [])) e };

    // That record once the entry is applied.
    fn apply(self, m: &[u8], at: usize) -> Self
        requires { (at + span HEAD (drop at m.now) ≤ length m.now) × (length (first (drop at m.now)).value ≤ room) }
        ensures { let e = first (drop at m.now) in result ≡ (if eqb (Self.id_of self) e.id then changed e self else self) };

    ghost laws: { SettableLaws HEAD most room Self.id_of Self.ok first judged changed };
}

impl Settable for Datapoint {
    const HEAD: usize = DATAPOINT_ENTRY_HEAD;

    ghost HEAD = { 4 };

    ghost most = { 1000 };

    ghost room = { 14 };

    ghost first = { first_datapoint_entry };

    ghost judged = { judged_datapoint };

    ghost changed = { set_datapoint };

    #[tactic(auto, using(baos::proofs::SetLaws::span_head))]
    fn judge(self, m: &[u8], at: usize) -> Result<(), Code> {
        let end = entry_end(m, at, DATAPOINT_ENTRY_HEAD);
        judge_entry(
            entry_id(m, at),
            self,
            m[at + 2],
            &m[at + DATAPOINT_ENTRY_HEAD..end],
        )
    }

    #[tactic(auto, using(baos::proofs::SetLaws::span_head))]
    fn apply(self, m: &[u8], at: usize) -> Self {
        if self.id != entry_id(m, at) {
            return self;
        }
        let end = entry_end(m, at, DATAPOINT_ENTRY_HEAD);
        command(self, m[at + 2], &m[at + DATAPOINT_ENTRY_HEAD..end])
    }

    ghost laws = { datapoint_laws };
}

impl Settable for Item {
    const HEAD: usize = ITEM_ENTRY_HEAD;

    ghost HEAD = { 3 };

    ghost most = { 64 };

    ghost room = { 16 };

    ghost first = { first_item_entry };

    ghost judged = { judged_item };

    ghost changed = { set_item };

    #[tactic(auto, using(baos::proofs::SetLaws::span_head))]
    fn judge(self, m: &[u8], at: usize) -> Result<(), Code> {
        if self.id != entry_id(m, at) {
            return Err(Code::BadId);
        }
        let end = entry_end(m, at, ITEM_ENTRY_HEAD);
        judge_item(self, &m[at + ITEM_ENTRY_HEAD..end])
    }

    #[tactic(auto, using(baos::proofs::SetLaws::span_head))]
    fn apply(self, m: &[u8], at: usize) -> Self {
        if self.id != entry_id(m, at) {
            return self;
        }
        let end = entry_end(m, at, ITEM_ENTRY_HEAD);
        with_bytes(self, &m[at + ITEM_ENTRY_HEAD..end])
    }

    ghost laws = { item_laws };
}
