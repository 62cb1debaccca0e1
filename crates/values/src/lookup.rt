// Looking up a datapoint's ID, at the record that stands where the ID belongs.
ghost use Rattle.std.specs.Prelude.{◌≡◌, [], ◌∷◌};
ghost use Rattle.baos.specs.Datapoint.{datapoint_id};
ghost use Rattle.baos.specs.Lookup.{lookup_of, lookup_number, is_present};
ghost use Rattle.baos.specs.Table.{found};

use baos::datapoint::{COMMUNICATION, Datapoint};
use baos::lookup::Lookup;

// What is found of a datapoint that is there: closed or open.
#[tactic(auto, using(std::proofs::lemmas::Bool::Decides::nat_tests), unfolding(baos::specs::Lookup::lookup_of))]
pub fn lookup_of(d: Datapoint) -> Lookup
    ensures { lookup_number result ≡ lookup_number (lookup_of (d ∷ [])) }
{
    if d.flags / COMMUNICATION % 2 == 1 {
        Lookup::Open
    } else {
        Lookup::Closed
    }
}

// What is found of the ID: the record may be another's.
#[tactic(auto, using(baos::proofs::LookupLaws::absent_at, baos::proofs::LookupLaws::present_at))]
pub fn lookup_at(d: Datapoint, id: u16) -> Lookup
    ensures { lookup_number result ≡ lookup_number (lookup_of (found datapoint_id id (d ∷ []))) }
{
    if d.id == id {
        lookup_of(d)
    } else {
        Lookup::Absent
    }
}

// Whether there is a datapoint, closed or open.
#[tactic(auto, unfolding(baos::specs::Lookup::is_present))]
pub fn is_present(lookup: Lookup) -> bool
    ensures { result ≡ is_present lookup }
{
    matches!(lookup, Lookup::Closed | Lookup::Open)
}
