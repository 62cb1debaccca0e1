// The reading of a datapoint, by value and by its ID in a lent table.
ghost use Rattle.std.specs.Prelude.{◌≡◌, [], ◌∷◌};
ghost use Rattle.baos.specs.Datapoint.{datapoint_id};
ghost use Rattle.baos.specs.Table.{found};
ghost use Rattle.dpt.specs.Single.{of_four_bytes, single};
ghost use Rattle.dpt.specs.Reply.{reading_reply_of};
ghost use Rattle.dpt.specs.Reading.{two_octet_reading, single_reading, reading_of, reply_of, reading_for};

use crate::two_octet::two_octet;
use baos::datapoint::Datapoint;
use baos::table::MOST_DATAPOINTS;
use dpt::reading::{Reading, ReadingRefusal};
use tables::table::{is_well_formed, place};

// DPT 9.
#[tactic(auto, unfolding(dpt::specs::Reading::two_octet_reading))]
fn two_octet_reading(high: u8, low: u8) -> Reading
    ensures { result ≡ two_octet_reading high low }
{
    let octets = u16::from_be_bytes([high, low]);
    if octets == 0x7FFF {
        Reading::Unreadable
    } else {
        Reading::TwoOctet(two_octet(high, low))
    }
}

// DPT 14. With all bits of its exponent set it is infinite, or not a number where a lower bit is set too.
fn single_reading(bits: u32) -> Reading
    ensures { result ≡ single_reading (single bits) }
{
    if bits % 0x8000_0000 >= 0x7F80_0000 {
        Reading::Unreadable
    } else {
        Reading::Single(f32::from_bits(bits))
    }
}

// The highest first.
pub fn of_four_bytes(a: u8, b: u8, c: u8, d: u8) -> u32
    ensures { result ≡ of_four_bytes a b c d }
{
    u32::from_be_bytes([a, b, c, d])
}

// A datapoint's reading.
#[tactic(auto, unfolding(dpt::specs::Reading::reading_of))]
pub fn reading_of(d: Datapoint) -> Reading
    ensures { result ≡ reading_of d }
{
    let v = d.value;
    if d.state / 16 % 2 != 1 {
        return Reading::Unreadable;
    }
    match (d.dpt, d.typecode) {
        (1, 0) => Reading::Switch(v[0] == 1),
        (5, 7) => Reading::Count(v[0]),
        (9, 8) => two_octet_reading(v[0], v[1]),
        (14, 10) => single_reading(of_four_bytes(v[0], v[1], v[2], v[3])),
        _ => Reading::Unreadable,
    }
}

// What is given for an ID. The table is only read: bit 3 and the mark stand, since a reading is neither an answer nor an
// indication.
pub fn reading(id: u16, datapoints: &[Datapoint]) -> Result<Reading, ReadingRefusal>
    ensures { reading_reply_of result ≡ reading_for id datapoints.now }
{
    if !is_well_formed(datapoints, MOST_DATAPOINTS) {
        return Err(ReadingRefusal::TableNotWellFormed);
    }
    match datapoints.get(place(datapoints, id)) {
        Some(d) if d.id == id => Ok(reading_of(*d)),
        // Absent: a higher ID stands at its place, or it lies above the last.
        Some(_) => Err(ReadingRefusal::AbsentId),
        None => Err(ReadingRefusal::AbsentId),
    }
}
