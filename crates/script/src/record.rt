// Records from the bytes of a line.
ghost use Rattle.std.specs.Prelude.{◌≡◌, ◌+◌, ◌%◌};
ghost use Rattle.words.specs.Words.{of_two_bytes};
ghost use Rattle.script.specs.Record.{risen, item_of, datapoint_of};
ghost use Rattle.script.specs.View.{line_of};

use crate::line::Line;
use baos::datapoint::Datapoint;
use baos::item::Item;

// The number of two bytes and k more, in 16 bits.
pub fn raised(high: u8, low: u8, k: u8) -> u16
    ensures { result ≡ (of_two_bytes high low + k) % 65536 }
{
    u16::from_be_bytes([high, low]).wrapping_add(u16::from(k))
}

// A byte that rises by one k times, or stays.
fn risen(byte: u8, rises: bool, k: u8) -> u8
    ensures { result ≡ risen byte rises k }
{
    if rises { byte.wrapping_add(k) } else { byte }
}

pub fn item_of(line: &Line) -> Item
    ensures { result ≡ item_of (line_of line.now).bytes }
{
    Item {
        id: raised(line.byte(0), line.byte(1), 0),
        size: line.byte(2),
        writable: line.byte(3),
        bytes: line.array(4),
    }
}

// The datapoint behind k others of its line.
pub fn datapoint_of(line: &Line, k: u8) -> Datapoint
    ensures { result ≡ datapoint_of (line_of line.now).bytes k }
{
    let mut value = line.array(9);
    value[0] = risen(line.byte(9), line.byte(8) == 1, k);
    Datapoint {
        id: raised(line.byte(1), line.byte(2), k),
        typecode: line.byte(3),
        flags: line.byte(4),
        dpt: line.byte(5),
        state: line.byte(6),
        value,
        mark: line.byte(7),
    }
}
