// The commands of a set request, at one datapoint record. A command is a byte here, of any value: a request may carry
// any, and those that there are not change nothing.
ghost use Rattle.std.specs.Prelude.{◌≡◌, [], ◌∷◌, ◌+◌, ◌≤◌, ◌<◌, length};
ghost use Rattle.words.specs.Words.{pad};
ghost use Rattle.baos.specs.Datapoint.{datapoint_id, commanded, with_state, zero_datapoint};
ghost use Rattle.baos.specs.Lookup.{lookup_of};
ghost use Rattle.baos.specs.Message.{code_of};
ghost use Rattle.baos.specs.Table.{found};
ghost use Rattle.baos.specs.Set.{takes_command, datapoint_code};

use baos::code::Code;
use baos::datapoint::{Datapoint, TRANSMIT};
use baos::lookup::Lookup;
use baos::service::{LAST_CLOSED_COMMAND, LAST_COMMAND, READ, SET_AND_SEND, SET_VALUE};
use values::lookup::lookup_of;
use values::value::{is_unused_bits_ok, padded, size_of};

const SEND: u8 = 2;

// The state that a command leaves of a record that had the state s.
#[tactic(auto, unfolding(baos::specs::Datapoint::commanded, baos::specs::Datapoint::with_state, baos::specs::Datapoint::with_value))]
fn state_after(c: u8, s: u8) -> u8
    ensures { result ≡ (commanded c [] (with_state s zero_datapoint)).state }
{
    match c {
        SET_VALUE => s / 32 * 32 + 16 + s % 16,
        SEND => s / 4 * 4 + 3,
        SET_AND_SEND => (s / 32 * 32 + 16 + s % 16) / 4 * 4 + 3,
        READ => s / 8 * 8 + 4 + s % 4,
        _ => s,
    }
}

// The value in the record's memory, 0 behind it. One byte, as most values have, is not copied in a loop.
fn memory_of(value: &[u8]) -> [u8; 14]
    requires { length value.now ≤ 14 }
    ensures { result ≡ pad 14 value.now }
{
    match value {
        [b] => [*b, 0, 0, 0, 0, 0, 0, 0, 0, 0, 0, 0, 0, 0],
        _ => padded(value),
    }
}

// A command of a set request, with the value sent with it. Fields are assigned and no record is built: a literal would
// write the padding byte too.
#[tactic(auto, using(baos::proofs::ApplyLaws::value_1, baos::proofs::ApplyLaws::value_3, baos::proofs::ApplyLaws::value_stays), unfolding(baos::specs::Datapoint::with_state, baos::specs::Datapoint::with_value))]
pub fn command(mut d: Datapoint, c: u8, value: &[u8]) -> Datapoint
    requires { length value.now ≤ 14 }
    ensures { result ≡ commanded c value.now d }
{
    d.state = state_after(c, d.state);
    if matches!(c, SET_VALUE | SET_AND_SEND) {
        d.value = memory_of(value);
    }
    d
}

// Whether the command is taken, by what looking up the ID found and by the flags: an open datapoint takes those that
// send it only where its transmit flag is on.
#[tactic(auto, unfolding(baos::specs::Set::takes_command))]
fn takes_command(lookup: Lookup, flags: u8, c: u8) -> bool
    ensures { result ≡ takes_command lookup flags c }
{
    match lookup {
        Lookup::Absent => false,
        Lookup::Closed => c <= LAST_CLOSED_COMMAND,
        Lookup::Open if flags / TRANSMIT % 2 == 1 => c <= LAST_COMMAND,
        Lookup::Open => c == READ || c <= LAST_CLOSED_COMMAND,
    }
}

// What is wrong with a set entry for this ID, judged by the record that stands where the ID belongs.
pub fn judge_entry(id: u16, d: Datapoint, c: u8, value: &[u8]) -> Result<(), Code>
    ensures { code_of result ≡ datapoint_code (lookup_of (found datapoint_id id (d ∷ []))) d c value.now }
{
    if d.id != id {
        Err(Code::BadId)
    } else if !takes_command(lookup_of(d), d.flags, c) {
        Err(Code::BadCommandOrValue)
    } else if value.is_empty() {
        match c {
            SET_VALUE | SET_AND_SEND => Err(Code::BadLength),
            _ => Ok(()),
        }
    } else if value.len() != size_of(d.typecode) {
        Err(Code::BadLength)
    } else if !is_unused_bits_ok(d.typecode, value) {
        Err(Code::BadCommandOrValue)
    } else {
        Ok(())
    }
}
