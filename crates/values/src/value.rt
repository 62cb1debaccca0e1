// A value: its size by type code, its unused bits, its place in a record.
ghost use Rattle.std.specs.Prelude.{◌≡◌, ◌≤◌, length};
ghost use Rattle.words.specs.Words.{pad};
ghost use Rattle.baos.specs.Datapoint.{size_of, unused_bits_ok, is_value};

use words::bytes::put_bytes;

// How many bytes a value of this type code has, by the rule. In small steps, which compile to conditional moves: the type
// codes of a table are mixed, and jumps on them would often be guessed wrong.
#[tactic(auto, using(std::proofs::lemmas::Bool::Decides::nat_tests), unfolding(baos::specs::Datapoint::size_of))]
pub fn size_by_rule(typecode: u8) -> usize
    requires { typecode ≤ 14 }
    ensures { result ≡ size_of typecode }
{
    let code = typecode as usize;
    // From 8 on the code less 6, from 11 on twice the code less 16, and 14 from 14 on.
    let few = if code < 8 { 1 } else { code - 6 };
    let more = if code < 11 { few } else { 2 * code - 16 };
    if code < 14 { more } else { 14 }
}

// The same for every byte: 0 above 14.
#[tactic(auto, using(baos::proofs::ValueLaws::size_of_none))]
pub fn size_of(typecode: u8) -> usize
    ensures { result ≡ size_of typecode }
{
    match typecode {
        0..=14 => size_by_rule(typecode),
        _ => 0,
    }
}

// Whether no unused bit of the value is set.
pub fn is_unused_bits_ok(typecode: u8, value: &[u8]) -> bool
    ensures { result ≡ unused_bits_ok typecode value.now }
{
    let [first, ..] = value else { return true };
    // Below 2, 4, .. 128 for codes 0 to 6; from 7 on this is above every byte. Codes up to 14 keep the shift small.
    14 < typecode || (*first as u32) < 2 << typecode
}

// Whether the bytes are a value of this type code.
#[tactic(auto, using(std::proofs::lemmas::Bool::Decides::nat_tests), unfolding(baos::specs::Datapoint::is_value))]
pub fn is_value(typecode: u8, value: &[u8]) -> bool
    ensures { result ≡ is_value typecode value.now }
{
    value.len() == size_of(typecode) && is_unused_bits_ok(typecode, value)
}

// The value in the record's memory, 0 behind it.
pub fn padded(value: &[u8]) -> [u8; 14]
    requires { length value.now ≤ 14 }
    ensures { result ≡ pad 14 value.now }
{
    let mut memory = [0; 14];
    put_bytes(&mut memory, 0, value);
    memory
}
