// The checksum of what a data frame counts. Most requests of a host are short: up to seven bytes are summed without a
// loop.
ghost use Rattle.std.specs.Prelude.{◌≡◌, ◌<◌, ◌≤◌, length, take};
ghost use Rattle.ft12.specs.Frame.{checksum};

use frames::frame::checksum;

#[tactic(auto, using(crate::proofs::SumLaws::sums))]
fn below_four(s: &[u8]) -> u8
    requires { length s.now < 4 }
    ensures { result ≡ checksum s.now }
{
    match s {
        [] => 0,
        [a] => *a,
        [a, b] => a.wrapping_add(*b),
        [a, b, c, ..] => a.wrapping_add(*b).wrapping_add(*c),
    }
}

#[tactic(auto, using(crate::proofs::SumLaws::sums))]
fn first_four(s: &[u8]) -> u8
    requires { 4 ≤ length s.now }
    ensures { result ≡ checksum (take 4 s.now) }
{
    s[0].wrapping_add(s[1])
        .wrapping_add(s[2])
        .wrapping_add(s[3])
}

#[tactic(auto, using(crate::proofs::SumLaws::sums))]
pub fn sum(s: &[u8]) -> u8
    ensures { result ≡ checksum s.now }
{
    match s.len() {
        0..=3 => below_four(s),
        4..=7 => first_four(s).wrapping_add(below_four(&s[4..])),
        _ => checksum(s),
    }
}
