// Readings and refusals as the numbers that firmware gets.
ghost use Rattle.std.specs.Prelude.{◌≡◌};
ghost use Rattle.dpt.specs.Reply.{reading_reply_by};
ghost use Rattle.dpt.specs.Numbers.{reading_numbers, reading_reply_numbers};

use dpt::reading::{Reading, ReadingNumbers};

// Functions and no `From`, which would have to stand beside these types, among the definitions.
#[tactic(auto, unfolding(dpt::specs::Numbers::reading_numbers))]
fn reading_numbers(reading: Reading) -> ReadingNumbers
    ensures { result ≡ reading_numbers reading }
{
    match reading {
        Reading::Switch(on) => ReadingNumbers {
            number: 1,
            whole: on as u32,
            value: 0.0,
        },
        Reading::Count(n) => ReadingNumbers {
            number: 2,
            whole: n as u32,
            value: 0.0,
        },
        Reading::TwoOctet(x) => ReadingNumbers {
            number: 3,
            whole: 0,
            value: x,
        },
        Reading::Single(x) => ReadingNumbers {
            number: 4,
            whole: 0,
            value: x,
        },
        Reading::Unreadable => ReadingNumbers {
            number: 5,
            whole: 0,
            value: 0.0,
        },
    }
}

// Minus the refusal's number, or the reading's numbers: for any number, as the definition has it, since a number is what
// firmware gets.
#[tactic(auto, unfolding(dpt::specs::Numbers::reading_reply_numbers))]
pub fn reply_numbers(reply: Result<Reading, u8>) -> ReadingNumbers
    ensures { result ≡ reading_reply_numbers (reading_reply_by reply) }
{
    match reply {
        Ok(reading) => reading_numbers(reading),
        Err(number) => ReadingNumbers {
            number: -(number as i32),
            whole: 0,
            value: 0.0,
        },
    }
}
