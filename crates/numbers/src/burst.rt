// What a burst holds, as the numbers that firmware gets.
ghost use Rattle.std.specs.Prelude.{◌≡◌};
ghost use Rattle.ft12.specs.Burst.{burst_numbers, reply_by};

use ft12::burst::{BurstNumbers, Figures};

// Minus the refusal's number, or the ending's number and the two counts. For any number, as the definition has it, since
// a number is what firmware gets. A function, and no `From`, which would have to stand beside the types of `ft12`, among
// the definitions.
#[tactic(auto, unfolding(ft12::specs::Burst::burst_numbers, ft12::specs::Burst::ending_number))]
pub fn burst_numbers(read: Result<Figures, u8>) -> BurstNumbers
    ensures { result ≡ burst_numbers (reply_by read) }
{
    match read {
        Ok(
            Figures {
                frames,
                acknowledgements,
                ending,
            },
        ) => BurstNumbers {
            number: ending as i32,
            frames,
            acknowledgements,
        },
        Err(number) => BurstNumbers {
            number: -i32::from(number),
            frames: 0,
            acknowledgements: 0,
        },
    }
}
