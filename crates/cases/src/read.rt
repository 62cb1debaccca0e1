// Readings on the bench, by the numbers that firmware gets.
ghost use Rattle.std.specs.Prelude.{◌≡◌, not, T, is_nan};
ghost use Rattle.script.specs.View.{line_of};
ghost use Rattle.cases.specs.Read.{AreNumbers, ReadsAs};
ghost use Rattle.cases.specs.Same.{Decides};
ghost use Rattle.cases.specs.View.{bench_of};

use crate::bench::Bench;
use dpt::reading::{ReadingNumbers, ReadingRefusal};
use readings::numbers::reply_numbers;
use readings::reading::{of_four_bytes, reading};
use script::line::Line;
use script::record::raised;

// Whether these are the numbers: those of a case, with a refusal of 0, or minus a refusal's, with a case of 0.
fn are_numbers(numbers: ReadingNumbers, case: u8, refusal: u8, whole: u8, bits: u32) -> bool
    requires { T (not (is_nan numbers.value)) }
    ensures { Decides result (AreNumbers numbers case refusal whole bits) }
{
    ((case == 0) | (refusal == 0))
        & (numbers.number == i32::from(case) - i32::from(refusal))
        & (numbers.whole == u32::from(whole))
        & (numbers.value.to_bits() == bits)
}

// Whether what is given for the ID of a line is what stands behind it.
pub fn has_read(bench: &Bench, line: &Line) -> bool
    ensures { Decides result (ReadsAs (bench_of bench.now) (line_of line.now).bytes) }
{
    let reply = reading(raised(line.byte(0), line.byte(1), 0), &bench.datapoints).map_err(
        ReadingRefusal::number,
    );
    let bits = of_four_bytes(line.byte(5), line.byte(6), line.byte(7), line.byte(8));
    are_numbers(
        reply_numbers(reply),
        line.byte(2),
        line.byte(3),
        line.byte(4),
        bits,
    )
}
