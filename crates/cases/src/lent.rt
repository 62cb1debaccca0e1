// The lines of a script that say what the tables hold.
ghost use Rattle.std.specs.Prelude.{◌≡◌};
ghost use Rattle.script.specs.View.{line_of};
ghost use Rattle.cases.specs.Lent.{built};
ghost use Rattle.cases.specs.View.{bench_of};

use crate::bench::Bench;
use crate::kind::Kind;
use arrayvec::ArrayVec;
use script::line::Line;
use script::record::{datapoint_of, item_of};

// The tables that are wanted, after this line. A full table stays.
pub fn tell(wanted: &mut Bench, line: &Line)
    ensures { bench_of wanted.new ≡ built (line_of line.now) (bench_of wanted.old) }
{
    match Kind::of(line.letter) {
        Kind::Empty => *wanted = Bench::empty(),
        Kind::Item => {
            let _ = wanted.items.try_push(item_of(line));
        }
        Kind::Datapoints => {
            for k in 0..line.byte(0) {
                let _ = wanted.datapoints.try_push(datapoint_of(line, k));
            }
        }
        Kind::Parameters => wanted.parameters = ArrayVec::try_from(line.listed()).unwrap(),
        Kind::Site => wanted.site = *line,
        Kind::Defaults => wanted.defaults = *line,
        _ => {}
    }
}
