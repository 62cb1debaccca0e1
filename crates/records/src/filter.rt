// The filters of a request for values.
ghost use Rattle.std.specs.Prelude.{◌≡◌};
ghost use Rattle.baos.specs.Get.{passes};
ghost use Rattle.records.specs.Filter.{filter_number, IsFilter};

use baos::datapoint::Datapoint;

// All datapoints, those whose value is valid, and those whose value the bus has updated.
#[derive(Clone, Copy, Debug, PartialEq, Eq)]
pub enum Filter {
    All,
    Valid,
    Updated,
}

// A number that no filter has.
#[derive(Clone, Copy, Debug, PartialEq, Eq)]
pub struct NoFilter;

impl TryFrom<u8> for Filter {
    type Error = NoFilter;

    ghost try_from_gives = { IsFilter };

    fn try_from(number: u8) -> Result<Self, NoFilter> {
        match number {
            0 => Ok(Filter::All),
            1 => Ok(Filter::Valid),
            2 => Ok(Filter::Updated),
            _ => Err(NoFilter),
        }
    }
}

impl Filter {
    // Whether the record passes it.
    #[tactic(auto, unfolding(baos::specs::Get::passes))]
    pub fn passes(self, d: Datapoint) -> bool
        ensures { result ≡ passes (filter_number self) d }
    {
        match self {
            Filter::All => true,
            Filter::Valid => d.state / 16 % 2 == 1,
            Filter::Updated => d.state / 8 % 2 == 1,
        }
    }
}
