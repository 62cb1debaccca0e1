// The entries that a first pass has found.
ghost use Rattle.std.specs.Prelude.{◌≡◌, ◌≢◌, ◌+◌, ◌≤◌, ◌<◌, MatchResult};
ghost use Rattle.baos.specs.declared.code.Code.TheVariants.{NoElementFound, BufferTooSmall};

use baos::code::Code;
use baos::inner::Fault;
use baos::service::ROOM_FOR_ENTRIES;

// How many entries there are to return, and how many bytes they take. All fit.
#[derive(Clone, Copy)]
pub struct Entries {
    pub count: u16,
    pub size: usize,
    pub ghost fit: { size ≤ 248 },
}

impl Entries {
    pub fn new() -> Self
        ensures { (result.count ≡ 0) × (result.size ≡ 0) }
    {
        Entries { count: 0, size: 0 }
    }

    // One more, of this ID and so many bytes, where it fits.
    pub fn with_entry(self, id: u16, n: usize) -> Result<Self, Fault>
        requires { (self.count ≤ self.size) × (n ≤ 32) }
        ensures { MatchResult result
            (λ e. (e.count ≡ self.count + 1) × (e.size ≡ self.size + n))
            (λ f. (248 < self.size + n) × (f ≡ record { id = id; code = BufferTooSmall })) }
    {
        let size = self.size + n;
        if ROOM_FOR_ENTRIES < size {
            return Err(Fault {
                id,
                code: Code::BufferTooSmall,
            });
        }
        Ok(Entries {
            count: self.count + 1,
            size,
        })
    }

    // The same entries; none at all is a fault of the request, about its first ID.
    pub fn unless_none(self, start: u16) -> Result<Self, Fault>
        ensures { MatchResult result
            (λ e. (self.count ≢ 0) × (e.count ≡ self.count) × (e.size ≡ self.size))
            (λ f. (self.count ≡ 0) × (f ≡ record { id = start; code = NoElementFound })) }
    {
        if self.count == 0 {
            return Err(Fault {
                id: start,
                code: Code::NoElementFound,
            });
        }
        Ok(self)
    }
}

// A first pass that ends in row 2 or 3: the entries that it has found until then, and what is wrong.
#[derive(Clone, Copy)]
pub struct Faulty {
    pub found: Entries,
    pub fault: Fault,
}

impl From<Faulty> for Fault {
    ghost from_gives = { λ faulty fault. fault ≡ faulty.fault };

    fn from(faulty: Faulty) -> Fault {
        faulty.fault
    }
}
