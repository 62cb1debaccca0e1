// What functions hand to each other. The paper has none of these, and no caller from outside sees one; their
// definitions stand in specs/Inner.
use crate::code::Code;

// What is to be gathered.
#[derive(Clone, Copy)]
pub struct Wanted {
    pub start: u16,
    // The first ID behind the range: start + number, which 16 bits do not hold.
    pub end: u32,
    pub filter: u8,
    // Values, as against descriptions and strings.
    pub values: bool,
}

// How many datapoints an indication carries, and where their entries end.
#[derive(Clone, Copy)]
pub struct Told {
    pub count: u16,
    pub end: usize,
}

// What the checks of a request find wrong: an error code, and the ID that it is about.
#[derive(Clone, Copy, Debug, PartialEq, Eq)]
pub struct Fault {
    pub id: u16,
    pub code: Code,
}

// Where a search stands in the two text lists.
#[derive(Clone, Copy)]
pub struct Cursors {
    pub site: usize,
    pub defaults: usize,
}
