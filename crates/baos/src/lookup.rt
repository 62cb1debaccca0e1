// Looking up a datapoint's ID.

// What it finds: no datapoint; one whose communication flag is off; one whose communication flag is on.
#[derive(Clone, Copy, Debug, PartialEq, Eq)]
pub enum Lookup {
    Absent,
    Closed,
    Open,
}
