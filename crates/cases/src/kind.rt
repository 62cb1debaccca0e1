// What a line of a script is, by its letter.
ghost use Rattle.std.specs.Prelude.{◌≡◌};
ghost use Rattle.cases.specs.Kind.{kind_of};

#[derive(Clone, Copy, Debug, PartialEq, Eq)]
pub enum Kind {
    // ---- tells what the tables hold
    // No record in any table, and no text.
    Empty,
    // An item more: ID, size, 01 where it is writable, data.
    Item,
    // Datapoints more: how many, the first one's ID, type code, config flags, DPT, state, report mark, 01 where the
    // value's first byte rises by one from each to the next, value. The IDs do.
    Datapoints,
    // The parameter bytes.
    Parameters,
    // The site's list of texts, and the default list: their bytes.
    Site,
    Defaults,
    // ---- does
    // The tables that were told, and a link that expects and sends these bits, 01 for odd, with nothing outstanding.
    Start,
    // The host sends these bytes. None of them but the last is to draw anything.
    Host,
    // The line is silent for an idle mark. Nothing is to be sent.
    Mark,
    // The value that is lent beside bus value events, up to the next start.
    Value,
    // An event by its numbers, as firmware gives them: event, byte, ID and outcome.
    Event,
    // ---- asks
    // The server is to have sent these bytes.
    Reply,
    // The receiver is to have found damage at this place of the host's bytes, to drop, and to have sent nothing.
    Damage,
    // The link is to expect and to send these bits, is to drop, 01, or not, and is to have these bytes outstanding.
    Link,
    // The tables are to be those that were told.
    Tables,
    // The reading of an ID is to be this: the ID; the case, or 00; the refusal, or 00; the whole number; the bits of the
    // floating one.
    Reading,
    // A burst is to hold this: how it ended, 01 to 03; how many sound frames; how many acknowledgements; where each
    // starts. Its bytes stand behind these.
    Burst,
    // ---- neither
    // Text for the trace.
    Text,
    // A remark, which is not shown.
    Remark,
}

impl Kind {
    pub fn of(letter: u8) -> Kind
        ensures { result ≡ kind_of letter }
    {
        match letter {
            ..b'a' => Kind::Text,
            b'e' => Kind::Empty,
            b'i' => Kind::Item,
            b'd' => Kind::Datapoints,
            b'p' => Kind::Parameters,
            // The first letters of "site" and "defaults" are taken.
            b'v' => Kind::Site,
            b'w' => Kind::Defaults,
            b's' => Kind::Start,
            b'h' => Kind::Host,
            b'm' => Kind::Mark,
            b'b' => Kind::Value,
            b'n' => Kind::Event,
            b'r' => Kind::Reply,
            b'x' => Kind::Damage,
            b'l' => Kind::Link,
            b't' => Kind::Tables,
            b'g' => Kind::Reading,
            b'u' => Kind::Burst,
            _ => Kind::Remark,
        }
    }
}
