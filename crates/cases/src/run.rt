// What happens by the lines of a script, and what they ask.
use crate::bench::Bench;
use crate::burst::has_found;
use crate::kind::Kind;
use crate::read::has_read;
use crate::same::{is_link, same_tables};
use calls::event::Event;
use numbers::numbers::event_numbered;
use script::line::Line;
use script::record::raised;

// A bench after what happened; whether all was quiet that was to be; and at which of the bytes that the host sent last
// the receiver found damage, if it did.
#[derive(Drop)]
pub struct Stand {
    pub bench: Bench,
    pub quiet: bool,
    pub place: Option<usize>,
}

impl Stand {
    ghost use Rattle.std.specs.Prelude.{◌≡◌, true, slice_index};
    ghost use Rattle.script.specs.View.{line_of};
    ghost use Rattle.cases.specs.Run.{Sends, stand_after};
    ghost use Rattle.cases.specs.Same.{Decides};
    ghost use Rattle.cases.specs.Script.{standing, started, marked, numbered, acted, Damaged, Right};
    ghost use Rattle.cases.specs.View.{bench_of, stand_of, place_of};

    // Nothing was asked for, and no byte came from the host.
    pub fn new(bench: Bench) -> Stand
        ensures { stand_of result ≡ standing (bench_of bench) true 1000 }
    {
        Stand {
            bench,
            quiet: true,
            place: None,
        }
    }

    // Each of these bytes from the host, in turn. All is quiet where there are some, and none but the last draws
    // anything. Damage is found at the last byte before which the receiver does not drop.
    fn hear(&mut self, bytes: &[u8])
        ensures { stand_of self.new ≡ stand_after bytes.now (bench_of self.old.bench) }
    {
        let mut before = false;
        let mut quiet = true;
        let mut place = None;
        for (i, byte) in bytes.iter().enumerate() {
            before = quiet;
            if self.bench.link.dropping != 1 {
                place = Some(i);
            }
            self.bench.happens(Event::HostByte(*byte));
            quiet &= self.bench.is_quiet();
        }
        self.quiet = before;
        self.place = place;
    }

    // A server starts with the tables that are wanted.
    fn start(&mut self, wanted: &Bench, line: &Line)
        ensures { stand_of self.new ≡ started (bench_of wanted.now) (line_of line.now).bytes }
    {
        *self = Stand::new(wanted.copy());
        self.bench.link.expected = line.byte(0);
        self.bench.link.send = line.byte(1);
    }

    fn mark(&mut self)
        ensures { stand_of self.new ≡ marked (bench_of self.old.bench) }
    {
        self.bench.happens(Event::IdleMark);
        self.quiet = self.bench.is_quiet();
        self.place = None;
    }

    fn number(&mut self, line: &Line)
        ensures { stand_of self.new ≡ numbered (line_of line.now).bytes (bench_of self.old.bench) }
    {
        let id = raised(line.byte(2), line.byte(3), 0);
        let event = event_numbered(line.byte(0), line.byte(1), id, line.byte(4));
        self.bench.happens(event);
        self.quiet = true;
        self.place = None;
    }

    // What happens by this line.
    pub fn act(&mut self, wanted: &Bench, line: &Line)
        ensures { stand_of self.new ≡ acted (line_of line.now) (bench_of wanted.now) (stand_of self.old) }
    {
        match Kind::of(line.letter) {
            Kind::Start => self.start(wanted, line),
            Kind::Host => self.hear(line.listed()),
            Kind::Mark => self.mark(),
            Kind::Value => {
                self.bench.value = *line;
                self.quiet = true;
                self.place = None;
            }
            Kind::Event => self.number(line),
            _ => {}
        }
    }

    // Whether the last call sends these bytes.
    fn has_sent(&self, wanted: &[u8]) -> bool
        ensures { Decides result (Sends (bench_of self.now.bench) wanted.now) }
    {
        match self.bench.sent() {
            Some(sent) => sent == wanted,
            None => false,
        }
    }

    fn is_damaged(&self, asked: u8) -> bool
        ensures { Decides result (Damaged asked (place_of self.now.place) (bench_of self.now.bench)) }
    {
        (self.place == Some(usize::from(asked)))
            & (self.bench.link.dropping == 1)
            & self.bench.is_quiet()
    }

    // Whether what this line asks holds.
    pub fn holds(&self, wanted: &Bench, line: &Line) -> bool
        ensures { Decides result (Right (line_of line.now) (bench_of wanted.now) (stand_of self.now)) }
    {
        if !self.quiet {
            return false;
        }
        match Kind::of(line.letter) {
            Kind::Reply => self.has_sent(line.listed()),
            Kind::Damage => self.is_damaged(line.byte(0)),
            Kind::Link => is_link(&self.bench.link, line.listed()),
            Kind::Tables => same_tables(&self.bench, wanted),
            Kind::Reading => has_read(&self.bench, line),
            Kind::Burst => has_found(line.listed()),
            _ => true,
        }
    }
}
