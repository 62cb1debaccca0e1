// The bench: one server by value, with its tables, its link record and its output; and the lines of the script that told
// what is lent for reading.
use arrayvec::ArrayVec;
use baos::datapoint::Datapoint;
use baos::item::Item;
use calls::event::Event;
use calls::refusal::Refusal;
use ft12::record::Link;
use script::line::Line;
use server::call::call;

#[derive(Drop)]
pub struct Bench {
    pub link: Link,
    pub datapoints: ArrayVec<Datapoint, 50>,
    pub items: ArrayVec<Item, 4>,
    pub parameters: ArrayVec<u8, 264>,
    // The two text lists.
    pub site: Line,
    pub defaults: Line,
    // The value beside a bus value event.
    pub value: Line,
    pub out: [u8; 262],
    // What the last call answered.
    pub reply: Result<usize, Refusal>,
}

impl Bench {
    ghost use Rattle.std.specs.Prelude.{◌≡◌, ◌<◌, ◌≤◌, take, MatchOption};
    ghost use Rattle.calls.specs.Reply.{reply_of};
    ghost use Rattle.cases.specs.Bench.{empty_bench};
    ghost use Rattle.cases.specs.Run.{happened, count_sent, quiet};
    ghost use Rattle.cases.specs.View.{bench_of};

    // Empty tables, and the link as document 01 has it unless it says otherwise: "nothing is outstanding and both bits
    // are odd".
    pub fn empty() -> Bench
        ensures { bench_of result ≡ empty_bench }
    {
        Bench {
            link: Link {
                receiver: [0; 260],
                received: 0,
                dropping: 0,
                expected: 1,
                send: 1,
                outstanding: [0; 261],
                held: 0,
                resends: 0,
            },
            datapoints: ArrayVec::new(),
            items: ArrayVec::new(),
            parameters: ArrayVec::new(),
            site: Line::empty(),
            defaults: Line::empty(),
            value: Line::empty(),
            out: [0; 262],
            reply: Ok(0),
        }
    }

    // The same bench once more. A table is copied as a whole: `clone` goes record by record, and takes longer.
    pub fn copy(&self) -> Bench
        ensures { bench_of result ≡ bench_of self.now }
    {
        Bench {
            link: self.link,
            datapoints: ArrayVec::try_from(self.datapoints.as_slice()).unwrap(),
            items: ArrayVec::try_from(self.items.as_slice()).unwrap(),
            parameters: ArrayVec::try_from(self.parameters.as_slice()).unwrap(),
            site: self.site,
            defaults: self.defaults,
            value: self.value,
            out: self.out,
            reply: self.reply,
        }
    }

    // One event: the one function that lends the bench to the server's call.
    pub fn happens(&mut self, event: Event)
        ensures { bench_of self.new ≡ happened event (bench_of self.old) }
    {
        self.reply = call(
            event,
            self.value.listed(),
            self.datapoints.as_mut_slice(),
            self.items.as_mut_slice(),
            self.parameters.as_mut_slice(),
            self.site.listed(),
            self.defaults.listed(),
            &mut self.link,
            &mut self.out,
        );
    }

    // What the last call sends; none where it was refused.
    #[tactic(auto, unfolding(crate::specs::Run::count_sent))]
    pub fn sent(&self) -> Option<&[u8]>
        ensures { MatchOption result (262 < count_sent (reply_of self.now.reply))
            (λ sent. (count_sent (reply_of self.now.reply) ≤ 262) × (sent.now ≡ take (count_sent (reply_of self.now.reply)) self.now.out)) }
    {
        match self.reply {
            Ok(count) => self.out.get(..count),
            Err(_) => None,
        }
    }

    // Whether the last call was accepted and sends nothing.
    #[tactic(auto, unfolding(crate::specs::Run::quiet, crate::specs::Run::count_sent))]
    pub fn is_quiet(&self) -> bool
        ensures { result ≡ quiet (bench_of self.now) }
    {
        self.reply == Ok(0)
    }
}
