// A request's fields, and the heads of answers.
ghost use Rattle.std.specs.Prelude.{◌≡◌, ◌∷◌, ◌++◌, ◌+◌, ◌≤◌, ◌<◌, length, get_or, true, false, MatchOption};
ghost use Rattle.words.specs.Words.{put, two_bytes};
ghost use Rattle.baos.specs.Message.{sub_service, start_of, number_of, filter_of, coded, code_number};
ghost use Rattle.baos.specs.Service.{unanswered};
ghost use Rattle.baos.specs.Inner.Promise.{Written};

use baos::inner::Fault;
use baos::service::{ANSWER, DATAPOINT_VALUE_INDICATION, MAIN_SERVICE, MESSAGE_HEAD};
use words::bytes::put_bytes;

// SubService.
#[tactic(auto, unfolding(baos::specs::Message::sub_service))]
pub fn sub_service_of(m: &[u8]) -> u8
    requires { 6 ≤ length m.now }
    ensures { result ≡ sub_service m.now }
{
    m[1]
}

// StartItem, StartDatapoint or StartByte.
#[tactic(auto, unfolding(baos::specs::Message::start_of))]
pub fn start_of(m: &[u8]) -> u16
    requires { 6 ≤ length m.now }
    ensures { result ≡ start_of m.now }
{
    u16::from_be_bytes([m[2], m[3]])
}

// NumberOfItems, NumberOfDatapoints or NumberOfBytes.
#[tactic(auto, unfolding(baos::specs::Message::number_of))]
pub fn number_of(m: &[u8]) -> u16
    requires { 6 ≤ length m.now }
    ensures { result ≡ number_of m.now }
{
    u16::from_be_bytes([m[4], m[5]])
}

// The filter of a request that has one.
#[tactic(auto, unfolding(baos::specs::Message::filter_of))]
pub fn filter_of(m: &[u8]) -> u8
    ensures { result ≡ filter_of m.now }
{
    m.get(6).copied().unwrap_or(0)
}

// A message that can be answered: its head is whole, and its sub-service is not that of an answer.
#[derive(Clone, Copy)]
pub struct Request<'a> {
    pub message: &'a [u8],
    pub ghost has_head: { 6 ≤ length message.now },
    pub ghost asks: { sub_service message.now < 0x80 },
}

impl<'a> Request<'a> {
    // The request in a message, where it gets an answer.
    #[tactic(auto, using(std::proofs::lemmas::Bool::Decides::nat_tests, baos::proofs::ServiceLaws::answered_long, baos::proofs::ServiceLaws::answered_sub), unfolding(baos::specs::Service::unanswered, baos::specs::Message::main_service, baos::specs::Message::sub_service))]
    pub fn new(message: &'a [u8]) -> Option<Request<'a>>
        ensures { MatchOption result (unanswered message.now ≡ true)
            (λ r. (r.message.now ≡ message.now) × (unanswered message.now ≡ false)) }
    {
        if message.len() < MESSAGE_HEAD || message[0] != MAIN_SERVICE || ANSWER <= message[1] {
            return None;
        }
        Some(Request { message })
    }

    // The answer of seven bytes to the request, into the buffer at `at`; answers where it ends.
    pub fn put_coded(self, out: &mut [u8], at: usize, id: u16, code: u8) -> usize
        requires { at + 7 ≤ length out.old }
        ensures { Written out.old at (coded self.entry.message.now id code) result out.new }
    {
        let [high, low] = id.to_be_bytes();
        put_bytes(
            out,
            at,
            &[
                MAIN_SERVICE,
                sub_service_of(self.message) + ANSWER,
                high,
                low,
                0,
                0,
                code,
            ],
        );
        at + 7
    }

    // The error answer to the request.
    pub fn put_fault(self, out: &mut [u8], at: usize, fault: Fault) -> usize
        requires { at + 7 ≤ length out.old }
        ensures { Written out.old at (coded self.entry.message.now fault.id (code_number fault.code)) result out.new }
    {
        self.put_coded(out, at, fault.id, fault.code.number())
    }

    // What stands in front of the entries of a get's answer.
    pub fn put_answer_head(self, out: &mut [u8], at: usize, count: u16) -> usize
        requires { at + 6 ≤ length out.old }
        ensures { Written out.old at (0xF0 ∷ (sub_service self.entry.message.now + 0x80)
            ∷ two_bytes (start_of self.entry.message.now) ++ two_bytes count) result out.new }
    {
        put_head(
            out,
            at,
            sub_service_of(self.message) + ANSWER,
            start_of(self.message),
            count,
        )
    }
}

// What stands in front of an answer's entries, into the buffer at `at`; answers where the entries begin.
fn put_head(out: &mut [u8], at: usize, sub: u8, start: u16, count: u16) -> usize
    requires { at + 6 ≤ length out.old }
    ensures { Written out.old at (0xF0 ∷ sub ∷ two_bytes start ++ two_bytes count) result out.new }
{
    let [start_high, start_low] = start.to_be_bytes();
    let [count_high, count_low] = count.to_be_bytes();
    put_bytes(
        out,
        at,
        &[
            MAIN_SERVICE,
            sub,
            start_high,
            start_low,
            count_high,
            count_low,
        ],
    );
    at + 6
}

// What stands in front of an indication's entries, once they stand in the buffer from at + 6 on: its StartDatapoint
// is the first one's ID.
pub fn put_indication_head(out: &mut [u8], at: usize, count: u16)
    requires { at + 8 ≤ length out.old }
    ensures { out.new
        ≡ put out.old at (0xF0 ∷ 0xC1 ∷ get_or out.old (at + 6) 0
        ∷ get_or out.old (at + 7) 0 ∷ two_bytes count) }
{
    let first = u16::from_be_bytes([out[at + 6], out[at + 7]]);
    put_head(out, at, DATAPOINT_VALUE_INDICATION, first, count);
}
