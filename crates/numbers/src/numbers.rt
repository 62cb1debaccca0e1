// Events and replies as the numbers that firmware gives and gets.
ghost use Rattle.std.specs.Prelude.{if◌then◌else◌, ◌≡◌, ◌<◌, ◌^◌, Some, None};
ghost use Rattle.calls.specs.Reply.{sent_count, reply_by};
ghost use Rattle.calls.specs.Numbers.{is_event, outcome_numbered, event_numbered, reply_number};

use baos::bus::Outcome;
use calls::event::Event;

// Whether the numbers name an event.
#[tactic(auto, unfolding(calls::specs::Numbers::is_event))]
pub fn is_event(event: u8, outcome: u8) -> bool
    ensures { result ≡ is_event event outcome }
{
    match event {
        1..=5 => true,
        6 => outcome < 3,
        _ => false,
    }
}

// Sent, failed or in progress.
#[tactic(auto, unfolding(calls::specs::Numbers::outcome_numbered))]
fn outcome_numbered(outcome: u8) -> Outcome
    ensures { result ≡ outcome_numbered outcome }
{
    match outcome {
        0 => Outcome::Sent,
        1 => Outcome::Failed,
        _ => Outcome::InProgress,
    }
}

// The event of these numbers. It cannot fail: where they name none, its definition gives the last.
#[tactic(auto, unfolding(calls::specs::Numbers::event_numbered))]
pub fn event_numbered(event: u8, byte: u8, id: u16, outcome: u8) -> Event
    ensures { result ≡ event_numbered event byte id outcome }
{
    match event {
        1 => Event::HostByte(byte),
        2 => Event::IdleMark,
        3 => Event::AckWaitOver,
        4 => Event::Poll,
        5 => Event::BusValue(id),
        _ => Event::TransmissionOutcome(id, outcome_numbered(outcome)),
    }
}

// The same where the numbers name an event.
pub fn event_named(event: u8, byte: u8, id: u16, outcome: u8) -> Option<Event>
    ensures { result ≡ (if is_event event outcome then Some (event_numbered event byte id outcome) else None) }
{
    if is_event(event, outcome) {
        Some(event_numbered(event, byte, id, outcome))
    } else {
        None
    }
}

// How many bytes are to be sent, or minus the refusal's number: any number, as the definition has it, since a number is
// what firmware gets. No `From`, since neither type is this crate's.
pub fn reply_number(reply: Result<usize, u8>) -> i32
    requires { sent_count (reply_by reply) < 2 ^ 31 }
    ensures { result ≡ reply_number (reply_by reply) }
{
    match reply {
        Ok(count) => count as i32,
        Err(number) => -(number as i32),
    }
}
