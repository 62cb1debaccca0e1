// A request that the link hands up: where its message stands, and the room in front of what is said to it.
ghost use Rattle.std.specs.Prelude.{◌≡◌, ◌-◌, ◌≤◌, take, drop};

use ft12::frame::BEFORE_MESSAGE;

// Where an answer's frame begins in the output buffer, behind the acknowledgement, and where the answer itself does.
pub const ANSWER_FRAME_AT: usize = 1;

pub const ANSWER_AT: usize = ANSWER_FRAME_AT + BEFORE_MESSAGE;

// An indication's frame has nothing in front of it.
pub const INDICATION_FRAME_AT: usize = 0;

pub const INDICATION_AT: usize = BEFORE_MESSAGE;

// The message of the request whose frame has this L, which counts the control byte too: a part of the receiver.
pub fn request_message(receiver: &[u8; 260], l: u8) -> &[u8]
    requires { 1 ≤ l }
    ensures { result.now ≡ take (l - 1) (drop 5 receiver.now) }
{
    &receiver[BEFORE_MESSAGE..BEFORE_MESSAGE + l as usize - 1]
}
