// SetParameterByte: a run of parameter bytes, all of them or none.
ghost use Rattle.std.specs.Prelude.{◌≡◌, ◌+◌, ◌≤◌, length};
ghost use Rattle.baos.specs.Table.{parameters_only};
ghost use Rattle.baos.specs.Message.{finding_of};
ghost use Rattle.baos.specs.Set.{absent_indices, absent_finding, set_parameter_finding, set_parameter_byte};
ghost use Rattle.baos.specs.Inner.Promise.{Answered};

use baos::code::{Code, NO_ERROR};
use baos::inner::Fault;
use baos::service::MESSAGE_HEAD;
use messages::message::{Request, number_of, start_of};
use words::bytes::put_bytes;

// Row 7: the first index of the range that is not in a table of so many bytes.
#[tactic(auto, using(baos::proofs::SetParameterLaws::absent_at_start, baos::proofs::SetParameterLaws::absent_behind, baos::proofs::SetParameterLaws::absent_none), unfolding(baos::specs::Message::finding_of, baos::specs::Message::code_number))]
fn judge_range(count: usize, start: u16, number: usize) -> Result<(), Fault>
    requires { (count ≤ 255) × (1 ≤ number) }
    ensures { finding_of result ≡ absent_finding (absent_indices count start number) }
{
    let first = start as usize;
    if first == 0 || count < first {
        Err(Fault {
            id: start,
            code: Code::BadId,
        })
    } else if count - first + 1 < number {
        // The one behind the last.
        Err(Fault {
            id: count as u16 + 1,
            code: Code::BadId,
        })
    } else {
        Ok(())
    }
}

// Rows 10, 6 and 7, for a table of so many bytes.
#[tactic(auto, using(baos::proofs::SetParameterLaws::other_size, baos::proofs::SetParameterLaws::no_bytes, baos::proofs::SetParameterLaws::by_absent), unfolding(baos::specs::Message::finding_of, baos::specs::Message::code_number))]
fn judge_parameters(count: usize, request: Request<'_>) -> Result<(), Fault>
    requires { count ≤ 255 }
    ensures { finding_of result ≡ set_parameter_finding count request.entry.message.now }
{
    let m = request.message;
    let start = start_of(m);
    let number = number_of(m) as usize;
    if m.len() - MESSAGE_HEAD != number {
        Err(Fault {
            id: start,
            code: Code::MessageInconsistent,
        })
    } else if number == 0 {
        Err(Fault {
            id: start,
            code: Code::BadServiceParameter,
        })
    } else {
        judge_range(count, start, number)
    }
}

// SetParameterByte: the answer, into the buffer at `at`; answers where it ends. No byte is set before all checks are
// passed.
pub fn set_parameters(
    parameters: &mut [u8],
    request: Request<'_>,
    out: &mut [u8],
    at: usize,
) -> usize
    requires { (length parameters.old ≤ 255) × (at + 254 ≤ length out.old) }
    ensures { let m = request.entry.message.now in Answered
        (set_parameter_byte (parameters_only parameters.old) m).after.parameters
        out.old at (set_parameter_byte (parameters_only parameters.old) m).says result
        out.new parameters.new }
{
    match judge_parameters(parameters.len(), request) {
        Err(fault) => request.put_fault(out, at, fault),
        Ok(()) => {
            let m = request.message;
            let start = start_of(m);
            put_bytes(parameters, start as usize - 1, &m[MESSAGE_HEAD..]);
            request.put_coded(out, at, start, NO_ERROR)
        }
    }
}
