//! An answer as one number.
ghost use Rattle.std.specs.Prelude.{◌≡◌};
ghost use Rattle.door.specs.Codes.{code as code_of};

use fault::Fault;

// The largest place that is told as it is.
const LARGEST_PLACE: usize = 281474976710655;

// 0 where a call is done, else its fault: the refusal, the part in steps of 256, the place in steps of 65536.
pub(crate) fn code(answer: Result<(), Fault>) -> u64
    ensures { result ≡ code_of answer }
{
    match answer {
        Ok(()) => 0,
        Err(fault) => {
            let place = fault.place.min(LARGEST_PLACE);
            fault.refusal.number() as u64 + 256 * fault.part.number() as u64 + 65536 * place as u64
        }
    }
}
