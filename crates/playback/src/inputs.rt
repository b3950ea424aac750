//! The input of a shift taken apart.
ghost use Rattle.std.specs.Prelude.{◌≡◌};
ghost use Rattle.coding.specs.Encoding.{encoded_size_of};
ghost use Rattle.playback.specs.Inputs.{opened, input_answer};

use coding::{CodedField, encoded_size};
use fault::{Fault, Refusal};

// The longest input, in bytes.
pub const LONGEST_INPUT: usize = 49152;

// An encoded key, pads and a tape, where they lie in the input.
#[derive(Clone, Copy)]
pub struct Input<'a> {
    pub key: &'a [u8],
    pub pads: &'a [u8],
    pub tape: &'a [u8],
}

// Takes an input apart; its length is tested first (3), then the count of pads and whether they are there (6).
pub fn open_input<F: CodedField>(input: &[u8]) -> Result<Input<'_>, Fault>
    ensures { opened result ≡ input_answer (encoded_size_of F.bits F.layout.count) input.now }
{
    let size = encoded_size::<F>();
    if input.len() < size + 2 || input.len() > LONGEST_INPUT {
        return Err(Fault::of_call(Refusal::WrongSize));
    }
    let (key, rest) = input.split_at(size);
    let count = u16::from_be_bytes([rest[0], rest[1]]) as usize;
    if !(1..=1024).contains(&count) {
        return Err(Fault::of_call(Refusal::BadPads));
    }
    let (pads, tape) = rest[2..]
        .split_at_checked(count * size)
        .ok_or(Fault::of_call(Refusal::BadPads))?;
    Ok(Input { key, pads, tape })
}
