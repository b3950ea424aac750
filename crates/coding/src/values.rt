//! Encoding and decoding of values, and the values that blocks stand for.
ghost use Rattle.std.specs.Prelude.{◌≡◌, ℕ, ◌<◌, ◌≤◌, length, IfOk, if◌then◌else◌, Ok, Err, nat_eq};
ghost use Rattle.fault.specs.declared.Part.{Part as ThePart};
ghost use Rattle.fault.specs.declared.Part.TheVariants.{Call};
ghost use Rattle.fault.specs.Faults.{fault};
ghost use Rattle.coding.specs.Encoding.{encoded_size_of, block_size_of, encoded, decoded, Decoded, EncodingIsOneNumber, block_coefficients, Blocked};

use super::bits::{Digits, read_bits};
use super::coded::CodedField;
use super::row::Row;
use fault::{Fault, Part, Refusal};

// T, the bytes of an encoded value.
pub fn encoded_size<F: CodedField>() -> usize
    ensures { result ≡ encoded_size_of F.bits F.layout.count }
{
    (F::count() * F::width() as usize + 7) / 8
}

// B, the bytes of a block.
pub fn block_size<F: CodedField>() -> usize
    ensures { result ≡ block_size_of F.bits F.layout.count }
{
    F::count() * (F::width() as usize - 1) / 8
}

// Encodes a value into bytes of just its size; into another size it is refused with 3, and nothing is written.
pub fn encode<F: CodedField>(value: F, out: &mut [u8]) -> Result<(), Fault>
    ensures answer { result ≡ (if nat_eq (length out.old) (encoded_size_of F.bits F.layout.count)
        then Ok tt
        else Err (fault 3 Call 0)) }
    ensures bytes { out.new ≡ (if nat_eq (length out.old) (encoded_size_of F.bits F.layout.count)
        then encoded F.bits F.layout.count
        (F.layout.by_power (F.arithmetic.meaning value))
        else out.old) }
    ensures one_number { EncodingIsOneNumber F.bits F.layout.count
        (F.layout.by_power (F.arithmetic.meaning value)) }
    ensures decodes_back { (part : ThePart) →
        decoded F.layout F.bits part
        (encoded F.bits F.layout.count
        (F.layout.by_power (F.arithmetic.meaning value)))
        ≡ Ok (F.layout.by_power (F.arithmetic.meaning value)) }
{
    if out.len() != encoded_size::<F>() {
        return Err(Fault::of_call(Refusal::WrongSize));
    }
    let row = Row::of(value);
    let digits = Digits {
        numbers: row.numbers(),
        width: F::width(),
    };
    digits.write_to(out);
    Ok(())
}

// The value that bytes encode: refused with 3 for another count of bytes, then with 1 at the first power whose coefficient
// is not below the modulus, then with 4 where a padding bit is 1; a fault carries the part.
pub fn decode<F: CodedField>(part: Part, bytes: &[u8]) -> Result<F, Fault>
    ensures answer { Decoded F.arithmetic F.layout F.bits part bytes.now result }
    ensures encodes_back { IfOk result (λ v.
        encoded F.bits F.layout.count
        (F.layout.by_power (F.arithmetic.meaning v))
        ≡ bytes.now) }
{
    if bytes.len() != encoded_size::<F>() {
        return Err(Fault::new(Refusal::WrongSize, part, 0));
    }
    let width = F::width();
    let row = Row::cut::<F>(bytes, width);
    let value = F::from_coefficients(row.numbers()).map_err(|fault| Fault { part, ..fault })?;
    let end = F::count() * width as usize;
    if read_bits(bytes, end, (8 * bytes.len() - end) as u32) != 0 {
        return Err(Fault::new(Refusal::PaddingNotZero, part, 0));
    }
    Ok(value)
}

// The value that a block of at most the block size stands for, filled up with 00; a longer one is refused with 3.
pub fn block<F: CodedField>(bytes: &[u8]) -> Result<F, Fault>
    ensures { Blocked F.arithmetic F.layout F.bits bytes.now result }
{
    if bytes.len() > block_size::<F>() {
        return Err(Fault::of_call(Refusal::WrongSize));
    }
    Ok(from_block(bytes))
}

// The value that a block stands for. Its bits fill groups of one bit less than the width, one for each power;
// missing bits are 0, so that a short block is as if filled up with 00, and bits that fill no group are not read.
pub fn from_block<F: CodedField>(block: &[u8]) -> F
    ensures { F.arithmetic.meaning result ≡ F.layout.from_power
        (block_coefficients F.bits F.layout.count block.now) }
{
    let row = Row::cut::<F>(block, F::width() - 1);
    F::from_coefficients(row.numbers()).unwrap()
}
