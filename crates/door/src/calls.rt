//! The calls over any field that carries tags.
ghost use Rattle.std.specs.Prelude.{◌≡◌, cond, length, Ok, Err};
ghost use Rattle.fault.specs.declared.Part.TheVariants.{Call};
ghost use Rattle.fault.specs.Faults.{fault};
ghost use Rattle.door.specs.Calls.{fitting, product_answer, inverse_answer, LeftInverse, encode_answer, decode_answer, tag_bytes};
ghost use Rattle.door.specs.Codes.{done, left};
ghost use Rattle.door.specs.Tasks.{task_answer, NumbersLeft, BytesLeft};

use coding::{CodedField, decode, encode};
use fault::{Fault, Part, Refusal};
use field::Coordinates;
use tag::make_tag;

// A call, with what it is asked of.
#[derive(Clone, Copy)]
pub(crate) enum Task<'a> {
    Product(&'a [u16], &'a [u16]),
    Inverse(&'a [u16]),
    Encode(&'a [u16]),
    Decode(&'a [u8]),
    Tag(&'a [u8], &'a [u8], &'a [u8]),
}

// Writes a value's coefficients by power into a row of just their count; into another it is refused with 3.
fn tell<F: Coordinates>(value: F, out: &mut [u16]) -> Result<(), Fault>
    ensures answer { result ≡ done (fitting F.layout.count (length out.old)
        (F.layout.by_power (F.arithmetic.meaning value))) }
    ensures row { out.new ≡ left (fitting F.layout.count (length out.old)
        (F.layout.by_power (F.arithmetic.meaning value))) out.old }
{
    if !F::has_count(out.len()) {
        return Err(Fault::of_call(Refusal::WrongSize));
    }
    for (power, coefficient) in out.iter_mut().enumerate() {
        *coefficient = value.coefficient(power);
    }
    Ok(())
}

// The product of two values by their coefficients.
fn product_of<F: Coordinates>(a: &[u16], b: &[u16], out: &mut [u16]) -> Result<(), Fault>
    ensures answer { result ≡ done (product_answer F.arithmetic F.layout a.now b.now (length out.old)) }
    ensures row { out.new ≡ left (product_answer F.arithmetic F.layout a.now b.now (length out.old)) out.old }
{
    let x = F::from_coefficients(a)?;
    let y = F::from_coefficients(b)?;
    tell(x.mul(y), out)
}

// The inverse of a value by its coefficients.
fn inverse_of<F: Coordinates>(a: &[u16], out: &mut [u16]) -> Result<(), Fault>
    ensures answer { result ≡ done (inverse_answer F.arithmetic F.layout a.now (length out.old)) }
    ensures row { LeftInverse F.arithmetic F.layout
        (inverse_answer F.arithmetic F.layout a.now (length out.old)) out.old
        out.new }
{
    let x = F::from_coefficients(a)?;
    tell(x.inverse()?, out)
}

// The bytes of a value, by its coefficients.
fn encode_of<F: CodedField>(a: &[u16], out: &mut [u8]) -> Result<(), Fault>
    ensures answer { result ≡ done (encode_answer F.layout F.bits a.now (length out.old)) }
    ensures row { out.new ≡ left (encode_answer F.layout F.bits a.now (length out.old)) out.old }
{
    let value = F::from_coefficients(a)?;
    encode(value, out)
}

// The coefficients of the value that bytes encode.
fn decode_of<F: CodedField>(bytes: &[u8], out: &mut [u16]) -> Result<(), Fault>
    ensures answer { result ≡ done (decode_answer F.layout F.bits bytes.now (length out.old)) }
    ensures row { out.new ≡ left (decode_answer F.layout F.bits bytes.now (length out.old)) out.old }
{
    let value: F = decode(Part::Call, bytes)?;
    tell(value, out)
}

// The bytes of a body's tag under an encoded key and an encoded pad.
fn tag_of<F: CodedField>(key: &[u8], pad: &[u8], body: &[u8], out: &mut [u8]) -> Result<(), Fault>
    ensures answer { result ≡ done (tag_bytes F.arithmetic F.layout
        F.bits key.now pad.now body.now (length out.old)) }
    ensures row { out.new ≡ left (tag_bytes F.arithmetic F.layout
        F.bits key.now pad.now body.now (length out.old)) out.old }
{
    let key: F = decode(Part::Key, key)?;
    let pad: F = decode(Part::Pad, pad)?;
    encode(make_tag(key, pad, body)?, out)
}

// What a call answers. One that answers numbers leaves the row for bytes alone, and the other way round. The rows stay
// beside the task: of a row that is lent within an enum no clause can say what is left in it. One match and no
// trait of calls: its members would have to speak of every field.
pub(crate) fn carry_out<F: CodedField>(
    task: Task<'_>,
    numbers: &mut [u16],
    bytes: &mut [u8],
) -> Result<(), Fault>
    ensures answer { result ≡ done
        (task_answer F.arithmetic F.layout F.bits task.entry (length numbers.old) (length bytes.old)) }
    ensures numbers_left { NumbersLeft F.arithmetic F.layout F.bits task.entry numbers.old numbers.new }
    ensures bytes_left { BytesLeft F.arithmetic F.layout F.bits task.entry bytes.old bytes.new }
{
    match task {
        Task::Product(a, b) => product_of::<F>(a, b, numbers),
        Task::Inverse(a) => inverse_of::<F>(a, numbers),
        Task::Encode(a) => encode_of::<F>(a, bytes),
        Task::Decode(encoding) => decode_of::<F>(encoding, numbers),
        Task::Tag(key, pad, body) => tag_of::<F>(key, pad, body, bytes),
    }
}
