//! The calls under C's names, in the form with a number.
ghost use Rattle.std.specs.Prelude.{◌≡◌, ℕ, ◌/◌, length, option_map};
ghost use Rattle.door.specs.Calls.{product_answer, inverse_answer, LeftInverse, encode_answer, decode_answer, tag_bytes};
ghost use Rattle.door.specs.Forms.{kind_of, form_of, told_in, left_in, LeftIn};
ghost use Rattle.door.specs.Kinds.{kind_at};
ghost use Rattle.door.specs.Codes.{done};
ghost use Rattle.door.specs.Tasks.{task_answer, NumbersLeft, BytesLeft};

use super::calls::{Task, carry_out};
use super::codes::code;
use coding::WideModulus;
use fault::Fault;
use polynomial::PolynomialBasis;
use prime::{LongTower, P1021, P4093, ShortTower};

// The answer where no form has the number: C has one number for every answer.
const NO_SUCH_FORM: u64 = u64::MAX;

// The kinds of forms, each at both moduli.
#[derive(Clone, Copy)]
pub(crate) enum Kind {
    Short,
    Long,
    Polynomial,
}

impl Kind {
    // The kind of the form with a number.
    fn of_form(form: u8) -> Option<Kind>
        ensures { (q root w : ℕ) → option_map (kind_at q root w) result ≡ kind_of q root w (form / 2) }
    {
        match form / 2 {
            0 => Some(Kind::Short),
            1 => Some(Kind::Long),
            2 => Some(Kind::Polynomial),
            _ => None,
        }
    }
}

// What a call answers in the form of that kind at a modulus. Inlined, since a short call takes half as long again where its
// answer goes through memory.
#[inline(always)]
fn over<M: WideModulus>(
    kind: Kind,
    task: Task<'_>,
    numbers: &mut [u16],
    bytes: &mut [u8],
) -> Result<(), Fault>
    ensures answer { let f = kind_at M.Q M.ROOT M.BITS kind in
        result ≡ done (task_answer f.arithmetic f.layout f.width task.entry (length numbers.old) (length bytes.old)) }
    ensures numbers_left { let f = kind_at M.Q M.ROOT M.BITS kind in
        NumbersLeft f.arithmetic f.layout f.width task.entry numbers.old numbers.new }
    ensures bytes_left { let f = kind_at M.Q M.ROOT M.BITS kind in
        BytesLeft f.arithmetic f.layout f.width task.entry bytes.old bytes.new }
{
    match kind {
        Kind::Short => carry_out::<ShortTower<M>>(task, numbers, bytes),
        Kind::Long => carry_out::<LongTower<M>>(task, numbers, bytes),
        Kind::Polynomial => carry_out::<PolynomialBasis<M>>(task, numbers, bytes),
    }
}

// The code of a call in the form with a number: the even ones are at 4093 and the odd ones at 1021.
fn in_form(form: u8, task: Task<'_>, numbers: &mut [u16], bytes: &mut [u8]) -> u64
    ensures answer { result ≡ told_in (form_of form) (λ f.
        task_answer f.arithmetic f.layout f.width task.entry (length numbers.old) (length bytes.old)) }
    ensures numbers_left { LeftIn (form_of form) (λ f.
        NumbersLeft f.arithmetic f.layout f.width task.entry) numbers.old numbers.new }
    ensures bytes_left { LeftIn (form_of form) (λ f.
        BytesLeft f.arithmetic f.layout f.width task.entry) bytes.old bytes.new }
{
    match Kind::of_form(form) {
        Some(kind) if form % 2 == 0 => code(over::<P4093>(kind, task, numbers, bytes)),
        Some(kind) => code(over::<P1021>(kind, task, numbers, bytes)),
        None => NO_SUCH_FORM,
    }
}

// Writes the product of two values by their coefficients. Refused: 3 and 1 for the first, then for the second,
// then 3 for another row than of their count.
#[unsafe(no_mangle)]
pub extern "C" fn wz_product<'a>(form: u8, a: &'a [u16], b: &'a [u16], out: &mut [u16]) -> u64
    ensures answer { result ≡ told_in (form_of form)
        (λ f. product_answer f.arithmetic f.layout a.now b.now (length out.old)) }
    ensures row { out.new ≡ left_in (form_of form)
        (λ f. product_answer f.arithmetic f.layout a.now b.now (length out.old)) out.old }
{
    in_form(form, Task::Product(a, b), out, &mut [])
}

// Writes the inverse of a value. Refused: 3 and 1 for the value, 2 for zero, then 3 for the row.
#[unsafe(no_mangle)]
pub extern "C" fn wz_inverse(form: u8, a: &[u16], out: &mut [u16]) -> u64
    ensures answer { result ≡ told_in (form_of form)
        (λ f. inverse_answer f.arithmetic f.layout a.now (length out.old)) }
    ensures row { LeftIn (form_of form) (λ f.
        LeftInverse f.arithmetic f.layout
        (inverse_answer f.arithmetic f.layout a.now (length out.old))) out.old out.new }
{
    in_form(form, Task::Inverse(a), out, &mut [])
}

// Writes the bytes of a value. Refused: 3 and 1 for the value, then 3 for another row than of their count.
#[unsafe(no_mangle)]
pub extern "C" fn wz_encode(form: u8, a: &[u16], out: &mut [u8]) -> u64
    ensures answer { result ≡ told_in (form_of form)
        (λ f. encode_answer f.layout f.width a.now (length out.old)) }
    ensures row { out.new ≡ left_in (form_of form)
        (λ f. encode_answer f.layout f.width a.now (length out.old)) out.old }
{
    in_form(form, Task::Encode(a), &mut [], out)
}

// Writes the coefficients of the value that bytes encode. Refused: 3, 1 and 4 for the bytes, then 3 for the row.
#[unsafe(no_mangle)]
pub extern "C" fn wz_decode(form: u8, bytes: &[u8], out: &mut [u16]) -> u64
    ensures answer { result ≡ told_in (form_of form)
        (λ f. decode_answer f.layout f.width bytes.now (length out.old)) }
    ensures row { out.new ≡ left_in (form_of form)
        (λ f. decode_answer f.layout f.width bytes.now (length out.old)) out.old }
{
    in_form(form, Task::Decode(bytes), out, &mut [])
}

// Writes the bytes of a body's tag under an encoded key and pad. Refused: 3, 1 and 4 for the key (part 1), then for the
// pad (part 2), 5 for the body's length, then 3 for the row.
#[unsafe(no_mangle)]
pub extern "C" fn wz_tag<'a>(
    form: u8,
    key: &'a [u8],
    pad: &'a [u8],
    body: &'a [u8],
    out: &mut [u8],
) -> u64
    ensures answer { result ≡ told_in (form_of form)
        (λ f. tag_bytes f.arithmetic f.layout f.width key.now pad.now body.now (length out.old)) }
    ensures row { out.new ≡ left_in (form_of form)
        (λ f. tag_bytes f.arithmetic f.layout f.width key.now pad.now body.now (length out.old))
        out.old }
{
    in_form(form, Task::Tag(key, pad, body), &mut [], out)
}
