//! Tickets: a body and its encoded tag, and the pads that tags are made with.
ghost use Rattle.std.specs.Prelude.{◌≡◌, length};
ghost use Rattle.coding.specs.Encoding.{encoded_size_of};
ghost use Rattle.tag.specs.Bodies.{parts_of};
ghost use Rattle.tag.specs.Tickets.{Answers, pads_answer, key_answer, pad_answer, ticket_answer};

use super::bodies::Body;
use super::tags::make_tag;
use coding::{CodedField, decode, encoded_size};
use fault::{Fault, Part, Refusal};

// How many pads there are; other than 1 to 1024 whole ones are refused with 6.
pub fn count_pads<F: CodedField>(pads: &[u8]) -> Result<usize, Fault>
    ensures { result ≡ pads_answer (encoded_size_of F.bits F.layout.count) (length pads.now) }
{
    let size = encoded_size::<F>();
    let count = pads.len() / size;
    if count * size != pads.len() || !(1..=1024).contains(&count) {
        return Err(Fault::of_call(Refusal::BadPads));
    }
    Ok(count)
}

// The key that bytes encode: refused as decoding them is, then with 7 where it is zero.
pub fn read_key<F: CodedField>(bytes: &[u8]) -> Result<F, Fault>
    ensures { Answers F.arithmetic.meaning (key_answer F.arithmetic F.layout F.bits bytes.now) result }
{
    let key: F = decode(Part::Key, bytes)?;
    if key == F::zero() {
        return Err(Fault::new(Refusal::ZeroKey, Part::Key, 0));
    }
    Ok(key)
}

// The pad of a ticket number: refused as the pads are, then with 8 where there is none, then as decoding it is.
pub fn read_pad<F: CodedField>(pads: &[u8], number: usize) -> Result<F, Fault>
    ensures { Answers F.arithmetic.meaning (pad_answer F.arithmetic F.layout F.bits pads.now number) result }
{
    let count = count_pads::<F>(pads)?;
    if number >= count {
        return Err(Fault::of_call(Refusal::NumberOutOfRange));
    }
    // a range: `nth` of the chunks would step over each pad before
    let size = encoded_size::<F>();
    let from = size * number;
    decode(Part::Pad, &pads[from..from + size])
}

// The body of a ticket whose tag is right under the key and the pad of its number. Its length is tested first (5), then the
// pads (6), its number (8), the decoding of its pad and of its tag, and then the tag (11).
pub fn check_ticket<'a, F: CodedField>(
    key: F,
    pads: &[u8],
    ticket: &'a [u8],
) -> Result<Body<'a>, Fault>
    ensures { Answers parts_of
        (ticket_answer F.arithmetic F.layout F.bits (F.arithmetic.meaning key) pads.now ticket.now) result }
{
    let Some(end) = ticket.len().checked_sub(encoded_size::<F>()) else {
        return Err(Fault::of_call(Refusal::WrongLength));
    };
    let (bytes, tag) = ticket.split_at(end);
    let body = Body::open(bytes)?;
    let pad = read_pad(pads, body.number as usize)?;
    let claimed: F = decode(Part::Tag, tag)?;
    let right = make_tag(key, pad, bytes)?;
    if right == claimed {
        Ok(body)
    } else {
        Err(Fault::of_call(Refusal::FalseTag))
    }
}
