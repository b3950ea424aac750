//! Writing a ticket: the tests, and then the body and its encoded tag.
ghost use Rattle.std.specs.Prelude.{◌≡◌, ◌+◌, length, Ok, OnOk};
ghost use Rattle.coding.specs.Encoding.{encoded_size_of};
ghost use Rattle.tag.specs.Bodies.{written_first};
ghost use Rattle.tag.specs.Tickets.{Answers};
ghost use Rattle.issuer.specs.Calls.{FitsPaper, pad_answer_for, ticket_bytes, RightTicket};

use coding::{CodedField, encode, encoded_size};
use fault::{Fault, Refusal};
use tag::{Body, LONGEST_TEXT, count_pads, make_tag, read_pad};

// The pad that a ticket is sealed with, where nothing is refused: the pads are counted (6), then come the number (8), the route
// (17), the text (5), the room for the ticket (12) and the decoding of the pad. A body's own tests stand in another order
// and ask for less room, so they serve no part of these.
pub(super) fn pad_for<F: CodedField>(body: Body<'_>, pads: &[u8], room: usize) -> Result<F, Fault>
    ensures answer { Answers F.arithmetic.meaning
        (pad_answer_for F.arithmetic F.layout F.bits
        body.entry.number body.entry.route body.entry.text.now pads.now room)
        result }
    ensures fits { OnOk result
        (FitsPaper (encoded_size_of F.bits F.layout.count)
        body.entry.number body.entry.route body.entry.text.now room) }
{
    let number = body.number as usize;
    if number >= count_pads::<F>(pads)? {
        return Err(Fault::of_call(Refusal::NumberOutOfRange));
    }
    if body.route >= 64 {
        return Err(Fault::of_call(Refusal::RouteOutOfRange));
    }
    if body.text.len() > LONGEST_TEXT {
        return Err(Fault::of_call(Refusal::WrongLength));
    }
    if room < body.text.len() + 2 + encoded_size::<F>() {
        return Err(Fault::of_call(Refusal::PaperTooShort));
    }
    read_pad(pads, number)
}

// Writes a ticket first in its paper and answers its length.
pub(super) fn write_ticket<F: CodedField>(
    key: F,
    pad: F,
    body: Body<'_>,
    paper: &mut [u8],
) -> Result<usize, Fault>
    requires { FitsPaper (encoded_size_of F.bits F.layout.count)
        body.number body.route body.text.now (length paper.old) }
    ensures answer { result ≡ Ok (length body.entry.text.now + 2 + encoded_size_of F.bits F.layout.count) }
    ensures bytes { paper.new ≡ written_first
        (ticket_bytes F.arithmetic F.layout F.bits
        (F.arithmetic.meaning key) (F.arithmetic.meaning pad)
        body.entry.number body.entry.route body.entry.text.now)
        paper.old }
    ensures right { RightTicket F.arithmetic F.layout F.bits
        (F.arithmetic.meaning key) (F.arithmetic.meaning pad)
        body.entry.number body.entry.route body.entry.text.now }
{
    let end = body.write(paper)?;
    let tag = make_tag(key, pad, &paper[..end])?;
    let size = end + encoded_size::<F>();
    encode(tag, &mut paper[end..size])?;
    Ok(size)
}
