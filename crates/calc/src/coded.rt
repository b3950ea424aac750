//! Operations on encodings, blocks, bodies, tags and tickets, in the forms that carry tags.
use super::commands::{Command, Verb};
use super::problems::Problem;
use coding::{CodedField, block, decode, encode, encoded_size};
use fault::Part;
use std::alloc::Global;
use tag::{Body, LONGEST_BODY, check_ticket, count_blocks, make_tag};
use wording::{bytes, hexadecimal, number, small_number};

pub(crate) fn answer<F: CodedField>(command: Command<'_>) -> Result<String, Problem> {
    let heap = command.heap;
    let kind = command.form.kind;
    match (command.verb, command.arguments) {
        (Verb::Encode, _) => encoding::<F>(heap, command.value()?),
        (Verb::Decode, [encoding]) => {
            let value: F = decode(Part::Call, &bytes(heap, encoding)?)?;
            Ok(kind.shown(heap, value)?)
        }
        (Verb::Block, [text]) => {
            let value: F = block(&bytes(heap, text)?)?;
            Ok(kind.by_power().shown(heap, value)?)
        }
        (Verb::Body, [number, route, text]) => body(heap, number, route, text),
        (Verb::Tag, [key, pad, body]) => tag::<F>(heap, key, pad, body),
        (Verb::Ticket, [key, pads, ticket]) => checked::<F>(heap, key, pads, ticket),
        (Verb::Blocks, [length]) => {
            let count = count_blocks::<F>(number(length)? as usize)?;
            Ok(format!(in heap; "{count}")?)
        }
        _ => Err(Problem::WrongNumberOfArguments),
    }
}

// A route over 255 counts as 255, which is no route either.
fn body(heap: Global, written: &str, route: &str, text: &str) -> Result<String, Problem> {
    let number = number(written)?;
    let route = small_number(route)?;
    let text = bytes(heap, text)?;
    let mut paper = vec![in heap; 0; LONGEST_BODY]?;
    let body = Body {
        number,
        route,
        text: &text,
    };
    let size = body.write(&mut paper)?;
    paper.truncate(size);
    Ok(hexadecimal(heap, &paper)?)
}

fn tag<F: CodedField>(heap: Global, key: &str, pad: &str, body: &str) -> Result<String, Problem> {
    let key = bytes(heap, key)?;
    let pad = bytes(heap, pad)?;
    let body = bytes(heap, body)?;
    let key: F = decode(Part::Key, &key)?;
    let pad: F = decode(Part::Pad, &pad)?;
    encoding(heap, make_tag(key, pad, &body)?)
}

// The number, the route and the text of a ticket whose tag is right.
fn checked<F: CodedField>(
    heap: Global,
    key: &str,
    pads: &str,
    ticket: &str,
) -> Result<String, Problem> {
    let key = bytes(heap, key)?;
    let pads = bytes(heap, pads)?;
    let ticket = bytes(heap, ticket)?;
    let key: F = decode(Part::Key, &key)?;
    let Body {
        number,
        route,
        text,
    } = check_ticket(key, &pads, &ticket)?;
    let text = hexadecimal(heap, text)?;
    Ok(format!(in heap; "{number} {route} {text}")?)
}

fn encoding<F: CodedField>(heap: Global, value: F) -> Result<String, Problem> {
    let mut bytes = vec![in heap; 0; encoded_size::<F>()]?;
    encode(value, &mut bytes)?;
    Ok(hexadecimal(heap, &bytes)?)
}
