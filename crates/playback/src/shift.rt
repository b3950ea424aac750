//! Playing a shift: the records of its tape are the calls of one validator, blank at first.
ghost use Rattle.std.specs.Prelude.{◌≡◌, [], ◌∷◌, IfOk, Err, MatchResult, OnOk};
ghost use Rattle.tape.specs.Records.{request};
ghost use Rattle.validator.specs.Calls.{after};
ghost use Rattle.playback.specs.Inputs.{start_answer, Begun};
ghost use Rattle.playback.specs.declared.lines.Line.TheVariants.{Refused, End};
ghost use Rattle.playback.specs.Lines.{call, line_of, tape_lines, shift_lines, RecordsAreWhole, PlaysTheWholeTape};

use super::inputs::{Input, open_input};
use super::lines::Line;
use coding::CodedField;
use fault::Fault;
use std::alloc::{AllocError, Global};
use tape::{Reader, Record};
use validator::Validator;

// The line of one record, which is the validator's next call.
fn answer<F: CodedField>(
    validator: &mut Validator<F>,
    pads: &[u8],
    number: usize,
    item: Record<'_>,
) -> Line
    ensures line { result ≡ line_of F.arithmetic F.layout F.bits
        number validator.old (call pads.now (request item.entry)) }
    ensures state { validator.new ≡ after F.arithmetic F.layout F.bits
        validator.old (call pads.now (request item.entry)) }
{
    let said = match item {
        Record::Check(ticket) => validator
            .check(ticket, pads)
            .map(|route| Line::Pass(number, route)),
        Record::Cancel(ticket) => validator.cancel(ticket).map(|()| Line::Cancelled(number)),
        Record::Report(route) => validator
            .report(route)
            .map(|count| Line::Rides(number, count)),
    };
    said.unwrap_or_else(|fault| Line::Refused(number, fault))
}

// The lines of a tape.
fn play_tape<F: CodedField>(
    heap: Global,
    mut validator: Validator<F>,
    pads: &[u8],
    tape: &[u8],
) -> Result<Vec<Line>, AllocError>
    ensures lines { IfOk result
        (λ lines. lines.items ≡ tape_lines F.arithmetic F.layout F.bits
        validator pads.now tape.now) }
    ensures whole { OnOk result (RecordsAreWhole tape.now) }
{
    let mut reader = Reader::new(tape);
    let mut lines = Vec::new(heap);
    // No `while let`, and no `?`: the first fault of the tape ends the loop as its end does, but has a line.
    loop {
        let number = lines.len() + 1;
        match reader.next() {
            Ok(Some(item)) => lines.push(answer(&mut validator, pads, number, item))?,
            Ok(None) => break,
            Err(fault) => {
                lines.push(Line::Refused(number, fault))?;
                break;
            }
        }
    }
    let count = lines.len();
    lines.push(Line::End(count))?;
    Ok(lines)
}

// The blank validator with the key of an input, and the parts of the input.
fn begin<F: CodedField>(input: &[u8]) -> Result<(Validator<F>, Input<'_>), Fault>
    ensures { MatchResult result
        (λ b. Begun F.arithmetic F.layout F.bits
        input.now b.0 b.1.pads.now b.1.tape.now)
        (λ f. start_answer F.arithmetic F.layout F.bits input.now ≡ Err f) }
{
    let parts = open_input::<F>(input)?;
    Ok((Validator::new(parts.key)?, parts))
}

// The lines of a shift that does not begin.
fn not_begun(heap: Global, fault: Fault) -> Result<Vec<Line>, AllocError>
    ensures { IfOk result (λ lines. lines.items ≡ Refused 0 fault ∷ End 1 ∷ []) }
{
    Ok(vec![in heap; Line::Refused(0, fault), Line::End(1)]?)
}

// The lines of a whole shift: of each record on its tape, or of the one fault with which it does not begin, and a last one.
pub fn play<F: CodedField>(heap: Global, input: &[u8]) -> Result<Vec<Line>, AllocError>
    ensures lines { IfOk result (λ lines. lines.items ≡ shift_lines F.arithmetic F.layout F.bits input.now) }
    ensures whole_tape { IfOk result
        (λ lines. PlaysTheWholeTape F.arithmetic F.layout F.bits input.now lines.items) }
{
    match begin::<F>(input) {
        Ok((validator, parts)) => play_tape(heap, validator, parts.pads, parts.tape),
        Err(fault) => not_begun(heap, fault),
    }
}
