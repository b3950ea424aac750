//! The tape of a shift: records of checks, cancels and reports, read one after the other.
#![tactic(auto)]

ghost use Rattle.std.specs.Prelude.{◌≡◌, length};
ghost use Rattle.tape.specs.Records.{answered, request, record_bytes, next_record, place_after, ReadsWhatStands, ReadingIsWhole};

use fault::{Fault, Part, Refusal};

#[cfg(test)]
mod tests;

// What a record asks for; a check has the bytes of its ticket, where they lie on the tape.
#[derive(Clone, Copy, Debug, PartialEq, Eq)]
pub enum Record<'a> {
    Check(&'a [u8]),
    Cancel(u16),
    Report(u8),
}

impl Record<'_> {
    // How many bytes the record takes, its head among them.
    fn size(&self) -> usize
        ensures { result ≡ length (record_bytes (request self.now)) }
    {
        match self {
            Record::Check(ticket) => 2 + ticket.len(),
            Record::Cancel(_) | Record::Report(_) => 2,
        }
    }
}

// A tape, and the place at which its next record starts. It is no iterator, since a fault does not end it.
#[derive(Drop)]
pub struct Reader<'a> {
    tape: &'a [u8],
    at: usize,
}

impl<'a> Reader<'a> {
    pub fn new(tape: &'a [u8]) -> Reader<'a>
        ensures tape { result.tape.now ≡ tape.now }
        ensures at { result.at ≡ 0 }
    {
        Reader { tape, at: 0 }
    }

    // The next record, or nothing at the tape's end. Refused with 15 where the tape ends in a record and with 16 for a record
    // of no kind or with an unused bit; the reader then stays at that record.
    pub fn next(&mut self) -> Result<Option<Record<'a>>, Fault>
        ensures answer { answered result ≡ next_record self.old.tape.now self.old.at }
        ensures at { self.new.at ≡ place_after self.old.at (next_record self.old.tape.now self.old.at) }
        ensures tape { self.new.tape ≡ self.old.tape }
        ensures what_stands { ReadsWhatStands self.old.tape.now self.old.at }
        ensures whole { ReadingIsWhole self.old.tape.now self.old.at }
    {
        let torn = Fault::new(Refusal::TornTape, Part::Tape, self.at);
        let Some(left) = self.tape.get(self.at..) else {
            return Ok(None);
        };
        let (head, behind) = match left {
            [] => return Ok(None),
            [_] => return Err(torn),
            [high, low, behind @ ..] => (u16::from_be_bytes([*high, *low]), behind),
        };
        let number = head % 16384;
        let record = match head / 16384 {
            1 => Record::Check(behind.get(..number as usize).ok_or(torn)?),
            2 if number < 1024 => Record::Cancel(number),
            3 if number < 64 => Record::Report(number as u8),
            _ => return Err(Fault::new(Refusal::BadRecord, Part::Tape, self.at)),
        };
        self.at += record.size();
        Ok(Some(record))
    }
}
