//! Faults: why a call was refused, in which part of its input, and at which place.
#![tactic(auto)]

ghost use Rattle.std.specs.Prelude.{◌≡◌, Some};
ghost use Rattle.fault.specs.Faults.{fault, refusal, refusal_number, part_number, fault_text};

use std::error::Error;
use std::fmt;

// Every reason for which a call can be refused, with its number.
#[derive(Clone, Copy, Debug, PartialEq, Eq)]
pub enum Refusal {
    CoefficientOutOfRange = 1,
    ZeroHasNoInverse = 2,
    WrongSize = 3,
    PaddingNotZero = 4,
    WrongLength = 5,
    BadPads = 6,
    ZeroKey = 7,
    NumberOutOfRange = 8,
    TicketCancelled = 9,
    TicketRidden = 10,
    FalseTag = 11,
    PaperTooShort = 12,
    AllDrawn = 13,
    UnknownStub = 14,
    TornTape = 15,
    BadRecord = 16,
    RouteOutOfRange = 17,
}

impl Refusal {
    // The number under which the refusal is documented and printed; the name says more than `u8::from` would.
    #[tactic(auto, using(crate::proofs::Numbers::refusal_of_number))]
    pub fn number(self) -> u8
        ensures number { result ≡ refusal_number self }
        ensures own { refusal result ≡ self }
    {
        self as u8
    }
}

// What was being read when the fault was found, with its number.
#[derive(Clone, Copy, Debug, PartialEq, Eq)]
pub enum Part {
    Call = 0,
    Key = 1,
    Pad = 2,
    Tag = 3,
    Tape = 4,
}

impl Part {
    // The number under which the part is printed, 0 to 4.
    pub fn number(self) -> u8
        ensures { result ≡ part_number self }
    {
        self as u8
    }
}

// Why a call was refused. The place is a power of X for a coefficient out of range,
// the first byte of the record for a fault of the tape, and 0 for every other fault: a rule, since a fault is printed and
// told to C with its place always.
#[derive(Clone, Copy, Debug, PartialEq, Eq)]
pub struct Fault {
    pub refusal: Refusal,
    pub part: Part,
    pub place: usize,
}

impl Fault {
    pub fn new(refusal: Refusal, part: Part, place: usize) -> Fault
        ensures { result ≡ fault (refusal_number refusal) part place }
    {
        Fault {
            refusal,
            part,
            place,
        }
    }

    // A fault of the call itself, with no place of its own. No conversion: it is the caller that knows the part.
    pub fn of_call(refusal: Refusal) -> Fault
        ensures { result ≡ fault (refusal_number refusal) Part.Call 0 }
    {
        Fault::new(refusal, Part::Call, 0)
    }
}

// `refused NUMBER PART PLACE`
impl fmt::Display for Fault {
    ghost output = { λ x. Some (fault_text x) };

    fn fmt<W: fmt::Write>(&self, f: &mut fmt::Formatter<W>) -> fmt::Result {
        let refusal = self.refusal.number();
        let part = self.part.number();
        let place = self.place;
        write!(f, "refused {refusal} {part} {place}")
    }
}

impl Error for Fault {}
