//! Forms: the fields that a command can name, and the calculation in each.
use super::commands::{Command, Verb};
use super::problems::Problem;
use calculator::{Answer, Operation, calculate};
use fault::Fault;
use field::Coordinates;
use polynomial::bit_reversed;
use std::alloc::{AllocError, Global};
use std::array;
use std::str::FromStr;

#[derive(Clone, Copy)]
pub(crate) enum Kind {
    Prime,
    Short,
    Long,
    Poly,
}

impl FromStr for Kind {
    type Err = Problem;

    fn from_str(name: &str) -> Result<Kind, Problem> {
        match name {
            "prime" => Ok(Kind::Prime),
            "short" => Ok(Kind::Short),
            "long" => Ok(Kind::Long),
            "poly" => Ok(Kind::Poly),
            _ => Err(Problem::NoSuchForm),
        }
    }
}

impl Kind {
    fn count(self) -> usize {
        match self {
            Kind::Prime => 1,
            Kind::Short => 2,
            Kind::Long | Kind::Poly => 8,
        }
    }

    // The kind with as many coefficients that lists them by power.
    pub(crate) fn by_power(self) -> Kind {
        match self {
            Kind::Long => Kind::Poly,
            _ => self,
        }
    }

    // The value that a list in the order of the kind stands for.
    pub(crate) fn value<F: Coordinates>(self, list: &[u16]) -> Result<F, Fault> {
        match (self, <[u16; 8]>::try_from(list)) {
            (Kind::Long, Ok(places)) => F::from_coefficients(&bit_reversed(places)),
            _ => F::from_coefficients(list),
        }
    }

    // The coefficients in the order of the kind, joined by commas.
    pub(crate) fn shown<F: Coordinates>(
        self,
        heap: Global,
        value: F,
    ) -> Result<String, AllocError> {
        let by_power = array::from_fn(|power| value.coefficient(power));
        let list = match self {
            Kind::Long => bit_reversed(by_power),
            _ => by_power,
        };
        let mut text = String::new(heap);
        for (place, coefficient) in list.iter().take(self.count()).enumerate() {
            let comma = if place > 0 { "," } else { "" };
            write!(text, "{comma}{coefficient}")?;
        }
        Ok(text)
    }
}

#[derive(Clone, Copy)]
pub(crate) enum Size {
    Q4093,
    Q1021,
}

impl FromStr for Size {
    type Err = Problem;

    fn from_str(name: &str) -> Result<Size, Problem> {
        match name {
            "4093" => Ok(Size::Q4093),
            "1021" => Ok(Size::Q1021),
            _ => Err(Problem::NoSuchForm),
        }
    }
}

#[derive(Clone, Copy)]
pub(crate) struct Form {
    pub(crate) kind: Kind,
    pub(crate) size: Size,
}

impl FromStr for Form {
    type Err = Problem;

    fn from_str(name: &str) -> Result<Form, Problem> {
        let (kind, size) = name.split_once('-').ok_or(Problem::NoSuchForm)?;
        Ok(Form {
            kind: kind.parse()?,
            size: size.parse()?,
        })
    }
}

impl Form {
    // Whether the form has the operation: only the long and the poly form are converted, to each other, and a prime field
    // carries no tags.
    pub(crate) fn has(self, verb: Verb) -> bool {
        match (verb, self.kind) {
            (Verb::Convert, Kind::Prime | Kind::Short) => false,
            (_, Kind::Prime) => !verb.is_coded(),
            _ => true,
        }
    }
}

// The answer in words and numbers.
pub(crate) fn answer<F: Coordinates>(command: Command<'_>) -> Result<String, Problem> {
    let Command { heap, form, .. } = command;
    match calculate(operation::<F>(command)?)? {
        Answer::Value(value) => Ok(form.kind.shown(heap, value)?),
        Answer::Same(same) => Ok(String::from_str(heap, if same { "yes" } else { "no" })?),
    }
}

// All arguments are understood before the first value is built: there are two at most, so they need no vector.
fn operation<F: Coordinates>(command: Command<'_>) -> Result<Operation<F>, Problem> {
    let kind = command.form.kind;
    let first = command.list(0)?;
    let second = command.list(1)?;
    Ok(match command.verb {
        Verb::Add => Operation::Add(kind.value(&first)?, kind.value(&second)?),
        Verb::Neg => Operation::Neg(kind.value(&first)?),
        Verb::Mul => Operation::Mul(kind.value(&first)?, kind.value(&second)?),
        Verb::Square => Operation::Square(kind.value(&first)?),
        Verb::Inverse => Operation::Inverse(kind.value(&first)?),
        Verb::NonResidue => Operation::NonResidue,
        Verb::ByNonResidue => Operation::ByNonResidue(kind.value(&first)?),
        Verb::SqrtMinusOne => Operation::SqrtMinusOne,
        Verb::Same => Operation::Same(kind.value(&first)?, kind.value(&second)?),
        _ => return Err(Problem::NoSuchOperation),
    })
}

// The coefficients of a value: decimal numbers joined by commas.
pub(crate) fn coefficients(heap: Global, word: &str) -> Result<Vec<u16>, Problem> {
    word.split(',')
        .map(|part| wording::number(part).map_err(|_| Problem::NotAValue))
        .try_collect(heap)
}
