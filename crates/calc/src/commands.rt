//! Commands: what a line asks for.
use super::forms::{Form, Kind, Size};
use super::problems::Problem;
use super::{coded, forms};
use coding::{CodedField, WideModulus};
use field::Coordinates;
use polynomial::PolynomialBasis;
use prime::{Coefficient, LongTower, P1021, P4093, ShortTower};
use std::alloc::{AllocError, Global};
use std::str::FromStr;
use wording::{Line, Misreading};

// The longest line that is read, in bytes, without its end.
pub(crate) const LONGEST_LINE: u32 = 4096;

// What is done with the arguments.
#[derive(Clone, Copy)]
pub(crate) enum Verb {
    Add,
    Neg,
    Mul,
    Square,
    Inverse,
    NonResidue,
    ByNonResidue,
    SqrtMinusOne,
    Same,
    Convert,
    Encode,
    Decode,
    Block,
    Body,
    Tag,
    Blocks,
    Ticket,
}

impl FromStr for Verb {
    type Err = Problem;

    fn from_str(name: &str) -> Result<Verb, Problem> {
        Ok(match name {
            "add" => Verb::Add,
            "neg" => Verb::Neg,
            "mul" => Verb::Mul,
            "square" => Verb::Square,
            "inverse" => Verb::Inverse,
            "nonresidue" => Verb::NonResidue,
            "by-nonresidue" => Verb::ByNonResidue,
            "sqrt-minus-one" => Verb::SqrtMinusOne,
            "same" => Verb::Same,
            "convert" => Verb::Convert,
            "encode" => Verb::Encode,
            "decode" => Verb::Decode,
            "block" => Verb::Block,
            "body" => Verb::Body,
            "tag" => Verb::Tag,
            "blocks" => Verb::Blocks,
            "ticket" => Verb::Ticket,
            _ => return Err(Problem::NoSuchOperation),
        })
    }
}

impl Verb {
    fn count_arguments(self) -> usize {
        match self {
            Verb::NonResidue | Verb::SqrtMinusOne => 0,
            Verb::Add | Verb::Mul | Verb::Same => 2,
            Verb::Body | Verb::Tag | Verb::Ticket => 3,
            _ => 1,
        }
    }

    // Whether it is about encodings, blocks, bodies, tags or tickets. Two enums for the two sorts would need a name for
    // either, and a third type for both: names are tested before forms and arguments are.
    pub(crate) fn is_coded(self) -> bool {
        matches!(
            self,
            Verb::Encode
                | Verb::Decode
                | Verb::Block
                | Verb::Blocks
                | Verb::Body
                | Verb::Tag
                | Verb::Ticket
        )
    }
}

// A form, one of its operations, and as many arguments as that takes.
#[derive(Clone, Copy)]
pub(crate) struct Command<'a> {
    pub(crate) heap: Global,
    pub(crate) form: Form,
    pub(crate) verb: Verb,
    pub(crate) arguments: &'a [&'a str],
}

impl Command<'_> {
    fn answer(self) -> Result<String, Problem> {
        match self.form.size {
            Size::Q4093 => self.by_modulus::<P4093>(),
            Size::Q1021 => self.by_modulus::<P1021>(),
        }
    }

    fn by_modulus<M: WideModulus>(self) -> Result<String, Problem> {
        match (self.form.kind, self.verb) {
            (Kind::Long, Verb::Convert) => {
                let tower: LongTower<M> = self.value()?;
                Ok(Kind::Poly.shown(self.heap, PolynomialBasis::from(tower))?)
            }
            (Kind::Poly, Verb::Convert) => {
                let polynomial: PolynomialBasis<M> = self.value()?;
                Ok(Kind::Long.shown(self.heap, LongTower::from(polynomial))?)
            }
            (Kind::Prime, _) => forms::answer::<Coefficient<M>>(self),
            (Kind::Short, _) => self.by_field::<ShortTower<M>>(),
            (Kind::Long, _) => self.by_field::<LongTower<M>>(),
            (Kind::Poly, _) => self.by_field::<PolynomialBasis<M>>(),
        }
    }

    fn by_field<F: CodedField>(self) -> Result<String, Problem> {
        if self.verb.is_coded() {
            coded::answer::<F>(self)
        } else {
            forms::answer::<F>(self)
        }
    }

    // The coefficients that the argument at a place lists, and none where there is no such argument.
    pub(crate) fn list(self, place: usize) -> Result<Vec<u16>, Problem> {
        match self.arguments.get(place) {
            Some(word) => forms::coefficients(self.heap, word),
            None => Ok(Vec::new(self.heap)),
        }
    }

    // The value that is the only argument.
    pub(crate) fn value<F: Coordinates>(self) -> Result<F, Problem> {
        let [word] = self.arguments else {
            return Err(Problem::WrongNumberOfArguments);
        };
        let list = forms::coefficients(self.heap, word)?;
        Ok(self.form.kind.value(&list)?)
    }
}

// Adds the answer to a line, with its end; nothing for an empty line or a comment.
// The desk of tickets has these arms too, over its own problems: a trait for both would be longer than they are.
pub(crate) fn answer(
    heap: Global,
    line: &Line<LONGEST_LINE>,
    answers: &mut String,
) -> Result<(), AllocError> {
    match reply(heap, line) {
        Ok(None) => Ok(()),
        Ok(Some(text)) => {
            answers.push_str(&text)?;
            answers.push('\n')
        }
        Err(Problem::OutOfMemory(error) | Problem::Misread(Misreading::OutOfMemory(error))) => {
            Err(error)
        }
        Err(problem) => writeln!(answers, "{problem}"),
    }
}

fn reply(heap: Global, line: &Line<LONGEST_LINE>) -> Result<Option<String>, Problem> {
    let Some(text) = line.text()? else {
        return Ok(None);
    };
    let mut words = text.split(' ');
    let form: Form = words.next().unwrap_or("").parse()?;
    let verb: Verb = words.next().unwrap_or("").parse()?;
    if !form.has(verb) {
        return Err(Problem::NoSuchOperation);
    }
    let arguments: Vec<&str> = words.collect(heap)?;
    if arguments.len() != verb.count_arguments() {
        return Err(Problem::WrongNumberOfArguments);
    }
    let command = Command {
        heap,
        form,
        verb,
        arguments: &arguments,
    };
    Ok(Some(command.answer()?))
}
