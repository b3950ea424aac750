//! The desk: follows the orders, with one issuer.
use super::orders::Order;
use super::problems::Problem;
use coding::{CodedField, encoded_size};
use issuer::Issuer;
use polynomial::PolynomialBasis;
use prime::P4093;
use std::alloc::{AllocError, Global};
use tag::LONGEST_BODY;
use wording::{Line, Misreading, hexadecimal};

// The longest line that is read, in bytes, without its end: 1024 pads take 24581.
pub(crate) const LONGEST_LINE: u32 = 32768;

type Field = PolynomialBasis<P4093>;

// What is kept from line to line: the issuer once its key is taken, and the pads that were given last.
#[derive(Drop)]
pub(crate) struct Desk {
    issuer: Option<Issuer<Field>>,
    pads: Option<Vec<u8>>,
}

impl Desk {
    pub(crate) fn new() -> Desk {
        Desk {
            issuer: None,
            pads: None,
        }
    }

    // Follows a line, and adds its answer, with its end; nothing where there is no answer.
    // The calculator has these arms too, over its own problems: a trait for both would be longer than they are.
    pub(crate) fn take(
        &mut self,
        heap: Global,
        line: &Line<LONGEST_LINE>,
        answers: &mut String,
    ) -> Result<(), AllocError> {
        match self.follow(heap, line) {
            Ok(None) => Ok(()),
            Ok(Some(text)) => {
                answers.push_str(&text)?;
                answers.push('\n')
            }
            Err(Problem::OutOfMemory(error) | Problem::Misread(Misreading::OutOfMemory(error))) => {
                Err(error)
            }
            Err(problem) => writeln!(answers, "{problem}"),
        }
    }

    fn follow(
        &mut self,
        heap: Global,
        line: &Line<LONGEST_LINE>,
    ) -> Result<Option<String>, Problem> {
        let Some(text) = line.text()? else {
            return Ok(None);
        };
        match Order::read(heap, text)? {
            Order::Key(_) if self.issuer.is_some() => Err(Problem::KeyAlreadyGiven),
            Order::Key(key) => {
                Issuer::make(&mut self.issuer, &key)?;
                Ok(None)
            }
            Order::Pads(pads) => {
                self.pads = Some(pads);
                Ok(None)
            }
            Order::Seal(route, text) => {
                let (issuer, pads) = self.key_and_pads()?;
                Ok(Some(seal(heap, issuer, pads, route, &text)?))
            }
            Order::Void => {
                let (issuer, pads) = self.key_and_pads()?;
                Ok(Some(void(heap, issuer, pads)?))
            }
        }
    }

    // The issuer that has the key, and the pads, once both are given.
    fn key_and_pads(&mut self) -> Result<(&mut Issuer<Field>, &[u8]), Problem> {
        let issuer = self.issuer.as_mut().ok_or(Problem::NoKey)?;
        let pads = self.pads.as_ref().ok_or(Problem::NoPads)?;
        Ok((issuer, pads))
    }

    // The last answer.
    pub(crate) fn tally(&self, heap: Global) -> Result<String, AllocError> {
        let (drawn, sealed, voided) = self.issuer.as_ref().map_or((0, 0, 0), Issuer::tally);
        format!(in heap; "tally {drawn} {sealed} {voided}\n")
    }
}

fn seal<F: CodedField>(
    heap: Global,
    issuer: &mut Issuer<F>,
    pads: &[u8],
    route: u8,
    text: &[u8],
) -> Result<String, Problem> {
    let mut paper = vec![in heap; 0; LONGEST_BODY + encoded_size::<F>()]?;
    let stub = issuer.draw(pads)?;
    let number = stub.number();
    let size = issuer.seal(stub, route, text, pads, &mut paper)?;
    paper.truncate(size);
    let ticket = hexadecimal(heap, &paper)?;
    Ok(format!(in heap; "{number} sealed {ticket}")?)
}

fn void<F: CodedField>(
    heap: Global,
    issuer: &mut Issuer<F>,
    pads: &[u8],
) -> Result<String, Problem> {
    let stub = issuer.draw(pads)?;
    let number = stub.number();
    issuer.void(stub)?;
    Ok(format!(in heap; "{number} voided")?)
}
