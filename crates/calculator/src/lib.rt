//! One calculation over any field whose values are known by their coefficients.
#![tactic(auto)]

ghost use Rattle.std.specs.Prelude.{◌≡◌};
ghost use Rattle.calculator.specs.Calculations.{Calculated};
ghost use Rattle.calculator.specs.WorkedExamples.{WorkedExamples};

use fault::Fault;
use field::{Field, invert};

// An operation with the values that it is applied to.
#[derive(Clone, Copy)]
pub enum Operation<F> {
    Add(F, F),
    Neg(F),
    Mul(F, F),
    Square(F),
    Inverse(F),
    NonResidue,
    ByNonResidue(F),
    SqrtMinusOne,
    Same(F, F),
}

#[derive(Clone, Copy)]
pub enum Answer<F> {
    Value(F),
    Same(bool),
}

// The answer of an operation, by the arithmetic of the field.
#[tactic(auto, using(crate::proofs::Examples::worked_examples))]
pub fn calculate<F: Field>(operation: Operation<F>) -> Result<Answer<F>, Fault>
    ensures answer { Calculated F.arithmetic operation result }
    ensures examples { WorkedExamples }
{
    match operation {
        Operation::Add(a, b) => Ok(Answer::Value(a.add(b))),
        Operation::Neg(a) => Ok(Answer::Value(a.neg())),
        Operation::Mul(a, b) => Ok(Answer::Value(a.mul(b))),
        Operation::Square(a) => Ok(Answer::Value(a.square())),
        Operation::Inverse(a) => Ok(Answer::Value(invert(a)?)),
        Operation::NonResidue => Ok(Answer::Value(F::non_residue())),
        Operation::ByNonResidue(a) => Ok(Answer::Value(a.mul_by_non_residue())),
        Operation::SqrtMinusOne => Ok(Answer::Value(F::sqrt_minus_one())),
        Operation::Same(a, b) => Ok(Answer::Same(a == b)),
    }
}
