//! The marks of the 1024 numbers.
ghost use Rattle.std.specs.Prelude.{◌≡◌};
ghost use Rattle.issuer.specs.Marks.{first_undrawn, how_many, was_drawn, is_sealed, is_void};

// What became of a number. It is drawn while its stub is in hand.
#[derive(Clone, Copy, Debug, PartialEq, Eq)]
pub enum Mark {
    Undrawn,
    Drawn,
    Sealed,
    Void,
}

// The lowest number that is not drawn.
pub(super) fn find_undrawn(marks: &[Mark; 1024]) -> Option<usize>
    ensures { result ≡ first_undrawn marks.now }
{
    marks.iter().position(|mark| *mark == Mark::Undrawn)
}

// How many numbers were drawn, whatever became of them, how many are sealed and how many are void.
pub(super) fn count_marks(marks: &[Mark; 1024]) -> (u16, u16, u16)
    ensures drawn { result.0 ≡ how_many was_drawn marks.now }
    ensures sealed { result.1 ≡ how_many is_sealed marks.now }
    ensures voided { result.2 ≡ how_many is_void marks.now }
{
    let drawn = marks.iter().filter(|mark| **mark != Mark::Undrawn).count();
    let sealed = marks.iter().filter(|mark| **mark == Mark::Sealed).count();
    let voided = marks.iter().filter(|mark| **mark == Mark::Void).count();
    (drawn as u16, sealed as u16, voided as u16)
}
