//! The lines of a shift and their text.
ghost use Rattle.std.specs.Prelude.{◌≡◌, IfOk, Some, string_bytes};
ghost use Rattle.playback.specs.Texts.{line_text, page_text};

use fault::Fault;
use std::alloc::{AllocError, Global};
use std::fmt;

// What is said of a record, after its number; at the end, how many lines there were. A struct of the number and what is said
// would be no plainer: the last line has a count in the number's place.
#[derive(Clone, Copy, Debug, PartialEq, Eq)]
pub enum Line {
    Pass(usize, u8),
    Refused(usize, Fault),
    Cancelled(usize),
    Rides(usize, u16),
    End(usize),
}

impl fmt::Display for Line {
    ghost output = { λ x. Some (line_text x) };

    fn fmt<W: fmt::Write>(&self, f: &mut fmt::Formatter<W>) -> fmt::Result {
        match *self {
            Line::Pass(number, route) => write!(f, "{number} pass {route}"),
            Line::Refused(number, fault) => write!(f, "{number} {fault}"),
            Line::Cancelled(number) => write!(f, "{number} cancelled"),
            Line::Rides(number, count) => write!(f, "{number} rides {count}"),
            Line::End(count) => write!(f, "end {count}"),
        }
    }
}

// The text of the lines, a newline after each.
pub fn page(heap: Global, lines: &[Line]) -> Result<String, AllocError>
    ensures { IfOk result (λ s. string_bytes s ≡ page_text lines.now) }
{
    let mut all = String::new(heap);
    for line in lines {
        writeln!(all, "{line}")?;
    }
    Ok(all)
}
