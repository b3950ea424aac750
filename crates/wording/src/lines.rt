//! A line as it comes in, in bounded memory.
ghost use Rattle.std.specs.Prelude.{◌≡◌, ℕ, ◌+◌, ◌≤◌, List, [], ◌∷◌, ◌++◌, length, take, OnOk, OnErr, MatchResult, option_copied, Ok, Err};
ghost use Rattle.std.specs.List.{list_all};
ghost use Rattle.wording.specs.Lines.{line_text, is_printable};

use super::misreadings::Misreading;
use std::alloc::{AllocError, Global};
use std::marker::Model;

// The bytes of a line. Of one with more than `LONGEST` no more than two over are kept, which tell
// that it is too long: one may be a carriage return at the end, and be dropped.
#[derive(Drop)]
pub struct Line<const LONGEST: u32> {
    bytes: Vec<u8>,
}

impl<const LONGEST: u32> Model for Line<LONGEST> {
    ghost Value = { List ℕ };

    ghost view = { λ l. l.bytes.items };

    ghost invariant = { λ l. length l.bytes.items ≤ LONGEST + 2 };
}

impl<const LONGEST: u32> Line<LONGEST> {
    pub fn new(heap: Global) -> Self
        ensures { result ≡ [] }
    {
        Line {
            bytes: Vec::new(heap),
        }
    }

    // One byte more, if it is to be kept.
    pub fn push(&mut self, byte: u8) -> Result<(), AllocError>
        ensures ok { OnOk result (self.new ≡ take (LONGEST + 2) (self.old ++ byte ∷ [])) }
        ensures err { OnErr result (self.new ≡ self.old) }
    {
        if self.bytes.len() < LONGEST as usize + 2 {
            self.bytes.push(byte)?;
        }
        Ok(())
    }

    // More bytes, as many as are to be kept: the same as `push` of one after the other.
    pub fn extend(&mut self, bytes: &[u8]) -> Result<(), AllocError>
        ensures ok { OnOk result (self.new ≡ take (LONGEST + 2) (self.old ++ bytes.now)) }
        ensures err { OnErr result (self.new ≡ self.old) }
    {
        let room = 2 + LONGEST as usize - self.bytes.len();
        self.bytes
            .extend_from_slice(&bytes[..room.min(bytes.len())])
    }

    pub fn clear(&mut self)
        ensures { self.new ≡ [] }
    {
        self.bytes.clear();
    }

    // The text of the line, of printable ASCII characters; none of an empty line or a comment.
    #[tactic(auto, using(crate::proofs::Texts::printable_is_utf8))]
    pub fn text(&self) -> Result<Option<&str>, Misreading>
        ensures { MatchResult result
            (λ text. line_text LONGEST self.now ≡ Ok (option_copied text))
            (λ e. line_text LONGEST self.now ≡ Err e) }
    {
        let bytes = match self.bytes.as_slice() {
            [front @ .., b'\r'] => front,
            whole => whole,
        };
        if matches!(bytes.first(), None | Some(b'#')) {
            return Ok(None);
        }
        if bytes.len() > LONGEST as usize {
            return Err(Misreading::LineTooLong);
        }
        if !are_printable(bytes) {
            return Err(Misreading::NotText);
        }
        match std::str::from_utf8(bytes) {
            Ok(text) => Ok(Some(text)),
            Err(_) => Err(Misreading::NotText),
        }
    }
}

fn are_printable(bytes: &[u8]) -> bool
    ensures { result ≡ list_all is_printable bytes.now }
{
    bytes.iter().all(|byte| matches!(byte, b' '..=b'~'))
}
