//! Bodies: a ticket's number, route and text, in 2 to 440 bytes.
ghost use Rattle.std.specs.Prelude.{◌≡◌, length};
ghost use Rattle.tag.specs.Bodies.{body_answer, body_paper, opened, parts_of};
ghost use Rattle.tag.specs.Tickets.{Answers};

use fault::{Fault, Refusal};

// The longest body, in bytes, and the longest text in one.
pub const LONGEST_BODY: usize = 440;

pub const LONGEST_TEXT: usize = 438;

// What a body says; the text stands where it lies.
#[derive(Clone, Copy, Debug, PartialEq, Eq)]
pub struct Body<'a> {
    pub number: u16,
    pub route: u8,
    pub text: &'a [u8],
}

impl<'a> Body<'a> {
    // Writes the body at the front of a paper and answers its length. A number over 1023 is refused with 8, a route over 63
    // with 17, a text over 438 bytes with 5 and a paper that is too short with 12; then nothing is written.
    pub fn write(self, paper: &mut [u8]) -> Result<usize, Fault>
        ensures answer { result ≡ body_answer self.entry.number self.entry.route self.entry.text.now (length paper.old) }
        ensures bytes { paper.new ≡ body_paper self.entry.number self.entry.route self.entry.text.now paper.old }
    {
        if self.number >= 1024 {
            return Err(Fault::of_call(Refusal::NumberOutOfRange));
        }
        if self.route >= 64 {
            return Err(Fault::of_call(Refusal::RouteOutOfRange));
        }
        if self.text.len() > LONGEST_TEXT {
            return Err(Fault::of_call(Refusal::WrongLength));
        }
        let size = self.text.len() + 2;
        if paper.len() < size {
            return Err(Fault::of_call(Refusal::PaperTooShort));
        }
        let head = self.number * 64 + self.route as u16;
        paper[..2].copy_from_slice(&head.to_be_bytes());
        paper[2..size].copy_from_slice(self.text);
        Ok(size)
    }

    // Takes a body apart; one of fewer than 2 or more than 440 bytes is refused with 5. The name is that of `write`'s
    // other way, which `try_from` is not.
    pub fn open(bytes: &'a [u8]) -> Result<Body<'a>, Fault>
        ensures { Answers parts_of (opened bytes.now) result }
    {
        match bytes {
            [high, low, text @ ..] if text.len() <= LONGEST_TEXT => {
                let head = u16::from_be_bytes([*high, *low]);
                Ok(Body {
                    number: head / 64,
                    route: (head % 64) as u8,
                    text,
                })
            }
            _ => Err(Fault::of_call(Refusal::WrongLength)),
        }
    }
}
