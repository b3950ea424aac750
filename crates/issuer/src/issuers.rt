//! The issuer: draws the numbers in order, and keeps what became of each.
ghost use Rattle.std.specs.Prelude.{◌≡◌, Ok};
ghost use Rattle.tag.specs.Tickets.{then, key_answer};
ghost use Rattle.issuer.specs.Marks.{how_many, was_drawn, is_sealed, is_void};
ghost use Rattle.issuer.specs.Calls.{Made, draw_answer, after_draw, void_answer, after_void, seal_answer, after_seal, sealed_paper, SealedRight};
ghost use Rattle.issuer.specs.Histories.{NumberedInOrder, SealedOnce};

use super::marks::{Mark, count_marks, find_undrawn};
use super::stubs::Stub;
use super::writing::{pad_for, write_ticket};
use coding::CodedField;
use fault::{Fault, Refusal};
use tag::{Body, count_pads, read_key};

// An issuer over any coded field: its key, and the mark of each number.
#[derive(Drop)]
pub struct Issuer<F> {
    key: F,
    marks: [Mark; 1024],
}

impl<F: CodedField> Issuer<F> {
    // Makes an issuer with the encoded key, nothing drawn, in a place that is lent: a rule of the project, as a place stays as it
    // is where the key is refused.
    pub fn make(place: &mut Option<Issuer<F>>, key: &[u8]) -> Result<(), Fault>
        ensures answer { result ≡ then (key_answer F.arithmetic F.layout F.bits key.now) (λ _. Ok tt) }
        ensures place { Made F.arithmetic
            (key_answer F.arithmetic F.layout F.bits key.now) place.old place.new }
    {
        let key: F = read_key(key)?;
        *place = Some(Issuer {
            key,
            marks: [Mark::Undrawn; 1024],
        });
        Ok(())
    }

    // The lowest number that is not drawn, as a stub. Refused with 6 for the pads, and with 13 where all their numbers are drawn.
    #[tactic(auto, using(crate::proofs::Walking::lowest_first))]
    pub fn draw(&mut self, pads: &[u8]) -> Result<Stub, Fault>
        ensures answer { result ≡ draw_answer F.arithmetic F.layout F.bits self.old pads.now }
        ensures after { self.new ≡ after_draw F.arithmetic F.layout F.bits self.old pads.now }
        ensures stubs_are_numbered_in_order { NumberedInOrder F.arithmetic F.layout F.bits self.old result }
    {
        let count = count_pads::<F>(pads)?;
        let number = find_undrawn(&self.marks)
            .filter(|number| *number < count)
            .ok_or(Fault::of_call(Refusal::AllDrawn))?;
        self.marks[number] = Mark::Drawn;
        Ok(Stub::drawn(number as u16))
    }

    // Seals a stub: writes the ticket of its number first in a paper, and answers the ticket's length. A stub that is not in hand
    // here is refused with 14, and nothing is altered. With each other refusal, those of `pad_for` in their order, the number is
    // void and no byte is written.
    pub fn seal(
        &mut self,
        stub: Stub,
        route: u8,
        text: &[u8],
        pads: &[u8],
        paper: &mut [u8],
    ) -> Result<usize, Fault>
        ensures answer { result ≡ seal_answer F.arithmetic F.layout F.bits
            self.old stub.number route text.now pads.now paper.old }
        ensures after { self.new ≡ after_seal F.arithmetic F.layout F.bits
            self.old stub.number route text.now pads.now paper.old }
        ensures paper { paper.new ≡ sealed_paper F.arithmetic F.layout F.bits
            self.old stub.number route text.now pads.now paper.old }
        ensures sealed_ticket_is_right { SealedRight F.arithmetic F.layout F.bits
            self.old stub.number route text.now pads.now paper.new result }
        ensures no_number_is_sealed_twice { SealedOnce F.arithmetic F.layout F.bits
            self.old stub.number result }
    {
        let number = stub.number();
        stub.spend();
        let place = number as usize;
        self.in_hand(place)?;
        let body = Body {
            number,
            route,
            text,
        };
        // A refusal from here on leaves the number void.
        self.marks[place] = Mark::Void;
        let pad = pad_for(body, pads, paper.len())?;
        self.marks[place] = Mark::Sealed;
        write_ticket(self.key, pad, body, paper)
    }

    // Gives the number of a stub up. One that is not in hand here is refused with 14, and nothing is altered.
    pub fn void(&mut self, stub: Stub) -> Result<(), Fault>
        ensures answer { result ≡ void_answer self.old stub.number }
        ensures after { self.new ≡ after_void self.old stub.number }
    {
        let number = stub.number() as usize;
        stub.spend();
        self.in_hand(number)?;
        self.marks[number] = Mark::Void;
        Ok(())
    }

    // Whether a stub of the number was drawn here and is neither sealed nor void; if not, 14.
    fn in_hand(&self, number: usize) -> Result<(), Fault>
        ensures { result ≡ void_answer self.now number }
    {
        match self.marks.get(number) {
            Some(Mark::Drawn) => Ok(()),
            _ => Err(Fault::of_call(Refusal::UnknownStub)),
        }
    }

    // How many numbers were drawn, every stub that was given, how many are sealed and how many are void; a rule of the project
    // asks for the triple.
    pub fn tally(&self) -> (u16, u16, u16)
        ensures drawn { result.0 ≡ how_many was_drawn self.now.marks }
        ensures sealed { result.1 ≡ how_many is_sealed self.now.marks }
        ensures voided { result.2 ≡ how_many is_void self.now.marks }
    {
        count_marks(&self.marks)
    }
}
