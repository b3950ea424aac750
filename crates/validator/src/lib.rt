//! A validator of tickets: which numbers have ridden or are cancelled, and the rides of each route.
#![tactic(auto)]

ghost use Rattle.std.specs.Prelude.{◌≡◌, ◌<◌, IfOk};
ghost use Rattle.tag.specs.Tickets.{key_answer};
ghost use Rattle.validator.specs.Calls.{next_mark_of, done, blank, IsBlankWith, Placed, number_answer, check_answer, cancel_answer, report_answer, after, check as check_of, cancel as cancel_of};
ghost use Rattle.validator.specs.Shifts.{ReportsItsRides};

use coding::{CodedField, encoded_size};
use fault::{Fault, Refusal};
use tag::{Body, check_ticket, count_pads, read_key};

#[cfg(test)]
mod tests;

// What is known of a ticket number.
#[derive(Clone, Copy, Debug, PartialEq, Eq)]
pub enum Mark {
    Blank,
    Ridden,
    Cancelled,
}

// What happens to a ticket number.
#[derive(Clone, Copy, Debug, PartialEq, Eq)]
pub enum Event {
    Check,
    Cancel,
}

// The mark of each number 0 to 1023 and the rides of each route 0 to 63.
#[derive(Drop)]
pub struct Validator<F> {
    key: F,
    marks: [Mark; 1024],
    counts: [u16; 64],
}

// The mark that an event gives a number, or why it gives none.
fn next_mark(mark: Mark, event: Event) -> Result<Mark, Fault>
    ensures { result ≡ next_mark_of mark event }
{
    match (mark, event) {
        (Mark::Blank, Event::Check) => Ok(Mark::Ridden),
        (Mark::Blank, Event::Cancel) => Ok(Mark::Cancelled),
        (Mark::Ridden, _) => Err(Fault::of_call(Refusal::TicketRidden)),
        (Mark::Cancelled, _) => Err(Fault::of_call(Refusal::TicketCancelled)),
    }
}

// The number of a ticket; its length is tested first (5), then the pads (6), then whether the number has one (8). The
// marks are asked between these tests and the others of a ticket, so they stand here too.
fn ticket_number<F: CodedField>(ticket: &[u8], pads: &[u8]) -> Result<usize, Fault>
    ensures answer { result ≡ number_answer F.arithmetic F.layout F.bits ticket.now pads.now }
    ensures below { IfOk result (λ n. n < 1024) }
{
    let end = ticket
        .len()
        .checked_sub(encoded_size::<F>())
        .ok_or(Fault::of_call(Refusal::WrongLength))?;
    let number = Body::open(&ticket[..end])?.number as usize;
    if number >= count_pads::<F>(pads)? {
        return Err(Fault::of_call(Refusal::NumberOutOfRange));
    }
    Ok(number)
}

impl<F: CodedField> Validator<F> {
    // A validator that got no call yet.
    fn blank(key: F) -> Validator<F>
        ensures { result ≡ blank key }
    {
        Validator {
            key,
            marks: [Mark::Blank; 1024],
            counts: [0; 64],
        }
    }

    // A blank validator with the encoded key.
    pub fn new(key: &[u8]) -> Result<Validator<F>, Fault>
        ensures { IsBlankWith F.arithmetic (key_answer F.arithmetic F.layout F.bits key.now) result }
    {
        Ok(Validator::blank(read_key(key)?))
    }

    // Makes a blank validator from an encoded key, in a place that is lent: a rule of the project, as a refusal leaves the place
    // alone.
    pub fn make(place: &mut Option<Validator<F>>, key: &[u8]) -> Result<(), Fault>
        ensures answer { result ≡ done (key_answer F.arithmetic F.layout F.bits key.now) }
        ensures place { Placed F.arithmetic F.layout F.bits
            (key_answer F.arithmetic F.layout F.bits key.now)
            place.old place.new }
    {
        *place = Some(Validator::new(key)?);
        Ok(())
    }

    // Lets a ticket ride: answers its route, marks its number and counts the ride. The tests, in order: 5, 6, 8, 9, 10, decoding
    // the pad, decoding the tag, 11.
    pub fn check(&mut self, ticket: &[u8], pads: &[u8]) -> Result<u8, Fault>
        ensures answer { result ≡ check_answer F.arithmetic F.layout F.bits self.old ticket.now pads.now }
        ensures state { self.new ≡ after F.arithmetic F.layout F.bits
            self.old (check_of ticket.now pads.now) }
    {
        let number = ticket_number::<F>(ticket, pads)?;
        let mark = next_mark(self.marks[number], Event::Check)?;
        let route = check_ticket(self.key, pads, ticket)?.route;
        self.marks[number] = mark;
        let count = &mut self.counts[route as usize];
        *count = count.saturating_add(1);
        Ok(route)
    }

    // Cancels a number that has not ridden: 8 for one over 1023, then 9, then 10.
    pub fn cancel(&mut self, number: u16) -> Result<(), Fault>
        ensures answer { result ≡ done (cancel_answer self.old number) }
        ensures state { self.new ≡ after F.arithmetic F.layout F.bits self.old (cancel_of number) }
    {
        let place = number as usize;
        let mark = *self
            .marks
            .get(place)
            .ok_or(Fault::of_call(Refusal::NumberOutOfRange))?;
        self.marks[place] = next_mark(mark, Event::Cancel)?;
        Ok(())
    }

    // The rides of a route; 17 for one over 63.
    pub fn report(&self, route: u8) -> Result<u16, Fault>
        ensures answer { result ≡ report_answer self.now route }
        ensures rides { ReportsItsRides F.arithmetic F.layout F.bits self.now route result }
    {
        self.counts
            .get(route as usize)
            .copied()
            .ok_or(Fault::of_call(Refusal::RouteOutOfRange))
    }
}
