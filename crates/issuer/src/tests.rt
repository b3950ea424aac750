//! The refusals of an issuer at their edges, and the ticket of docs/FORMATS.md.
use super::issuers::Issuer;
use fault::{Fault, Part, Refusal};
use prime::{P4093, ShortTower};
use std::process::Abort;
use std::test::Fail;

type Small = ShortTower<P4093>;

// The key (3, 5).
const KEY: [u8; 3] = [0x00, 0x30, 0x05];

// The pads (0, 0) of number 0 and (7, 11) of number 1.
const PADS: [u8; 6] = [0x00, 0x00, 0x00, 0x00, 0x70, 0x0B];

fn new_issuer(rt: &impl Abort) -> Result<Issuer<Small>, Fail> {
    let mut place = None;
    assert_eq!(rt; Issuer::make(&mut place, &KEY), Ok(()));
    Ok(place.ok_or("no issuer was made")?)
}

fn refused<T>(refusal: Refusal) -> Result<T, Fault> {
    Err(Fault::of_call(refusal))
}

fn bad_key(refusal: Refusal) -> Result<(), Fault> {
    Err(Fault::new(refusal, Part::Key, 0))
}

// Draws a stub and seals it.
fn sell(
    issuer: &mut Issuer<Small>,
    route: u8,
    text: &[u8],
    pads: &[u8],
    paper: &mut [u8],
) -> Result<usize, Fault> {
    let stub = issuer.draw(pads)?;
    issuer.seal(stub, route, text, pads, paper)
}

// Draws a stub and voids it; gives its number.
fn waste(issuer: &mut Issuer<Small>, pads: &[u8]) -> Result<usize, Fault> {
    let stub = issuer.draw(pads)?;
    let number = stub.number();
    issuer.void(stub)?;
    Ok(number as usize)
}

#[test]
fn ticket_first_in_its_paper(rt: HostRuntime) -> Result<(), Fail> {
    let mut issuer = new_issuer(&rt)?;
    assert_eq!(rt; waste(&mut issuer, &PADS), Ok(0));
    let mut paper = [0xAA; 10];
    assert_eq!(rt;
        sell(&mut issuer, 5, &[0x48, 0x69, 0x00], &PADS, &mut paper),
        Ok(8)
    );
    let expected: [u8; 10] = [0x00, 0x45, 0x48, 0x69, 0x00, 0xBB, 0x46, 0xFE, 0xAA, 0xAA];
    assert_eq!(rt; paper, expected);
    assert_eq!(rt; issuer.tally(), (2, 1, 1));
    assert_eq!(rt; waste(&mut issuer, &PADS), refused(Refusal::AllDrawn));
    assert_eq!(rt; issuer.tally(), (2, 1, 1));
    Ok(())
}

#[test]
fn pads_of_a_wrong_size(rt: HostRuntime) -> Result<(), Fail> {
    let mut issuer = new_issuer(&rt)?;
    assert_eq!(rt; waste(&mut issuer, &[]), refused(Refusal::BadPads));
    assert_eq!(rt; waste(&mut issuer, &PADS[0..4]), refused(Refusal::BadPads));
    assert_eq!(rt; waste(&mut issuer, &[0; 3075]), refused(Refusal::BadPads));
    assert_eq!(rt; issuer.tally(), (0, 0, 0));
    assert_eq!(rt; waste(&mut issuer, &PADS[0..3]), Ok(0));
    assert_eq!(rt; waste(&mut issuer, &PADS[0..3]), refused(Refusal::AllDrawn));
    assert_eq!(rt; waste(&mut issuer, &PADS), Ok(1));
    Ok(())
}

#[test]
fn room_route_and_text_at_their_edges(rt: HostRuntime) -> Result<(), Fail> {
    let pads = [0; 12];
    let mut issuer = new_issuer(&rt)?;
    let mut short = [0xAA; 442];
    assert_eq!(rt;
        sell(&mut issuer, 64, &[0; 439], &pads, &mut short),
        refused(Refusal::RouteOutOfRange)
    );
    assert_eq!(rt;
        sell(&mut issuer, 63, &[0; 439], &pads, &mut short),
        refused(Refusal::WrongLength)
    );
    assert_eq!(rt;
        sell(&mut issuer, 63, &[0; 438], &pads, &mut short),
        refused(Refusal::PaperTooShort)
    );
    assert_eq!(rt; short, [0xAA; 442]);
    assert_eq!(rt; issuer.tally(), (3, 0, 3));
    let mut paper = [0xAA; 443];
    assert_eq!(rt;
        sell(&mut issuer, 63, &[0; 438], &pads, &mut paper),
        Ok(443)
    );
    assert_eq!(rt; issuer.tally(), (4, 1, 3));
    Ok(())
}

#[test]
fn number_then_route_then_pad(rt: HostRuntime) -> Result<(), Fail> {
    let mut issuer = new_issuer(&rt)?;
    let mut paper = [0; 9];
    assert_eq!(rt; waste(&mut issuer, &PADS), Ok(0));
    let stub = issuer.draw(&PADS)?;
    assert_eq!(rt;
        issuer.seal(stub, 64, &[], &PADS[0..3], &mut paper),
        refused(Refusal::NumberOutOfRange)
    );
    let bad = [0, 0, 0, 0, 0, 0, 0xFF, 0xD0, 0x00];
    assert_eq!(rt;
        sell(&mut issuer, 63, &[], &bad, &mut paper),
        Err(Fault::new(Refusal::CoefficientOutOfRange, Part::Pad, 0))
    );
    assert_eq!(rt; issuer.tally(), (3, 0, 3));
    Ok(())
}

#[test]
fn stub_of_another_issuer(rt: HostRuntime) -> Result<(), Fail> {
    let mut one = new_issuer(&rt)?;
    let mut other = new_issuer(&rt)?;
    let mut paper = [0; 9];
    let stub = one.draw(&PADS)?;
    assert_eq!(rt;
        other.seal(stub, 64, &[], &[], &mut paper),
        refused(Refusal::UnknownStub)
    );
    assert_eq!(rt; other.tally(), (0, 0, 0));
    assert_eq!(rt; one.tally(), (1, 0, 0));
    assert_eq!(rt; waste(&mut other, &PADS), Ok(0));
    let second = one.draw(&PADS)?;
    assert_eq!(rt; other.void(second), refused(Refusal::UnknownStub));
    assert_eq!(rt; one.tally(), (2, 0, 0));
    assert_eq!(rt; other.tally(), (1, 0, 1));
    Ok(())
}

#[test]
fn refused_key_leaves_the_place(rt: HostRuntime) -> Result<(), Fail> {
    let mut issuer = new_issuer(&rt)?;
    assert_eq!(rt; waste(&mut issuer, &PADS), Ok(0));
    let mut place = Some(issuer);
    assert_eq!(rt;
        Issuer::make(&mut place, &[0x00, 0x30]),
        bad_key(Refusal::WrongSize)
    );
    assert_eq!(rt;
        Issuer::make(&mut place, &[0xFF, 0xD0, 0x00]),
        bad_key(Refusal::CoefficientOutOfRange)
    );
    assert_eq!(rt;
        Issuer::make(&mut place, &[0x00, 0x00, 0x00]),
        bad_key(Refusal::ZeroKey)
    );
    let kept = place.as_ref().ok_or("the issuer is gone")?;
    assert_eq!(rt; kept.tally(), (1, 0, 1));
    assert_eq!(rt; Issuer::make(&mut place, &KEY), Ok(()));
    let made = place.as_ref().ok_or("no issuer was made")?;
    assert_eq!(rt; made.tally(), (0, 0, 0));
    Ok(())
}
