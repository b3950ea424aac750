//! Checks, cancels and reports in the short tower at 4093, with the key (3, 5); the tags are those of the second calculation.
use super::Validator;
use fault::{Fault, Part, Refusal};
use prime::{P4093, ShortTower};
use std::process::Abort;
use std::test::Fail;

const KEY: [u8; 3] = [0x00, 0x30, 0x05];

// Tickets of one block each: under a zero pad, number 0, 1 and 3 of route 5, number 1023 of route 63.
const TICKET_0: [u8; 5] = [0x00, 0x05, 0x00, 0xFB, 0x4C];

const TICKET_1: [u8; 5] = [0x00, 0x45, 0x08, 0x5B, 0x88];

const TICKET_3: [u8; 5] = [0x00, 0xC5, 0x17, 0x1C, 0x00];

const TICKET_1023: [u8; 5] = [0xFF, 0xFF, 0xE7, 0x3B, 0x23];

fn refused<T>(refusal: Refusal) -> Result<T, Fault> {
    Err(Fault::of_call(refusal))
}

fn refused_at<T>(refusal: Refusal, part: Part, place: usize) -> Result<T, Fault> {
    Err(Fault::new(refusal, part, place))
}

fn made(rt: &impl Abort) -> Result<Validator<ShortTower<P4093>>, Fail> {
    let mut place = None;
    assert_eq!(rt; Validator::make(&mut place, &KEY), Ok(()));
    Ok(place.ok_or("no validator")?)
}

#[test]
fn keys_refused_and_the_place_left_alone(rt: HostRuntime) -> Result<(), Fail> {
    let mut place: Option<Validator<ShortTower<P4093>>> = None;
    assert_eq!(rt;
        Validator::make(&mut place, &[0x00, 0x30]),
        refused_at(Refusal::WrongSize, Part::Key, 0)
    );
    assert_eq!(rt;
        Validator::make(&mut place, &[0xFF, 0xD0, 0x00]),
        refused_at(Refusal::CoefficientOutOfRange, Part::Key, 0)
    );
    assert_eq!(rt;
        Validator::make(&mut place, &[0, 0, 0]),
        refused_at(Refusal::ZeroKey, Part::Key, 0)
    );
    assert!(rt; place.is_none());
    assert_eq!(rt; Validator::make(&mut place, &KEY), Ok(()));
    assert_eq!(rt;
        Validator::make(&mut place, &[0, 0, 0]),
        refused_at(Refusal::ZeroKey, Part::Key, 0)
    );
    let mut validator = place.ok_or("no validator")?;
    assert_eq!(rt; validator.check(&TICKET_0, &[0; 3]), Ok(5));
    Ok(())
}

#[test]
fn lengths_of_tickets(rt: HostRuntime) -> Result<(), Fail> {
    let mut validator = made(&rt)?;
    let mut longest = [0u8; 443];
    longest[1] = 5;
    longest[440] = 0xC0;
    longest[441] = 0xA9;
    longest[442] = 0x5B;
    let mut longer = [0u8; 444];
    longer[1] = 5;
    longer[441] = 0x53;
    longer[442] = 0x37;
    longer[443] = 0x8E;
    assert_eq!(rt;
        validator.check(&[0x00, 0x05, 0x00, 0xFB], &[0; 3]),
        refused(Refusal::WrongLength)
    );
    assert_eq!(rt;
        validator.check(&longer, &[0; 3]),
        refused(Refusal::WrongLength)
    );
    assert_eq!(rt; validator.check(&longest, &[0; 3]), Ok(5));
    assert_eq!(rt;
        validator.check(&TICKET_0, &[0; 3]),
        refused(Refusal::TicketRidden)
    );
    Ok(())
}

#[test]
fn counts_of_pads(rt: HostRuntime) -> Result<(), Fail> {
    let mut validator = made(&rt)?;
    assert_eq!(rt; validator.check(&TICKET_1, &[]), refused(Refusal::BadPads));
    assert_eq!(rt;
        validator.check(&TICKET_1, &[0; 7]),
        refused(Refusal::BadPads)
    );
    assert_eq!(rt;
        validator.check(&TICKET_1, &[0; 3075]),
        refused(Refusal::BadPads)
    );
    assert_eq!(rt;
        validator.check(&TICKET_1, &[0; 3]),
        refused(Refusal::NumberOutOfRange)
    );
    assert_eq!(rt; validator.check(&TICKET_1, &[0; 6]), Ok(5));
    assert_eq!(rt;
        validator.check(&TICKET_1023, &[0; 3069]),
        refused(Refusal::NumberOutOfRange)
    );
    assert_eq!(rt; validator.check(&TICKET_1023, &[0; 3072]), Ok(63));
    assert_eq!(rt; validator.report(63), Ok(1));
    Ok(())
}

#[test]
fn marks_and_counts(rt: HostRuntime) -> Result<(), Fail> {
    let mut validator = made(&rt)?;
    assert_eq!(rt; validator.check(&TICKET_0, &[0; 12]), Ok(5));
    assert_eq!(rt;
        validator.check(&TICKET_0, &[0; 12]),
        refused(Refusal::TicketRidden)
    );
    assert_eq!(rt; validator.cancel(0), refused(Refusal::TicketRidden));
    assert_eq!(rt; validator.cancel(1), Ok(()));
    assert_eq!(rt; validator.cancel(1), refused(Refusal::TicketCancelled));
    assert_eq!(rt;
        validator.check(&TICKET_1, &[0; 12]),
        refused(Refusal::TicketCancelled)
    );
    assert_eq!(rt; validator.cancel(1023), Ok(()));
    assert_eq!(rt; validator.cancel(1024), refused(Refusal::NumberOutOfRange));
    assert_eq!(rt; validator.report(5), Ok(1));
    assert_eq!(rt; validator.check(&TICKET_3, &[0; 12]), Ok(5));
    assert_eq!(rt; validator.report(5), Ok(2));
    assert_eq!(rt; validator.report(63), Ok(0));
    assert_eq!(rt; validator.report(64), refused(Refusal::RouteOutOfRange));
    assert_eq!(rt; validator.report(255), refused(Refusal::RouteOutOfRange));
    Ok(())
}

// Where two tests fail, the earlier one decides.
#[test]
fn order_of_the_tests(rt: HostRuntime) -> Result<(), Fail> {
    let mut validator = made(&rt)?;
    let out_of_range = [0x00, 0x45, 0xFF, 0xDF, 0xFF];
    let false_tag = [0x00, 0x45, 0x08, 0x5B, 0x89];
    let no_pad = [0x00, 0x00, 0x00, 0x00, 0x0F, 0xFD];
    assert_eq!(rt;
        validator.check(&[0xFF], &[]),
        refused(Refusal::WrongLength)
    );
    assert_eq!(rt;
        validator.check(&TICKET_1023, &[0; 4]),
        refused(Refusal::BadPads)
    );
    assert_eq!(rt;
        validator.check(&out_of_range, &no_pad),
        refused_at(Refusal::CoefficientOutOfRange, Part::Pad, 1)
    );
    assert_eq!(rt;
        validator.check(&out_of_range, &[0; 6]),
        refused_at(Refusal::CoefficientOutOfRange, Part::Tag, 0)
    );
    assert_eq!(rt;
        validator.check(&false_tag, &[0; 6]),
        refused(Refusal::FalseTag)
    );
    assert_eq!(rt; validator.cancel(1), Ok(()));
    assert_eq!(rt;
        validator.check(&TICKET_1, &[0; 3]),
        refused(Refusal::NumberOutOfRange)
    );
    assert_eq!(rt;
        validator.check(&out_of_range, &no_pad),
        refused(Refusal::TicketCancelled)
    );
    assert_eq!(rt; validator.check(&TICKET_0, &no_pad), Ok(5));
    assert_eq!(rt;
        validator.check(&TICKET_0, &[0xFF; 3]),
        refused(Refusal::TicketRidden)
    );
    Ok(())
}
