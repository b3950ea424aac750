//! The examples of docs/FORMATS.md, worked by hand.
use super::{Reader, Record};
use fault::{Fault, Part, Refusal};

// What is read where the tape ends in a record that begins at a place.
fn torn(place: usize) -> Result<Option<Record<'static>>, Fault> {
    Err(Fault::new(Refusal::TornTape, Part::Tape, place))
}

// What is read where no record begins with the bytes at a place.
fn bad(place: usize) -> Result<Option<Record<'static>>, Fault> {
    Err(Fault::new(Refusal::BadRecord, Part::Tape, place))
}

#[test]
fn check_cancel_and_report_in_a_row(rt: HostRuntime) {
    let tape = [
        0x40, 0x08, 0x00, 0x45, 0x48, 0x69, 0x00, 0xBB, 0x46, 0xFE, 0x80, 0x01, 0xC0, 0x05,
    ];
    let mut reader = Reader::new(&tape);
    assert_eq!(rt;
        reader.next(),
        Ok(Some(Record::Check(&[0x00, 0x45, 0x48, 0x69, 0x00, 0xBB, 0x46, 0xFE],))),
    );
    assert_eq!(rt; reader.next(), Ok(Some(Record::Cancel(1))));
    assert_eq!(rt; reader.next(), Ok(Some(Record::Report(5))));
    assert_eq!(rt; reader.next(), Ok(None));
    assert_eq!(rt; reader.next(), Ok(None));
}

#[test]
fn no_bytes(rt: HostRuntime) {
    assert_eq!(rt; Reader::new(&[]).next(), Ok(None));
    let mut reader = Reader::new(&[0x40, 0x00]);
    assert_eq!(rt; reader.next(), Ok(Some(Record::Check(&[]))));
    assert_eq!(rt; reader.next(), Ok(None));
}

#[test]
fn torn_in_the_head(rt: HostRuntime) {
    let mut reader = Reader::new(&[0xC0, 0x05, 0x40]);
    assert_eq!(rt; reader.next(), Ok(Some(Record::Report(5))));
    assert_eq!(rt; reader.next(), torn(2));
    assert_eq!(rt; reader.next(), torn(2));
}

#[test]
fn torn_in_the_ticket(rt: HostRuntime) {
    assert_eq!(rt; Reader::new(&[0x40, 0x03, 0xAA, 0xBB]).next(), torn(0));
    assert_eq!(rt; Reader::new(&[0x7F, 0xFF]).next(), torn(0));
}

#[test]
fn largest_number_and_the_next(rt: HostRuntime) {
    let mut reader = Reader::new(&[0x83, 0xFF, 0x84, 0x00]);
    assert_eq!(rt; reader.next(), Ok(Some(Record::Cancel(1023))));
    assert_eq!(rt; reader.next(), bad(2));
    assert_eq!(rt; Reader::new(&[0xA0, 0x00]).next(), bad(0));
}

#[test]
fn largest_route_and_the_next(rt: HostRuntime) {
    let mut reader = Reader::new(&[0xC0, 0x3F, 0xC0, 0x40]);
    assert_eq!(rt; reader.next(), Ok(Some(Record::Report(63))));
    assert_eq!(rt; reader.next(), bad(2));
    assert_eq!(rt; Reader::new(&[0xE0, 0x00]).next(), bad(0));
}

#[test]
fn no_kind(rt: HostRuntime) {
    assert_eq!(rt; Reader::new(&[0x00, 0x05]).next(), bad(0));
    assert_eq!(rt; Reader::new(&[0x3F, 0xFF]).next(), bad(0));
}
