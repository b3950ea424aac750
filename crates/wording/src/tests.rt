//! The notation of docs/CALCULATOR.md, with bytes of docs/FORMATS.md.
use super::{Line, Misreading, bytes, hexadecimal, number, small_number};
use std::alloc::Global;
use std::test::Fail;

// The ticket of number 1 and route 5 in the short tower at 4093.
const TICKET: [u8; 8] = [0x00, 0x45, 0x48, 0x69, 0x00, 0xBB, 0x46, 0xFE];

fn line_of(heap: Global, text: &[u8]) -> Result<Line<8>, Fail> {
    let mut line = Line::new(heap);
    for byte in text {
        line.push(*byte)?;
    }
    Ok(line)
}

#[test]
fn bytes_of_either_case(rt: HostRuntime) -> Result<(), Fail> {
    let heap = rt.alloc();
    assert_eq!(rt;
        bytes(heap, "0045486900BB46FE")?.as_slice(),
        TICKET.as_slice()
    );
    assert_eq!(rt;
        bytes(heap, "0045486900bb46fE")?.as_slice(),
        TICKET.as_slice()
    );
    assert!(rt; bytes(heap, "-")?.is_empty());
    assert_eq!(rt; bytes(heap, "").err(), Some(Misreading::NotBytes));
    assert_eq!(rt; bytes(heap, "004").err(), Some(Misreading::NotBytes));
    assert_eq!(rt; bytes(heap, "--").err(), Some(Misreading::NotBytes));
    Ok(())
}

#[test]
fn words_for_bytes(rt: HostRuntime) -> Result<(), Fail> {
    let heap = rt.alloc();
    assert_eq!(rt; hexadecimal(heap, &TICKET)?.as_str(), "0045486900BB46FE");
    assert_eq!(rt; hexadecimal(heap, &[])?.as_str(), "-");
    Ok(())
}

#[test]
fn numbers_of_any_length(rt: HostRuntime) {
    assert_eq!(rt; number("0007"), Ok(7));
    assert_eq!(rt; number("70000"), Ok(65535));
    assert_eq!(rt; number("+7"), Err(Misreading::NotANumber));
    assert_eq!(rt; small_number("63"), Ok(63));
    assert_eq!(rt; small_number("256"), Ok(255));
}

#[test]
fn lines_with_their_ends(rt: HostRuntime) -> Result<(), Fail> {
    let heap = rt.alloc();
    assert!(rt; line_of(heap, b"12345678\r")?.text() == Ok(Some("12345678")));
    assert!(rt; line_of(heap, b"123456789")?.text() == Err(Misreading::LineTooLong));
    assert!(rt; line_of(heap, b"1234567890\r")?.text() == Err(Misreading::LineTooLong));
    assert!(rt; line_of(heap, b"#\t")?.text() == Ok(None));
    assert!(rt; line_of(heap, b"\r")?.text() == Ok(None));
    assert!(rt; line_of(heap, b"add\t")?.text() == Err(Misreading::NotText));
    let mut line = line_of(heap, b"add")?;
    line.clear();
    assert!(rt; line.text() == Ok(None));
    Ok(())
}

#[test]
fn messages(rt: HostRuntime) -> Result<(), Fail> {
    let heap = rt.alloc();
    let text = format!(in heap; "{}, {}", Misreading::LineTooLong, Misreading::NotText)?;
    assert_eq!(rt; text.as_str(), "line too long, not text");
    let text = format!(in heap; "{}, {}", Misreading::NotANumber, Misreading::NotBytes)?;
    assert_eq!(rt; text.as_str(), "not a number, not bytes");
    Ok(())
}

#[test]
fn more_bytes_as_one_after_the_other(rt: HostRuntime) -> Result<(), Fail> {
    let heap = rt.alloc();
    let mut line: Line<8> = Line::new(heap);
    line.extend(b"prime")?;
    line.extend(b"")?;
    line.extend(b"-40")?;
    assert_eq!(rt; line.text()?, Some("prime-40"));
    line.extend(b"\r")?;
    assert_eq!(rt; line.text()?, Some("prime-40"));
    line.extend(b"93 neg 1")?;
    assert_eq!(rt; line.text(), Err(Misreading::LineTooLong));
    line.clear();
    line.extend(b"12345678\r and more")?;
    assert_eq!(rt; line.text(), Err(Misreading::LineTooLong));
    Ok(())
}
