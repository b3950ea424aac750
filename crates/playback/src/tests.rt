//! Small shifts in the short tower at 4093, where a key has 3 bytes; tags are those of the second calculation.
use super::{page, play};
use prime::{P4093, ShortTower};
use std::test::Fail;

fn played(rt: &HostRuntime, input: &[u8]) -> Result<String, Fail> {
    let lines = play::<ShortTower<P4093>>(rt.alloc(), input)?;
    Ok(page(rt.alloc(), &lines)?)
}

#[test]
fn inputs_of_a_wrong_size(rt: HostRuntime) -> Result<(), Fail> {
    assert_eq!(rt; played(&rt, &[])?.as_str(), "0 refused 3 0 0\nend 1\n");
    assert_eq!(rt;
        played(&rt, &[0xFF; 4])?.as_str(),
        "0 refused 3 0 0\nend 1\n"
    );
    assert_eq!(rt;
        played(&rt, &[0x00; 5])?.as_str(),
        "0 refused 6 0 0\nend 1\n"
    );
    assert_eq!(rt;
        played(&rt, &[0x00; 49152])?.as_str(),
        "0 refused 6 0 0\nend 1\n"
    );
    assert_eq!(rt;
        played(&rt, &[0x00; 49153])?.as_str(),
        "0 refused 3 0 0\nend 1\n"
    );
    Ok(())
}

#[test]
fn pads_and_keys_refused(rt: HostRuntime) -> Result<(), Fail> {
    let mut many = [0u8; 3080];
    many[1] = 0x30;
    many[2] = 0x05;
    many[3] = 0x04;
    many[4] = 0x01;
    assert_eq!(rt; played(&rt, &many)?.as_str(), "0 refused 6 0 0\nend 1\n");
    many[4] = 0x00;
    assert_eq!(rt; played(&rt, &many)?.as_str(), "1 refused 16 4 0\nend 1\n");
    assert_eq!(rt;
        played(&rt, &[0x00, 0x30, 0x05, 0, 1, 0, 0])?.as_str(),
        "0 refused 6 0 0\nend 1\n"
    );
    assert_eq!(rt;
        played(&rt, &[0xFF, 0xD0, 0x00, 0, 0, 0, 0])?.as_str(),
        "0 refused 6 0 0\nend 1\n"
    );
    assert_eq!(rt;
        played(&rt, &[0x00, 0x0F, 0xFD, 0, 1, 0, 0, 0])?.as_str(),
        "0 refused 1 1 1\nend 1\n"
    );
    assert_eq!(rt;
        played(&rt, &[0, 0, 0, 0, 1, 0, 0, 0])?.as_str(),
        "0 refused 7 1 0\nend 1\n"
    );
    assert_eq!(rt;
        played(&rt, &[0x00, 0x30, 0x05, 0, 1, 0, 0, 0])?.as_str(),
        "end 0\n"
    );
    Ok(())
}

#[test]
fn a_shift_with_a_torn_end(rt: HostRuntime) -> Result<(), Fail> {
    let input = [
        0x00, 0x30, 0x05, 0, 1, 0, 0, 0, 0x40, 0x05, 0x00, 0x05, 0x00, 0xFB, 0x4C, 0x80, 0x00,
        0x40, 0x05, 0x00, 0x05, 0x00, 0xFB, 0x4C, 0xC0, 0x05, 0x83, 0xFF, 0xC0,
    ];
    assert_eq!(rt;
        played(&rt, &input)?.as_str(),
        "1 pass 5\n2 refused 10 0 0\n3 refused 10 0 0\n4 rides 1\n5 cancelled\n6 refused 15 4 20\nend 6\n"
    );
    Ok(())
}
