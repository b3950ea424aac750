//! Plays a validator's shift: key, pads and tape from standard input, one line for each record to standard output.
#![tactic(auto)]

use playback::{LONGEST_INPUT, page, play};
use polynomial::PolynomialBasis;
use prime::P4093;
use std::io::{Read, Write};

fn main(rt: HostRuntime) -> anyhow::Result<()> {
    let heap = rt.alloc();
    let mut bytes = Vec::new(heap);
    let mut input = rt.stdin();
    let mut chunk = [0u8; 4096];
    // Every read gives a byte at least, so that no input within the limit is cut off; of a longer one no more is read.
    for _ in 0..=LONGEST_INPUT {
        if bytes.len() > LONGEST_INPUT {
            break;
        }
        let count = input.read(&mut chunk)?;
        if count == 0 {
            break;
        }
        bytes.extend_from_slice(&chunk[..count])?;
    }
    let lines = play::<PolynomialBasis<P4093>>(heap, &bytes)?;
    let text = page(heap, &lines)?;
    rt.stdout().write_all(text.as_bytes())?;
    Ok(())
}
