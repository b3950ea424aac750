//! The calculator: reads one command a line from standard input and writes one answer a line.
#![tactic(auto)]

mod coded;
mod commands;
mod forms;
mod problems;

use commands::{LONGEST_LINE, answer};
use std::io::{Read, Write};
use wording::Line;

fn main(rt: HostRuntime) -> anyhow::Result<()> {
    let heap = rt.alloc();
    let mut input = rt.stdin();
    let mut output = rt.stdout();
    let mut line: Line<LONGEST_LINE> = Line::new(heap);
    let mut chunk = [0u8; 4096];
    // Both programs of lines have this loop: shared, it would be a public function, and no contract can say what it reads and
    // writes. What came in one read is answered by one write, before the next read.
    for _ in 0..u64::MAX {
        let count = input.read(&mut chunk)?;
        if count == 0 {
            break;
        }
        let mut answers = String::new(heap);
        let mut pieces = chunk[..count].split(|byte| *byte == b'\n');
        if let Some(rest) = pieces.next() {
            line.extend(rest)?;
        }
        for start in pieces {
            answer(heap, &line, &mut answers)?;
            line.clear();
            if !start.is_empty() {
                line.extend(start)?;
            }
        }
        output.write_all(answers.as_bytes())?;
    }
    // the last line may lack its newline
    let mut last = String::new(heap);
    answer(heap, &line, &mut last)?;
    output.write_all(last.as_bytes())?;
    Ok(())
}
