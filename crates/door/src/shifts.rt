//! A whole shift: its input in, the text of its lines out.
ghost use Rattle.std.specs.Prelude.{◌≡◌, IfOk, string_bytes};
ghost use Rattle.playback.specs.Lines.{shift_lines};
ghost use Rattle.playback.specs.Texts.{page_text};
ghost use Rattle.door.specs.Codes.{HandsOver};
ghost use Rattle.door.specs.Forms.{polynomial};

use coding::CodedField;
use playback::{page, play};
use polynomial::PolynomialBasis;
use prime::P4093;
use std::alloc::{AllocError, Global};

// The answer for want of memory: C has one number for every answer.
const NO_MEMORY: u64 = u64::MAX;

// The text of all lines of a shift.
fn text_of<F: CodedField>(heap: Global, input: &[u8]) -> Result<String, AllocError>
    ensures { IfOk result (λ s. string_bytes s ≡
        page_text (shift_lines F.arithmetic F.layout F.bits
        input.now)) }
{
    let lines = play::<F>(heap, input)?;
    page(heap, &lines)
}

// Plays a shift over the polynomial basis at 4093 and answers how many bytes its text has; the text is written if it fits.
#[unsafe(no_mangle)]
pub extern "C" fn wz_shift(heap: Global, input: &[u8], out: &mut [u8]) -> u64
    ensures { HandsOver (page_text (shift_lines (polynomial 4093 1059 12).arithmetic
        (polynomial 4093 1059 12).layout (polynomial 4093 1059 12).width input.now)) out.old
        result out.new }
{
    match text_of::<PolynomialBasis<P4093>>(heap, input) {
        Ok(text) => {
            let bytes = text.as_bytes();
            let size = bytes.len();
            if size <= out.len() {
                out[0..size].copy_from_slice(bytes);
            }
            size as u64
        }
        Err(_) => NO_MEMORY,
    }
}
