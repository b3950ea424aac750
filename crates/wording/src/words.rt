//! Words as numbers and as bytes, and bytes as a word.
ghost use Rattle.std.specs.Prelude.{◌≡◌, ◌⊎◌, IfOk, IfErr, Ok, Err, alloc_error};
ghost use Rattle.std.specs.Char.{is_ascii_digit};
ghost use Rattle.std.specs.List.{list_all};
ghost use Rattle.std.specs.String.{string_bytes};
ghost use Rattle.wording.specs.Words.{number_of, small_number_of, bytes_of, hexadecimal_of};
ghost use Rattle.wording.specs.declared.misreadings.Misreading.TheVariants.{OutOfMemory};

use super::misreadings::Misreading;
use hex::FromHexError;
use std::alloc::{AllocError, Global};

// A decimal number of any length; one that does not fit 16 bits counts as 65535.
#[tactic(auto, using(crate::proofs::Numbers::number_read))]
pub fn number(word: &str) -> Result<u16, Misreading>
    ensures { result ≡ number_of word.now }
{
    if word.is_empty() || !are_digits(word) {
        return Err(Misreading::NotANumber);
    }
    Ok(word.parse().unwrap_or(u16::MAX))
}

fn are_digits(word: &str) -> bool
    ensures { result ≡ list_all is_ascii_digit word.now }
{
    word.bytes().all(|byte| byte.is_ascii_digit())
}

// As `number`, where one that does not fit 8 bits counts as 255.
pub fn small_number(word: &str) -> Result<u8, Misreading>
    ensures { result ≡ small_number_of word.now }
{
    Ok(u8::try_from(number(word)?).unwrap_or(u8::MAX))
}

// Bytes of two hexadecimal digits each, of either case; `-` stands for no bytes.
pub fn bytes(heap: Global, word: &str) -> Result<Vec<u8>, Misreading>
    ensures ok { IfOk result (λ bytes. bytes_of word.now ≡ Ok bytes.items) }
    ensures err { IfErr result (λ e. (e ≡ OutOfMemory alloc_error) ⊎ (bytes_of word.now ≡ Err e)) }
{
    match word {
        "-" => Ok(Vec::new(heap)),
        "" => Err(Misreading::NotBytes),
        _ => hex::decode(heap, word).map_err(|error| match error {
            FromHexError::OutOfMemory => Misreading::OutOfMemory(AllocError),
            _ => Misreading::NotBytes,
        }),
    }
}

// The word for bytes, in upper case.
pub fn hexadecimal(heap: Global, bytes: &[u8]) -> Result<String, AllocError>
    ensures { IfOk result (λ word. string_bytes word ≡ hexadecimal_of bytes.now) }
{
    if bytes.is_empty() {
        String::from_str(heap, "-")
    } else {
        hex::encode_upper(heap, bytes)
    }
}
