//! Tags: sums of a body's blocks, weighed by powers of the key, plus a pad.
ghost use Rattle.std.specs.Prelude.{◌≡◌, ℕ, ◌*◌, ◌<◌, ◌≤◌, length};
ghost use Rattle.coding.specs.Encoding.{block_size_of};
ghost use Rattle.tag.specs.Tags.{absorbed as absorbed_of, all_absorbed, ArePowers, TagIsWeighedSum};
ghost use Rattle.tag.specs.KeyBound.{FewKeysFitTwoBodies};
ghost use Rattle.tag.specs.Tickets.{Answers, tag_answer, blocks_answer};

use super::bodies::LONGEST_BODY;
use coding::{CodedField, block_size, from_block};
use fault::{Fault, Refusal};

// Adds the value of a block and multiplies the sum by the key.
fn absorb<F: CodedField>(key: F, sum: F, block: &[u8]) -> F
    ensures { let meaning = F.arithmetic.meaning in
        meaning result ≡ absorbed_of F.arithmetic F.layout F.bits (meaning key) (meaning sum) block.now }
{
    sum.add(from_block(block)).mul(key)
}

// Takes in the blocks of some bytes one after the other; the last one may be short.
fn absorb_each<F: CodedField>(key: F, mut sum: F, bytes: &[u8]) -> F
    ensures { let meaning = F.arithmetic.meaning in
        meaning result ≡ all_absorbed F.arithmetic F.layout F.bits (meaning key) (meaning sum) bytes.now }
{
    for block in bytes.chunks(block_size::<F>()) {
        sum = absorb(key, sum, block);
    }
    sum
}

// A key and its powers up to the fourth.
#[derive(Drop)]
struct Powers<F: CodedField> {
    first: F,
    second: F,
    third: F,
    fourth: F,
    ghost are_powers: { let meaning = F.arithmetic.meaning in
        ArePowers F.arithmetic (meaning first) (meaning second) (meaning third) (meaning fourth) },
}

impl<F: CodedField> Powers<F> {
    fn new(key: F) -> Powers<F>
        ensures { result.first ≡ key }
    {
        let second = key.square();
        Powers {
            first: key,
            second,
            third: second.mul(key),
            fourth: second.square(),
        }
    }

    // Takes in a group of four blocks, the last of which may be short, as `absorb_each` does, but by one sum of products.
    fn absorb_four(&self, sum: F, group: &[u8]) -> F
        requires more_than_three { 3 * block_size_of F.bits F.layout.count < length group.now }
        requires at_most_four { length group.now ≤ 4 * block_size_of F.bits F.layout.count }
        ensures { let meaning = F.arithmetic.meaning in
            meaning result ≡ all_absorbed F.arithmetic F.layout F.bits (meaning self.now.first) (meaning sum) group.now }
    {
        let size = block_size::<F>();
        let (front, back) = group.split_at(2 * size);
        let (a, b) = front.split_at(size);
        let (c, d) = back.split_at(size);
        F::sum_of_products(
            &(sum.add(from_block(a)), self.fourth),
            &(from_block(b), self.third),
            &(from_block(c), self.second),
            &(from_block(d), self.first),
        )
    }
}

// Takes in as many groups of four blocks as a body has. Beside the sum stand the bytes that are left.
fn absorb_fours<F: CodedField>(key: F, body: &[u8]) -> (F, &[u8])
    ensures { let meaning = F.arithmetic.meaning in
        all_absorbed F.arithmetic F.layout F.bits (meaning key) (meaning result.0) result.1.now
        ≡ all_absorbed F.arithmetic F.layout F.bits (meaning key) F.arithmetic.zero body.now }
{
    let size = block_size::<F>();
    let mut sum = F::zero();
    if body.len() <= 3 * size {
        return (sum, body);
    }
    let powers = Powers::new(key);
    for group in body.chunks(4 * size) {
        if group.len() <= 3 * size {
            return (sum, group);
        }
        sum = powers.absorb_four(sum, group);
    }
    (sum, &[])
}

// How many blocks a body of that length has, without the length block; refused with 5 for no body's length.
pub fn count_blocks<F: CodedField>(length: usize) -> Result<usize, Fault>
    ensures { result ≡ blocks_answer F.arithmetic F.layout F.bits length }
{
    if !(2..=LONGEST_BODY).contains(&length) {
        return Err(Fault::of_call(Refusal::WrongLength));
    }
    Ok(length.div_ceil(block_size::<F>()))
}

// The tag of a body under a key and a pad; a body of fewer than 2 or more than 440 bytes is refused with 5.
pub fn make_tag<F: CodedField>(key: F, pad: F, body: &[u8]) -> Result<F, Fault>
    ensures answer { let meaning = F.arithmetic.meaning in
        Answers meaning (tag_answer F.arithmetic F.layout F.bits (meaning key) (meaning pad) body.now) result }
    ensures weighed_sum { TagIsWeighedSum F.arithmetic F.layout F.bits }
    ensures few_keys { FewKeysFitTwoBodies F.arithmetic F.layout F.bits }
{
    count_blocks::<F>(body.len())?;
    let (sum, rest) = absorb_fours(key, body);
    let sum = absorb_each(key, sum, rest);
    let length = (body.len() as u16).to_be_bytes();
    Ok(absorb(key, sum, &length).add(pad))
}
