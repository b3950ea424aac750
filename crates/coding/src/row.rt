//! As many numbers as a value has coefficients.
ghost use Rattle.std.specs.Prelude.{◌≡◌, ℕ, ◌<◌, ◌≤◌, List, take, length, slice_index};
ghost use Rattle.coding.specs.Bits.{regrouped};

use super::bits::read_bits;
use super::coded::CodedField;
use std::marker::Model;

// A number for each coefficient of a value, in fixed memory: calls that cannot fail use no heap. A vector of the crates
// for fixed room would be one crate more to stand on, and no shorter.
#[derive(Drop)]
pub(crate) struct Row {
    list: [u16; 64],
    count: usize,
}

impl Model for Row {
    ghost Value = { List ℕ };

    ghost view = { λ r. take r.count r.list };

    ghost invariant = { λ r. r.count ≤ 64 };
}

impl Row {
    // The numbers of each power.
    fn by_power<F: CodedField, N: Fn(usize) -> u16>(number: N) -> Row
        requires { (k : ℕ) → k < F.layout.count → N.pre number k }
        ensures length { length result ≡ F.layout.count }
        ensures each { (k : ℕ) → k < F.layout.count → N.post number k (slice_index result k) }
    {
        let count = F::count();
        let mut list = [0; 64];
        let row = &mut list[..count];
        for (power, item) in row.iter_mut().enumerate() {
            *item = number(power);
        }
        Row { list, count }
    }

    // The coefficients of a value.
    pub(crate) fn of<F: CodedField>(value: F) -> Row
        ensures { result ≡ F.layout.by_power (F.arithmetic.meaning value) }
    {
        Row::by_power::<F, _>(|power| value.coefficient(power))
    }

    // The bits of bytes, cut into numbers of `width` bits; bits past the bytes are 0.
    pub(crate) fn cut<F: CodedField>(bytes: &[u8], width: u32) -> Row
        requires { width ≤ 16 }
        ensures { result ≡ regrouped 8 width F.layout.count bytes.now }
    {
        Row::by_power::<F, _>(|power| read_bits(bytes, width as usize * power, width))
    }

    pub(crate) fn numbers(&self) -> &[u16]
        ensures { result.now ≡ self.now }
    {
        &self.list[..self.count]
    }
}
