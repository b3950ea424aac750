//! Numbers of so many bits, read from bytes and written to them, most significant bit first.
ghost use Rattle.std.specs.Prelude.{◌≡◌, ℕ, ◌+◌, ◌*◌, ◌^◌, ◌<◌, ◌≤◌, length, slice_index};
ghost use Rattle.coding.specs.Bits.{bit_at, bits_from, regrouped};

// The byte at a place, and 0 past the end.
fn byte(bytes: &[u8], place: usize) -> u8
    ensures { result ≡ slice_index bytes.now place }
{
    bytes.get(place).copied().unwrap_or(0)
}

// Three bytes from a place on, as one number. Where all three are there, they are read after one test; by sums and not by
// `from_be_bytes`, which the compiler turns into exchanges of bytes: a short tag then takes a fifth more time.
fn window(bytes: &[u8], first: usize) -> u32
    requires { first < 2 ^ 60 }
    ensures { result ≡ slice_index bytes.now first * 65536
        + slice_index bytes.now (first + 1) * 256
        + slice_index bytes.now (first + 2) }
{
    match bytes.get(first + 2) {
        Some(last) => bytes[first] as u32 * 65536 + bytes[first + 1] as u32 * 256 + *last as u32,
        None => {
            byte(bytes, first) as u32 * 65536
                + byte(bytes, first + 1) as u32 * 256
                + byte(bytes, first + 2) as u32
        }
    }
}

// The number that `width` bits write, from bit `start` on; bits past the end are 0.
pub(crate) fn read_bits(bytes: &[u8], start: usize, width: u32) -> u16
    requires width_bound { width ≤ 16 }
    requires start_bound { start < 2 ^ 60 }
    ensures { result ≡ bits_from (bit_at 8 bytes.now) start width }
{
    let tail = 24 - (start % 8) as u32 - width;
    ((window(bytes, start / 8) >> tail) & ((1 << width) - 1)) as u16
}

// Numbers of `width` bits as one row of bits; past the last number every bit is 0.
#[derive(Clone, Copy)]
pub(crate) struct Digits<'a> {
    pub(crate) numbers: &'a [u16],
    pub(crate) width: u32,
    ghost width_from: { 0 < width },
    ghost width_to: { width ≤ 16 },
}

// Its methods are inlined: where the width is known, they divide by a constant, which takes half the time.
impl Digits<'_> {
    #[inline(always)]
    #[tactic(auto, unfolding(crate::specs::Bits::bit_at))]
    fn bit(self, k: usize) -> u8
        ensures { result ≡ bit_at self.entry.width self.entry.numbers.now k }
    {
        let tail = self.width - 1 - (k % self.width as usize) as u32;
        self.numbers
            .get(k / self.width as usize)
            .map_or(0, |number| ((*number >> tail) % 2) as u8)
    }

    // The eight bits of a byte.
    #[inline(always)]
    fn byte(self, place: usize) -> u8
        requires { place < 2 ^ 32 }
        ensures { result ≡ bits_from (bit_at self.entry.width self.entry.numbers.now) (8 * place) 8 }
    {
        (8 * place..8 * place + 8).fold(0, |byte, k| byte << 1 | self.bit(k))
    }

    // The bits, cut into bytes.
    #[inline(always)]
    #[tactic(auto, using(crate::proofs::Regrouping::is_regrouped))]
    pub(crate) fn write_to(self, out: &mut [u8])
        requires { length out.old < 2 ^ 32 }
        ensures { out.new ≡ regrouped self.entry.width 8 (length out.old) self.entry.numbers.now }
    {
        for (place, byte) in out.iter_mut().enumerate() {
            *byte = self.byte(place);
        }
    }
}
