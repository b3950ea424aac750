//! Polynomials of eight coefficients by power of X, with X^8 = 2, modulo q. A coefficient is any u16, and means its
//! remainder by q. The vectors have a lane for each.
ghost use Rattle.std.specs.Prelude.{◌≡◌, ◌+◌, ◌^◌, ◌<◌, ◌≤◌, List, ℕ, map};
ghost use Rattle.std.specs.Simd.Lanes.{Each1, products, pair_sums};
ghost use Rattle.polynomial.specs.Folds.{folded};
ghost use Rattle.polynomial.specs.Polynomials.{eight_remainders};
ghost use Rattle.polynomial.specs.Product.{places, remainders, polynomial_plus, polynomial_opposite, polynomial_times, polynomial_x};

use prime::Modulus;
use std::simd::prelude::*;

// A pseudo-Mersenne modulus q: 3 below a power of two. It is a value, since the compiler turns folds by a number that it
// knows into multiplications: with functions that are generic in the modulus, a product takes half as long again.
#[derive(Clone, Copy)]
pub(crate) struct PseudoMersenne {
    q: u16,
    bits: u16,
    ghost from: { 6 ≤ bits },
    ghost to: { bits ≤ 12 },
    ghost power: { 2 ^ bits ≡ q + 3 },
}

impl PseudoMersenne {
    pub(crate) fn of<M: Modulus>() -> Self
        ensures { result.q ≡ M.Q }
    {
        PseudoMersenne {
            q: M::modulus(),
            bits: M::width(),
        }
    }

    pub(crate) fn remainders(self, f: [u16; 8]) -> [u16; 8]
        ensures { result ≡ eight_remainders self.q f }
    {
        (u16x8::from_array(f) % u16x8::splat(self.q)).to_array()
    }

    pub(crate) fn plus(self, f: [u16; 8], h: [u16; 8]) -> [u16; 8]
        ensures { let q = self.q in
            eight_remainders q result ≡ polynomial_plus q (eight_remainders q f) (eight_remainders q h) }
    {
        let sums = self.fold16(u16x8::from_array(f)) + self.fold16(u16x8::from_array(h));
        sums.to_array()
    }

    pub(crate) fn opposite(self, f: [u16; 8]) -> [u16; 8]
        ensures { let q = self.q in eight_remainders q result ≡ polynomial_opposite q (eight_remainders q f) }
    {
        // A multiple of q that no folded lane passes: it is above 2^14 at each width.
        let multiple = self.q << (15 - self.bits);
        let rest = u16x8::splat(multiple) - self.fold16(u16x8::from_array(f));
        rest.to_array()
    }

    // The polynomial with the signs at these powers turned. It promises nothing: what is found with it is tried.
    pub(crate) fn turned(self, f: [u16; 8], powers: [bool; 8]) -> [u16; 8] {
        let opposites = u16x8::from_array(self.opposite(f));
        mask16x8::from_array(powers)
            .select(opposites, u16x8::from_array(f))
            .to_array()
    }

    // The faster with the factor that stays the same over a loop, if one does, as `h`.
    pub(crate) fn times(self, f: [u16; 8], h: [u16; 8]) -> [u16; 8]
        ensures { let q = self.q in
            eight_remainders q result ≡ polynomial_times q (eight_remainders q f) (eight_remainders q h) }
    {
        self.reduce(self.product_sums(f, h)).to_array()
    }

    // The sum of the products of four pairs, reduced once. As in `times`, a factor that stays the same should be the second.
    pub(crate) fn sum_of_products(
        self,
        a: ([u16; 8], [u16; 8]),
        b: ([u16; 8], [u16; 8]),
        c: ([u16; 8], [u16; 8]),
        d: ([u16; 8], [u16; 8]),
    ) -> [u16; 8]
        ensures { let q = self.q in
            let product : List ℕ × List ℕ → List ℕ = λ p. polynomial_times q (eight_remainders q p.0) (eight_remainders q p.1) in
            eight_remainders q result ≡ polynomial_plus q (polynomial_plus q (product a) (product b)) (polynomial_plus q (product c) (product d)) }
    {
        // The lanes of four products do not wrap.
        let first = self.product_sums(a.0, a.1) + self.product_sums(b.0, b.1);
        let last = self.product_sums(c.0, c.1) + self.product_sums(d.0, d.1);
        self.reduce(first + last).to_array()
    }

    pub(crate) fn times_x(self, f: [u16; 8]) -> [u16; 8]
        ensures { let q = self.q in
            eight_remainders q result ≡ polynomial_times q polynomial_x (eight_remainders q f) }
    {
        let x = self.fold16(u16x8::from_array(f));
        // X times X^7 is 2, so the last lane comes first, doubled.
        x.shuffle(x + x, [15, 0, 1, 2, 3, 4, 5, 6]).to_array()
    }

    // Each lane's bits from `bits` on, three times, plus those below: the same remainder by q. The bound of the lanes is a
    // clause and no type: a struct would be opened at each of the six uses of the lanes, for four clauses.
    fn fold16(self, x: u16x8) -> u16x8
        ensures same { remainders self.q result ≡ eight_remainders self.q x }
        ensures small { Each1 (λ n. n < 8192) result }
    {
        let high = x >> u16x8::splat(self.bits);
        high + high + high + (x & u16x8::splat((1 << self.bits) - 1))
    }

    // The same lanes as `fold16`, from which the compiler learns no bound. So it keeps the mask of `pair_sums`
    // where it computes this factor ahead of a loop, and there the product is a third faster.
    fn fold16_by_product(self, x: u16x8) -> u16x8
        ensures same { remainders self.q result ≡ eight_remainders self.q x }
        ensures small { Each1 (λ n. n < 8192) result }
    {
        let high = x >> u16x8::splat(self.bits);
        x - high * u16x8::splat(self.q)
    }

    // As `fold16`, in wider lanes; the types of lanes share no trait that says what their operations give.
    fn fold32(self, x: u32x8) -> u32x8
        ensures same { remainders self.q result ≡ remainders self.q x }
        ensures is { result ≡ map (folded self.bits) x }
    {
        let high = x >> u32x8::splat(self.bits as u32);
        high + high + high + (x & u32x8::splat((1 << self.bits) - 1))
    }

    // Brings each lane, whatever it is, below 2^16: two folds do from width 10 on, and four below.
    fn reduce(self, s: u32x8) -> u16x8
        ensures { remainders self.q result ≡ remainders self.q s }
    {
        let twice = self.fold32(self.fold32(s));
        if self.bits >= 10 {
            return twice.cast::<u16>();
        }
        self.fold32(self.fold32(twice)).cast::<u16>()
    }

    // The places of a product, not reduced.
    fn product_sums(self, f: [u16; 8], h: [u16; 8]) -> u32x8
        ensures same { let q = self.q in
            remainders q result ≡ polynomial_times q (eight_remainders q f) (eight_remainders q h) }
        ensures small { Each1 (λ n. n < 1073741824) result }
    {
        sums_of_products(
            self.fold16(u16x8::from_array(f)),
            self.fold16_by_product(u16x8::from_array(h)),
        )
    }
}

// The places of the product, two products of each at a time.
fn sums_of_products(x: u16x8, h: u16x8) -> u32x8
    requires x_small { Each1 (λ n. n < 8192) x }
    requires h_small { Each1 (λ n. n < 8192) h }
    ensures is { result ≡ places x h }
    ensures small { Each1 (λ n. n < 1073741824) result }
{
    // Of the lanes of `d` and then `h`, eight in a row that begin at the place 8 - i are those of X^i·h. The four lists
    // of places are written out: a shuffle takes constants.
    let d = h + h;
    let s0 = pair_sums(
        x.swizzle([0, 1, 0, 1, 0, 1, 0, 1, 0, 1, 0, 1, 0, 1, 0, 1]),
        d.shuffle(
            h,
            [8, 7, 9, 8, 10, 9, 11, 10, 12, 11, 13, 12, 14, 13, 15, 14],
        ),
    );
    let s2 = pair_sums(
        x.swizzle([2, 3, 2, 3, 2, 3, 2, 3, 2, 3, 2, 3, 2, 3, 2, 3]),
        d.shuffle(h, [6, 5, 7, 6, 8, 7, 9, 8, 10, 9, 11, 10, 12, 11, 13, 12]),
    );
    let s4 = pair_sums(
        x.swizzle([4, 5, 4, 5, 4, 5, 4, 5, 4, 5, 4, 5, 4, 5, 4, 5]),
        d.shuffle(h, [4, 3, 5, 4, 6, 5, 7, 6, 8, 7, 9, 8, 10, 9, 11, 10]),
    );
    let s6 = pair_sums(
        x.swizzle([6, 7, 6, 7, 6, 7, 6, 7, 6, 7, 6, 7, 6, 7, 6, 7]),
        d.shuffle(h, [2, 1, 3, 2, 4, 3, 5, 4, 6, 5, 7, 6, 8, 7, 9, 8]),
    );
    (s0 + s2) + (s4 + s6)
}

// At lane k, the products of lanes 2k and of lanes 2k + 1, added.
fn pair_sums(a: u16x16, b: u16x16) -> u32x8
    requires a_small { Each1 (λ n. n < 16384) a }
    requires b_small { Each1 (λ n. n < 16384) b }
    ensures { result ≡ pair_sums (products a b) }
{
    // The mask changes no lane. It shows the compiler that an instruction for signed numbers serves,
    // which multiplies and adds pairs.
    let mask = u32x16::splat(0x7fff);
    let p = (a.cast::<u32>() & mask) * (b.cast::<u32>() & mask);
    p.swizzle([0, 2, 4, 6, 8, 10, 12, 14]) + p.swizzle([1, 3, 5, 7, 9, 11, 13, 15])
}
