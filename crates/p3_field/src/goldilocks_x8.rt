//! Eight elements of the field of the numbers below `2^64 - 2^32 + 1`, in the lanes of one vector.
//!
//! AVX2 compares words of 64 bits only as signed ones. So the compiler compares numbers with their highest bits
//! flipped: the unsigned order of two words is the signed order of the flipped ones. Where a number takes part in
//! comparisons that follow one another, it is kept flipped here, by a sum with `HIGHEST_BIT`, and the compiler sees it.

ghost use Rattle.std.specs.Prelude.{◌≡◌, ◌+◌, ◌-◌, ◌*◌, ◌%◌, ◌/◌, ◌<◌, ℕ, length, map, get_or};
ghost use Rattle.std.specs.Simd.Lanes.{zip2};
ghost use Rattle.p3_field.specs.LaneNumbers.{AreBelow};
ghost use Rattle.p3_field.specs.LaneLaws.{are_below-prop};
ghost use Rattle.p3_field.specs.Fields.{goldilocks_modulus};

use crate::goldilocks::WideGoldilocks;
use crate::packed::{PackedField, Products};
use std::alloc::AllocError;
use std::marker::PhantomData;
use std::simd::prelude::*;

// The largest number below the modulus.
const LARGEST: u64 = 18446744069414584320;

// `2^64` is this number to the modulus: to add it and let the word wrap takes the modulus away, and to subtract it
// adds the modulus.
const WRAP: u64 = 4294967295;

const HIGHEST_BIT: u64 = 9223372036854775808;

/// Eight elements, by their numbers.
#[derive(Copy)]
pub struct GoldilocksX8 {
    lanes: u64x8,
    ghost below: { AreBelow goldilocks_modulus lanes } by { are_below-prop goldilocks_modulus lanes },
    ghost eight: { length lanes ≡ 8 },
}

impl Clone for GoldilocksX8 {
    ghost use Rattle.std.specs.Prelude.{◌≡◌, ⊤};

    ghost is_clone = { λ x y. y ≡ x };

    ghost is_infallible = { λ _. ⊤ };

    fn clone(&self) -> Result<GoldilocksX8, AllocError> {
        Ok(*self)
    }
}

impl GoldilocksX8 {
    #[inline(always)]
    fn element(self, lane: usize) -> WideGoldilocks
        requires { lane < 8 }
        ensures { result.number ≡ get_or self.lanes lane 0 }
    {
        WideGoldilocks {
            number: self.lanes.to_array()[lane],
            of: PhantomData,
        }
    }
}

impl PackedField for GoldilocksX8 {
    type Scalar = WideGoldilocks;

    ghost use Rattle.p3_field.specs.LaneNumbers.{elements_of};
    ghost use Rattle.p3_field.specs.LaneLaws.{length-elements_of};
    ghost use Rattle.std.proofs.Common.{◌∙◌};

    const WIDTH: usize = 8;

    ghost WIDTH = { 8 };

    ghost lanes = { λ x. elements_of (λ n h. record { number = n; of = _; below = h }) x.lanes x.below };

    fn load(from: &[WideGoldilocks]) -> GoldilocksX8 {
        GoldilocksX8 {
            lanes: u64x8::from_array([
                from[0].number,
                from[1].number,
                from[2].number,
                from[3].number,
                from[4].number,
                from[5].number,
                from[6].number,
                from[7].number,
            ]),
        }
    }

    fn store(self, to: &mut [WideGoldilocks]) {
        to[0] = self.element(0);
        to[1] = self.element(1);
        to[2] = self.element(2);
        to[3] = self.element(3);
        to[4] = self.element(4);
        to[5] = self.element(5);
        to[6] = self.element(6);
        to[7] = self.element(7);
    }

    fn load_pairs(from: &[WideGoldilocks]) -> (GoldilocksX8, GoldilocksX8) {
        (
            GoldilocksX8 {
                lanes: u64x8::from_array([
                    from[0].number,
                    from[2].number,
                    from[4].number,
                    from[6].number,
                    from[8].number,
                    from[10].number,
                    from[12].number,
                    from[14].number,
                ]),
            },
            GoldilocksX8 {
                lanes: u64x8::from_array([
                    from[1].number,
                    from[3].number,
                    from[5].number,
                    from[7].number,
                    from[9].number,
                    from[11].number,
                    from[13].number,
                    from[15].number,
                ]),
            },
        )
    }

    fn store_pairs(self, second: GoldilocksX8, to: &mut [WideGoldilocks]) {
        to[0] = self.element(0);
        to[1] = second.element(0);
        to[2] = self.element(1);
        to[3] = second.element(1);
        to[4] = self.element(2);
        to[5] = second.element(2);
        to[6] = self.element(3);
        to[7] = second.element(3);
        to[8] = self.element(4);
        to[9] = second.element(4);
        to[10] = self.element(5);
        to[11] = second.element(5);
        to[12] = self.element(6);
        to[13] = second.element(6);
        to[14] = self.element(7);
        to[15] = second.element(7);
    }

    fn broadcast(scalar: WideGoldilocks) -> GoldilocksX8 {
        GoldilocksX8 {
            lanes: u64x8::splat(scalar.number),
        }
    }

    fn add(self, other: GoldilocksX8) -> GoldilocksX8 {
        GoldilocksX8 {
            lanes: sums(self.lanes, other.lanes),
        }
    }

    fn sub(self, other: GoldilocksX8) -> GoldilocksX8 {
        GoldilocksX8 {
            lanes: differences(self.lanes, other.lanes),
        }
    }

    fn scaled(self, t: WideGoldilocks, products: &mut Products) -> GoldilocksX8 {
        products.rise(8);
        GoldilocksX8 {
            lanes: lane_products(self.lanes, u64x8::splat(t.number)),
        }
    }

    fn multiplied(self, other: GoldilocksX8, products: &mut Products) -> GoldilocksX8 {
        products.rise(8);
        GoldilocksX8 {
            lanes: lane_products(self.lanes, other.lanes),
        }
    }

    ghost width_law = { λ x. length-elements_of _ x.lanes x.below ∙ x.eight };
}

// The sum of each two lanes below the modulus. The modulus is taken away; where that leaves a negative number, it is
// a word above `a`, and the modulus is added again.
#[inline(always)]
fn sums(a: u64x8, b: u64x8) -> u64x8
    requires first { AreBelow goldilocks_modulus a }
    requires second { AreBelow goldilocks_modulus b }
    ensures { result ≡ zip2 (λ x y. (x + y) % goldilocks_modulus) a b }
{
    let less = a + (b + u64x8::splat(WRAP));
    let negative = less.simd_gt(a);
    less - negative.select(u64x8::splat(WRAP), u64x8::splat(0))
}

// The difference of each two lanes below the modulus.
#[inline(always)]
fn differences(a: u64x8, b: u64x8) -> u64x8
    requires first { AreBelow goldilocks_modulus a }
    requires second { AreBelow goldilocks_modulus b }
    ensures { result ≡ zip2 (λ x y. (x + (goldilocks_modulus - y)) % goldilocks_modulus) a b }
{
    let negative = b.simd_gt(a);
    (a - b) - negative.select(u64x8::splat(WRAP), u64x8::splat(0))
}

// The lower and the upper digits of the product of each two lanes.
#[inline(always)]
fn wide_products(x: u64x8, t: u64x8) -> (u64x8, u64x8)
    ensures low { result.0 ≡ zip2 (λ a b. (a * b) % 18446744073709551616) x t }
    ensures high { result.1 ≡ zip2 (λ a b. a * b / 18446744073709551616) x t }
{
    let mask = u64x8::splat(4294967295);
    let half = u64x8::splat(32);
    let x_low = x & mask;
    let x_high = x >> half;
    let t_low = t & mask;
    let t_high = t >> half;
    let low = x_low * t_low;
    let first = x_high * t_low + (low >> half);
    let second = x_low * t_high + (first & mask);
    (
        (low & mask) + (second << half),
        x_high * t_high + (first >> half) + (second >> half),
    )
}

// The remainder of each number of two words: `2^64` is `2^32 - 1` to the modulus, and `2^96` is minus one. So it is
// that of `low + lower * (2^32 - 1) - upper`, for the halves of `high`. This is below twice the modulus. So `WRAP` is
// added to it, and taken away again where the word does not wrap: one correction does for both, a carry and a number
// above the modulus. With `WRAP`, the last two terms together are not negative. The whole still may be: without `WRAP`
// it is then a word above `LARGEST`.
#[inline(always)]
fn reduced(low: u64x8, high: u64x8) -> u64x8
    ensures { result ≡ zip2 (λ l h. (l + h * 18446744073709551616) % goldilocks_modulus) low high }
{
    let highest = u64x8::splat(HIGHEST_BIT);
    let mask = u64x8::splat(4294967295);
    let zero = u64x8::splat(0);
    let half = u64x8::splat(32);
    let multiple = (high << half) + (mask - (high & mask));
    let flipped = (multiple + highest) - (high >> half);
    let sum = low + flipped;
    let wrapped = (flipped + highest).simd_gt(sum + highest);
    let less = sum - wrapped.select(zero, mask);
    let negative = (less + highest).simd_gt(u64x8::splat(LARGEST));
    (less - negative.select(mask, zero)) + highest
}

// The product of each two lanes.
#[inline(always)]
fn lane_products(x: u64x8, t: u64x8) -> u64x8
    ensures { result ≡ zip2 (λ a b. (a * b) % goldilocks_modulus) x t }
{
    let (low, high) = wide_products(x, t);
    reduced(low, high)
}
