//! Sixteen elements of a field whose modulus is below `2^31`, in the lanes of one vector.

ghost use Rattle.std.specs.Prelude.{◌≡◌, ◌++◌, ◌+◌, ◌-◌, ◌*◌, ◌/◌, ◌%◌, ◌<◌, ℕ, length, map};
ghost use Rattle.std.specs.Simd.Lanes.{zip2};
ghost use Rattle.p3_field.specs.LaneNumbers.{AreBelow};
ghost use Rattle.p3_field.specs.LaneLaws.{are_below-prop};

use crate::lane_residues::{
    differences, estimated_multiples, lane_products, loose_differences, quotient, sums,
};
use crate::packed::{PackedField, Products};
use crate::residue31::{Numbers, Residue31};
use crate::residue31_x8::Residue31X8;
use std::alloc::AllocError;
use std::marker::PhantomData;
use std::simd::prelude::*;

/// Sixteen elements of a field whose modulus is below `2^31`, by their numbers.
#[derive_where(Copy;)]
pub struct Residue31X16<N: Numbers> {
    lanes: u32x16,
    of: PhantomData<N>,
    ghost below: { AreBelow N.numbers.modulus lanes } by { are_below-prop N.numbers.modulus lanes },
    ghost sixteen: { length lanes ≡ 16 },
}

impl<N: Numbers> Clone for Residue31X16<N> {
    ghost use Rattle.std.specs.Prelude.{◌≡◌, ⊤};

    ghost is_clone = { λ x y. y ≡ x };

    ghost is_infallible = { λ _. ⊤ };

    fn clone(&self) -> Result<Residue31X16<N>, AllocError> {
        Ok(*self)
    }
}

impl<N: Numbers> Residue31X16<N> {
    // The lanes of `low`, and then those of `high`.
    #[inline(always)]
    fn joined(low: Residue31X8<N>, high: Residue31X8<N>) -> Residue31X16<N>
        ensures { result.lanes ≡ low.lanes ++ high.lanes }
    {
        Residue31X16 {
            lanes: low.lanes.shuffle(
                high.lanes,
                [0, 1, 2, 3, 4, 5, 6, 7, 8, 9, 10, 11, 12, 13, 14, 15],
            ),
            of: PhantomData,
        }
    }

    // The first eight lanes, and the others.
    #[inline(always)]
    fn halves(self) -> (Residue31X8<N>, Residue31X8<N>)
        ensures { result.0.lanes ++ result.1.lanes ≡ self.lanes }
    {
        (
            Residue31X8 {
                lanes: self.lanes.extract::<0, 8>(),
                of: PhantomData,
            },
            Residue31X8 {
                lanes: self.lanes.extract::<8, 8>(),
                of: PhantomData,
            },
        )
    }
}

impl<N: Numbers> PackedField for Residue31X16<N> {
    type Scalar = Residue31<N>;

    ghost use Rattle.p3_field.specs.LaneNumbers.{elements_of};
    ghost use Rattle.p3_field.specs.LaneLaws.{length-elements_of};
    ghost use Rattle.std.proofs.Common.{◌∙◌};

    const WIDTH: usize = 16;

    ghost WIDTH = { 16 };

    ghost lanes = { λ x. elements_of (λ n h. record { number = n; of = _; below = h }) x.lanes x.below };

    fn load(from: &[Residue31<N>]) -> Residue31X16<N> {
        let (first, rest) = from.split_at(8);
        Residue31X16::joined(Residue31X8::load(first), Residue31X8::load(rest))
    }

    fn store(self, to: &mut [Residue31<N>]) {
        let (low, high) = self.halves();
        let (first, rest) = to.split_at_mut(8);
        low.store(first);
        high.store(rest);
    }

    fn load_pairs(from: &[Residue31<N>]) -> (Residue31X16<N>, Residue31X16<N>) {
        let (first, rest) = from.split_at(16);
        let (low, second_low) = Residue31X8::load_pairs(first);
        let (high, second_high) = Residue31X8::load_pairs(rest);
        (
            Residue31X16::joined(low, high),
            Residue31X16::joined(second_low, second_high),
        )
    }

    fn store_pairs(self, second: Residue31X16<N>, to: &mut [Residue31<N>]) {
        let (low, high) = self.halves();
        let (second_low, second_high) = second.halves();
        let (first, rest) = to.split_at_mut(16);
        low.store_pairs(second_low, first);
        high.store_pairs(second_high, rest);
    }

    fn broadcast(scalar: Residue31<N>) -> Residue31X16<N> {
        Residue31X16 {
            lanes: u32x16::splat(scalar.number),
            of: PhantomData,
        }
    }

    fn add(self, other: Residue31X16<N>) -> Residue31X16<N> {
        Residue31X16 {
            lanes: sums::<N, 16>(self.lanes, other.lanes),
            of: PhantomData,
        }
    }

    fn sub(self, other: Residue31X16<N>) -> Residue31X16<N> {
        Residue31X16 {
            lanes: differences::<N, 16>(self.lanes, other.lanes),
            of: PhantomData,
        }
    }

    fn scaled(self, t: Residue31<N>, products: &mut Products) -> Residue31X16<N> {
        products.rise(16);
        Residue31X16 {
            lanes: multiples::<N>(self.lanes, t.number),
            of: PhantomData,
        }
    }

    // The product takes the difference as it is, so that one correction serves both.
    fn sub_scaled(
        self,
        other: Residue31X16<N>,
        t: Residue31<N>,
        products: &mut Products,
    ) -> Residue31X16<N> {
        products.rise(16);
        Residue31X16 {
            lanes: multiples::<N>(
                loose_differences::<N, 16>(self.lanes, other.lanes),
                t.number,
            ),
            of: PhantomData,
        }
    }

    fn multiplied(self, other: Residue31X16<N>, products: &mut Products) -> Residue31X16<N> {
        products.rise(16);
        Residue31X16 {
            lanes: lane_products::<N, 16>(self.lanes, other.lanes),
            of: PhantomData,
        }
    }

    ghost width_law = { λ x. length-elements_of _ x.lanes x.below ∙ x.sixteen };
}

// The upper half of the product of each lane and a factor, without widening the vector: a lane in an even place is
// the lower half of a word of 64 bits already, and one in an odd place is copied into the place before it.
#[inline(always)]
fn upper_halves(a: u32x16, factor: u64) -> u32x16
    requires { factor < 4294967296 }
    ensures { result ≡ map (λ x. x * factor / 4294967296) a }
{
    let low = u64x8::splat(4294967295);
    let factors = u64x8::splat(factor);
    let odd_lanes = a.swizzle([1, 1, 3, 3, 5, 5, 7, 7, 9, 9, 11, 11, 13, 13, 15, 15]);
    let even = (u64x8::from_le_bytes(a.to_le_bytes()) & low) * factors;
    let odd = (u64x8::from_le_bytes(odd_lanes.to_le_bytes()) & low) * factors;
    u32x16::from_le_bytes(even.to_le_bytes()).shuffle(
        u32x16::from_le_bytes(odd.to_le_bytes()),
        [1, 17, 3, 19, 5, 21, 7, 23, 9, 25, 11, 27, 13, 29, 15, 31],
    )
}

// The product of each lane, which may be any number, and t, below the modulus.
#[inline(always)]
fn multiples<N: Numbers>(a: u32x16, t: u32) -> u32x16
    requires { t < N.numbers.modulus }
    ensures value { result ≡ map (λ x. (x * t) % N.numbers.modulus) a }
    ensures below { AreBelow N.numbers.modulus result }
{
    let estimate = upper_halves(a, quotient::<N>(t));
    estimated_multiples::<N, 16>(a, t, estimate)
}
