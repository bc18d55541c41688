//! Eight elements of a field whose modulus is below `2^31`, in the lanes of one vector.

ghost use Rattle.std.specs.Prelude.{◌≡◌, ◌+◌, ◌-◌, ◌*◌, ◌/◌, ◌%◌, ◌<◌, ℕ, length, map, get_or};
ghost use Rattle.std.specs.Simd.Lanes.{zip2};
ghost use Rattle.p3_field.specs.LaneNumbers.{AreBelow};
ghost use Rattle.p3_field.specs.LaneLaws.{are_below-prop};

use crate::lane_residues::{
    differences, estimated_multiples, lane_products, loose_differences, quotient, sums,
};
use crate::packed::{PackedField, Products};
use crate::residue31::{Numbers, Residue31};
use std::alloc::AllocError;
use std::marker::PhantomData;
use std::simd::prelude::*;

/// Eight elements of a field whose modulus is below `2^31`, by their numbers.
#[derive_where(Copy;)]
pub struct Residue31X8<N: Numbers> {
    pub(crate) lanes: u32x8,
    pub(crate) of: PhantomData<N>,
    ghost below: { AreBelow N.numbers.modulus lanes } by { are_below-prop N.numbers.modulus lanes },
    ghost eight: { length lanes ≡ 8 },
}

impl<N: Numbers> Clone for Residue31X8<N> {
    ghost use Rattle.std.specs.Prelude.{◌≡◌, ⊤};

    ghost is_clone = { λ x y. y ≡ x };

    ghost is_infallible = { λ _. ⊤ };

    fn clone(&self) -> Result<Residue31X8<N>, AllocError> {
        Ok(*self)
    }
}

impl<N: Numbers> Residue31X8<N> {
    #[inline(always)]
    fn element(self, lane: usize) -> Residue31<N>
        requires { lane < 8 }
        ensures { result.number ≡ get_or self.lanes lane 0 }
    {
        Residue31 {
            number: self.lanes.to_array()[lane],
            of: PhantomData,
        }
    }
}

impl<N: Numbers> PackedField for Residue31X8<N> {
    type Scalar = Residue31<N>;

    ghost use Rattle.p3_field.specs.LaneNumbers.{elements_of};
    ghost use Rattle.p3_field.specs.LaneLaws.{length-elements_of};
    ghost use Rattle.std.proofs.Common.{◌∙◌};

    const WIDTH: usize = 8;

    ghost WIDTH = { 8 };

    ghost lanes = { λ x. elements_of (λ n h. record { number = n; of = _; below = h }) x.lanes x.below };

    fn load(from: &[Residue31<N>]) -> Residue31X8<N> {
        Residue31X8 {
            lanes: u32x8::from_array([
                from[0].number,
                from[1].number,
                from[2].number,
                from[3].number,
                from[4].number,
                from[5].number,
                from[6].number,
                from[7].number,
            ]),
            of: PhantomData,
        }
    }

    fn store(self, to: &mut [Residue31<N>]) {
        to[0] = self.element(0);
        to[1] = self.element(1);
        to[2] = self.element(2);
        to[3] = self.element(3);
        to[4] = self.element(4);
        to[5] = self.element(5);
        to[6] = self.element(6);
        to[7] = self.element(7);
    }

    fn load_pairs(from: &[Residue31<N>]) -> (Residue31X8<N>, Residue31X8<N>) {
        (
            Residue31X8 {
                lanes: u32x8::from_array([
                    from[0].number,
                    from[2].number,
                    from[4].number,
                    from[6].number,
                    from[8].number,
                    from[10].number,
                    from[12].number,
                    from[14].number,
                ]),
                of: PhantomData,
            },
            Residue31X8 {
                lanes: u32x8::from_array([
                    from[1].number,
                    from[3].number,
                    from[5].number,
                    from[7].number,
                    from[9].number,
                    from[11].number,
                    from[13].number,
                    from[15].number,
                ]),
                of: PhantomData,
            },
        )
    }

    fn store_pairs(self, second: Residue31X8<N>, to: &mut [Residue31<N>]) {
        to[0] = self.element(0);
        to[1] = second.element(0);
        to[2] = self.element(1);
        to[3] = second.element(1);
        to[4] = self.element(2);
        to[5] = second.element(2);
        to[6] = self.element(3);
        to[7] = second.element(3);
        to[8] = self.element(4);
        to[9] = second.element(4);
        to[10] = self.element(5);
        to[11] = second.element(5);
        to[12] = self.element(6);
        to[13] = second.element(6);
        to[14] = self.element(7);
        to[15] = second.element(7);
    }

    fn broadcast(scalar: Residue31<N>) -> Residue31X8<N> {
        Residue31X8 {
            lanes: u32x8::splat(scalar.number),
            of: PhantomData,
        }
    }

    fn add(self, other: Residue31X8<N>) -> Residue31X8<N> {
        Residue31X8 {
            lanes: sums::<N, 8>(self.lanes, other.lanes),
            of: PhantomData,
        }
    }

    fn sub(self, other: Residue31X8<N>) -> Residue31X8<N> {
        Residue31X8 {
            lanes: differences::<N, 8>(self.lanes, other.lanes),
            of: PhantomData,
        }
    }

    fn scaled(self, t: Residue31<N>, products: &mut Products) -> Residue31X8<N> {
        products.rise(8);
        Residue31X8 {
            lanes: multiples::<N>(self.lanes, t.number),
            of: PhantomData,
        }
    }

    // The product takes the difference as it is, so that one correction serves both.
    fn sub_scaled(
        self,
        other: Residue31X8<N>,
        t: Residue31<N>,
        products: &mut Products,
    ) -> Residue31X8<N> {
        products.rise(8);
        Residue31X8 {
            lanes: multiples::<N>(loose_differences::<N, 8>(self.lanes, other.lanes), t.number),
            of: PhantomData,
        }
    }

    fn multiplied(self, other: Residue31X8<N>, products: &mut Products) -> Residue31X8<N> {
        products.rise(8);
        Residue31X8 {
            lanes: lane_products::<N, 8>(self.lanes, other.lanes),
            of: PhantomData,
        }
    }

    ghost width_law = { λ x. length-elements_of _ x.lanes x.below ∙ x.eight };
}

// The upper half of the product of each lane and a factor, without widening the vector: a lane in an even place is
// the lower half of a word of 64 bits already, and one in an odd place is copied into the place before it.
#[inline(always)]
fn upper_halves(a: u32x8, factor: u64) -> u32x8
    requires { factor < 4294967296 }
    ensures { result ≡ map (λ x. x * factor / 4294967296) a }
{
    let low = u64x4::splat(4294967295);
    let factors = u64x4::splat(factor);
    let odd_lanes = a.swizzle([1, 1, 3, 3, 5, 5, 7, 7]);
    let even = (u64x4::from_le_bytes(a.to_le_bytes()) & low) * factors;
    let odd = (u64x4::from_le_bytes(odd_lanes.to_le_bytes()) & low) * factors;
    u32x8::from_le_bytes(even.to_le_bytes()).shuffle(
        u32x8::from_le_bytes(odd.to_le_bytes()),
        [1, 9, 3, 11, 5, 13, 7, 15],
    )
}

// The product of each lane, which may be any number, and t, below the modulus.
#[inline(always)]
fn multiples<N: Numbers>(a: u32x8, t: u32) -> u32x8
    requires { t < N.numbers.modulus }
    ensures value { result ≡ map (λ x. (x * t) % N.numbers.modulus) a }
    ensures below { AreBelow N.numbers.modulus result }
{
    let estimate = upper_halves(a, quotient::<N>(t));
    estimated_multiples::<N, 8>(a, t, estimate)
}
