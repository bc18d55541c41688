//! The field of the numbers below `2^64 - 2^32 + 1`, with packed values for two kinds of processors.
//!
//! Which packing is fast depends on the processor that a program is built for: `Goldilocks` has four lanes, one after
//! another, and is the faster one for x86-64 and x86-64-v2; `WideGoldilocks` has eight lanes in vectors, and is the
//! faster one for x86-64-v3 and x86-64-v4. The elements, their numbers and all laws are the same.

ghost use Rattle.std.specs.Prelude.{◌≡◌, ◌<◌, ◌≤◌, ◌+◌, ◌%◌, ℕ};
ghost use Rattle.p3_field.specs.Fields.{goldilocks_modulus};

use crate::euclid::inverse_modulo;
use crate::fields::{Field, FieldOps, Valued};
use crate::goldilocks_x8::GoldilocksX8;
use crate::lanes::Lanes;
use crate::packed::{Packable, PackedField, Products};
use crate::totals::{add_all, multiply_all};
use crate::two_adic::{CanonicalField, TwoAdicField};
use std::alloc::AllocError;
use std::fmt;
use std::iter::{Product, Sum};
use std::marker::PhantomData;
use std::ops::{Add, AddAssign, Mul, MulAssign, Neg, Sub, SubAssign};

const MODULUS: u64 = 18446744069414584321;

// One half, `(MODULUS + 1) / 2`.
const HALF: u64 = 9223372034707292161;

// `2^64` modulo the modulus, `2^32 - 1`.
const EPSILON: u64 = 4294967295;

/// The lanes of packed values of the field. Elements and what they compute do not depend on it.
pub trait GoldilocksPacking: Copy {
    /// Several elements, handled by one operation.
    type Packing: PackedField<Scalar = GoldilocksIn<Self>>;

    /// Whether lanes are better taken one after another than all at once, where rows change in place.
    const ONE_BY_ONE: bool;

    ghost some_law: { 1 ≤ Self.Packing.WIDTH };
}

/// Four lanes, one after another: `Lanes`.
#[derive(Clone, Copy, Debug)]
pub struct ScalarLanes;

/// Eight lanes in vectors of words of 64 bits.
#[derive(Clone, Copy, Debug)]
pub struct VectorLanes;

/// An integer modulo `2^64 - 2^32 + 1`, for programs that are built for x86-64 or x86-64-v2, as `rt` does by default.
pub type Goldilocks = GoldilocksIn<ScalarLanes>;

/// An integer modulo `2^64 - 2^32 + 1`, for programs that are built for processors with vectors of 256 or 512 bits,
/// x86-64-v3 and x86-64-v4. Elsewhere it answers the same, and is slower than `Goldilocks`.
pub type WideGoldilocks = GoldilocksIn<VectorLanes>;

/// An integer modulo `2^64 - 2^32 + 1`, by its number below the modulus. `P` names the lanes of its packed values.
#[derive_where(Copy, PartialEq, Eq, PartialOrd, Ord;)]
pub struct GoldilocksIn<P: Copy> {
    pub(crate) number: u64,
    #[derive_where(skip(EqHashOrd))]
    pub(crate) of: PhantomData<P>,
    ghost below: { number < goldilocks_modulus },
}

impl<P: Copy> Clone for GoldilocksIn<P> {
    ghost use Rattle.std.specs.Prelude.{◌≡◌, ⊤};

    ghost is_clone = { λ x y. y ≡ x };

    ghost is_infallible = { λ _. ⊤ };

    fn clone(&self) -> Result<GoldilocksIn<P>, AllocError> {
        Ok(*self)
    }
}

impl Goldilocks {
    /// Zero.
    pub const ZERO: Goldilocks = Goldilocks {
        number: 0,
        of: PhantomData,
    };

    /// One.
    pub const ONE: Goldilocks = Goldilocks {
        number: 1,
        of: PhantomData,
    };

    /// One plus one.
    pub const TWO: Goldilocks = Goldilocks {
        number: 2,
        of: PhantomData,
    };

    /// Minus one.
    pub const NEG_ONE: Goldilocks = Goldilocks {
        number: 18446744069414584320,
        of: PhantomData,
    };

    /// 7, which has an inverse.
    pub const GENERATOR: Goldilocks = Goldilocks {
        number: 7,
        of: PhantomData,
    };
}

impl<P: Copy> Add for GoldilocksIn<P> {
    ghost use Rattle.p3_field.specs.Residues.{IsSum};

    type Output = GoldilocksIn<P>;

    ghost add_gives = { λ a b r. IsSum goldilocks_modulus a.number b.number r.number };

    fn add(self, other: GoldilocksIn<P>) -> GoldilocksIn<P> {
        // The sum less the modulus, modulo `2^64`: that passes `2^64` where the sum reaches the modulus,
        // and only there.
        let reduced = self.number.wrapping_add(other.number + EPSILON);
        GoldilocksIn {
            number: if reduced < self.number {
                reduced
            } else {
                self.number + other.number
            },
            of: PhantomData,
        }
    }
}

impl<P: Copy> Sub for GoldilocksIn<P> {
    ghost use Rattle.p3_field.specs.Residues.{IsDifference};

    type Output = GoldilocksIn<P>;

    ghost sub_gives = { λ a b r. IsDifference goldilocks_modulus a.number b.number r.number };

    fn sub(self, other: GoldilocksIn<P>) -> GoldilocksIn<P> {
        GoldilocksIn {
            number: if self.number >= other.number {
                self.number - other.number
            } else {
                self.number + (MODULUS - other.number)
            },
            of: PhantomData,
        }
    }
}

impl<P: Copy> Mul for GoldilocksIn<P> {
    ghost use Rattle.p3_field.specs.Residues.{IsProduct};

    type Output = GoldilocksIn<P>;

    ghost mul_gives = { λ a b r. IsProduct goldilocks_modulus a.number b.number r.number };

    fn mul(self, other: GoldilocksIn<P>) -> GoldilocksIn<P> {
        GoldilocksIn {
            number: reduce(self.number as u128 * other.number as u128),
            of: PhantomData,
        }
    }
}

impl<P: Copy> Neg for GoldilocksIn<P> {
    ghost use Rattle.p3_field.specs.Residues.{IsNegative};

    type Output = GoldilocksIn<P>;

    ghost neg_gives = { λ a r. IsNegative goldilocks_modulus a.number r.number };

    fn neg(self) -> GoldilocksIn<P> {
        GoldilocksIn {
            number: if self.number == 0 {
                0
            } else {
                MODULUS - self.number
            },
            of: PhantomData,
        }
    }
}

impl<P: Copy> AddAssign for GoldilocksIn<P> {
    ghost use Rattle.p3_field.specs.Residues.{IsSum};

    ghost add_assign_gives = { λ a b r. IsSum goldilocks_modulus a.number b.number r.number };

    fn add_assign(&mut self, other: GoldilocksIn<P>) {
        *self = *self + other;
    }
}

impl<P: Copy> SubAssign for GoldilocksIn<P> {
    ghost use Rattle.p3_field.specs.Residues.{IsDifference};

    ghost sub_assign_gives = { λ a b r. IsDifference goldilocks_modulus a.number b.number r.number };

    fn sub_assign(&mut self, other: GoldilocksIn<P>) {
        *self = *self - other;
    }
}

impl<P: Copy> MulAssign for GoldilocksIn<P> {
    ghost use Rattle.p3_field.specs.Residues.{IsProduct};

    ghost mul_assign_gives = { λ a b r. IsProduct goldilocks_modulus a.number b.number r.number };

    fn mul_assign(&mut self, other: GoldilocksIn<P>) {
        *self = *self * other;
    }
}

impl<P: Copy> Sum<GoldilocksIn<P>> for GoldilocksIn<P> {
    ghost use Rattle.std.specs.Prelude.{map};
    ghost use Rattle.p3_field.specs.Fields.{goldilocks_ring};
    ghost use Rattle.p3_field.specs.Residues.{residue_at};
    ghost use Rattle.p3_field.specs.Ring.{sum_of};

    ghost sum_gives = { λ xs r. residue_at goldilocks_modulus r.number r.below
        ≡ sum_of goldilocks_ring (map (λ x. residue_at goldilocks_modulus x.number x.below) xs) };

    fn sum<I: Iterator<Item = GoldilocksIn<P>>>(iter: I) -> GoldilocksIn<P> {
        add_all(
            GoldilocksIn {
                number: 0,
                of: PhantomData,
            },
            iter,
        )
    }
}

impl<P: Copy> Product<GoldilocksIn<P>> for GoldilocksIn<P> {
    ghost use Rattle.std.specs.Prelude.{map};
    ghost use Rattle.p3_field.specs.Fields.{goldilocks_ring};
    ghost use Rattle.p3_field.specs.Residues.{residue_at};
    ghost use Rattle.p3_field.specs.Ring.{product_of};

    ghost product_gives = { λ xs r. residue_at goldilocks_modulus r.number r.below
        ≡ product_of goldilocks_ring (map (λ x. residue_at goldilocks_modulus x.number x.below) xs) };

    fn product<I: Iterator<Item = GoldilocksIn<P>>>(iter: I) -> GoldilocksIn<P> {
        multiply_all(
            GoldilocksIn {
                number: 1,
                of: PhantomData,
            },
            iter,
        )
    }
}

/// The element of this number.
impl<P: Copy> From<u8> for GoldilocksIn<P> {
    ghost from_gives = { λ n r. r.number ≡ n };

    fn from(n: u8) -> GoldilocksIn<P> {
        GoldilocksIn {
            number: n as u64,
            of: PhantomData,
        }
    }
}

/// The element of this number.
impl<P: Copy> From<u16> for GoldilocksIn<P> {
    ghost from_gives = { λ n r. r.number ≡ n };

    fn from(n: u16) -> GoldilocksIn<P> {
        GoldilocksIn {
            number: n as u64,
            of: PhantomData,
        }
    }
}

/// The element of this number.
impl<P: Copy> From<u32> for GoldilocksIn<P> {
    ghost from_gives = { λ n r. r.number ≡ n };

    fn from(n: u32) -> GoldilocksIn<P> {
        GoldilocksIn {
            number: n as u64,
            of: PhantomData,
        }
    }
}

/// The number in decimal digits, with the options of a format as for a `u64`.
impl<P: Copy> fmt::Display for GoldilocksIn<P> {
    ghost use Rattle.std.specs.Prelude.{Some};
    ghost use Rattle.std.specs.Fmt.{decimal, styled_decimal};

    ghost output = { λ x. Some (decimal x.number) };

    ghost styled_output = { λ x s. Some (styled_decimal s x.number) };

    fn fmt<W: fmt::Write>(&self, f: &mut fmt::Formatter<W>) -> fmt::Result {
        fmt::Display::fmt(&self.number, f)
    }
}

/// The number in decimal digits. Clauses say so of a formatter without options.
impl<P: Copy> fmt::Debug for GoldilocksIn<P> {
    ghost use Rattle.std.specs.Prelude.{Some};
    ghost use Rattle.std.specs.Fmt.{decimal};

    ghost debug_output = { λ x. Some (decimal x.number) };

    fn fmt<W: fmt::Write>(&self, f: &mut fmt::Formatter<W>) -> fmt::Result {
        fmt::Debug::fmt(&self.number, f)
    }
}

// The remainder by the modulus, to which `2^64` is `2^32 - 1` and `2^96` is minus one.
fn reduce(x: u128) -> u64
    ensures { result ≡ x % goldilocks_modulus }
{
    let low = (x % (1 << 64)) as u64;
    let high = (x >> 64) as u64;
    let middle = high % (1 << 32);
    let top = high >> 32;
    add_and_reduce(subtract(low, top), middle * EPSILON)
}

// The difference by the modulus. It is below zero for fewer than one product in 2^32.
#[inline(always)]
fn subtract(low: u64, top: u64) -> u64
    requires { top < 4294967296 }
    ensures { (result + top) % goldilocks_modulus ≡ low % goldilocks_modulus }
{
    let (difference, borrow) = low.overflowing_sub(top);
    if borrow {
        subtract_epsilon(difference)
    } else {
        difference
    }
}

// Takes back the `2^64` that a difference below zero has borrowed.
#[cold]
#[inline(never)]
fn subtract_epsilon(x: u64) -> u64
    requires { 4294967295 ≤ x }
    ensures { result + 4294967295 ≡ x }
{
    x - EPSILON
}

// The remainder of a sum, whose second part is at most the square of `EPSILON`. Once the carry is
// taken in, few sums are still past the modulus.
#[inline(always)]
fn add_and_reduce(x: u64, y: u64) -> u64
    requires { y ≤ 18446744065119617025 }
    ensures { result ≡ (x + y) % goldilocks_modulus }
{
    let (low, carry) = x.overflowing_add(y);
    // One test after the carry, which comes about every second time, so that no branch hangs on it.
    let sum = if carry { low + EPSILON } else { low };
    if sum < MODULUS {
        sum
    } else {
        subtract_modulus(sum)
    }
}

#[cold]
#[inline(never)]
fn subtract_modulus(x: u64) -> u64
    requires { goldilocks_modulus ≤ x }
    ensures { result + goldilocks_modulus ≡ x }
{
    x - MODULUS
}

impl<P: Copy> FieldOps for GoldilocksIn<P> {
    ghost use Rattle.p3_field.specs.Residues.{residue-eq};
    ghost use Rattle.p3_field.specs.FieldLaws.{difference_law};

    ghost can_add_assign_law = { λ _ _. tt };

    ghost add_assign_law = { λ a b r h. residue-eq _ _ h };

    ghost can_sub_assign_law = { λ _ _. tt };

    ghost sub_assign_law = { λ a b r h. residue-eq _ _ (difference_law _ _ _ _ h) };

    ghost can_mul_assign_law = { λ _ _. tt };

    ghost mul_assign_law = { λ a b r h. residue-eq _ _ h };

    ghost can_sum_law = { λ _. tt };

    ghost all_summed_law = { λ _. tt };

    ghost sum_law = { λ xs r h. h };

    ghost can_product_law = { λ _. tt };

    ghost all_multiplied_law = { λ _. tt };

    ghost product_law = { λ xs r h. h };
}

impl<P: Copy> Valued for GoldilocksIn<P> {
    ghost use Rattle.std.proofs.Common.{lit<};
    ghost use Rattle.p3_field.specs.Residues.{Residue};
    ghost use Rattle.p3_field.specs.Fields.{goldilocks_ring};

    ghost Element = { Residue goldilocks_modulus };

    ghost ring = { goldilocks_ring };

    ghost number = { λ x. x.number };

    ghost value = { λ x. record { number = x.number; below = x.below } };

    ghost zero = { record { number = 0; of = _; below = lit< tt } };
}

impl<P: Copy> Field for GoldilocksIn<P> {
    ghost use Rattle.std.proofs.Common.{lit<, refl};
    ghost use Rattle.p3_field.specs.Residues.{residue-eq};
    ghost use Rattle.p3_field.specs.FieldLaws.{difference_law, eq_law};
    ghost use Rattle.p3_field.specs.Fields.{goldilocks_ring, goldilocks_numbers};

    const ZERO: GoldilocksIn<P> = GoldilocksIn {
        number: 0,
        of: PhantomData,
    };

    ghost ZERO = { record { number = 0; of = _; below = lit< tt } };

    const ONE: GoldilocksIn<P> = GoldilocksIn {
        number: 1,
        of: PhantomData,
    };

    ghost ONE = { record { number = 1; of = _; below = lit< tt } };

    const TWO: GoldilocksIn<P> = GoldilocksIn {
        number: 2,
        of: PhantomData,
    };

    ghost TWO = { record { number = 2; of = _; below = lit< tt } };

    const NEG_ONE: GoldilocksIn<P> = GoldilocksIn {
        number: 18446744069414584320,
        of: PhantomData,
    };

    ghost NEG_ONE = { record { number = 18446744069414584320; of = _; below = lit< tt } };

    const GENERATOR: GoldilocksIn<P> = GoldilocksIn {
        number: 7,
        of: PhantomData,
    };

    ghost GENERATOR = { record { number = 7; of = _; below = lit< tt } };

    fn halve(self) -> GoldilocksIn<P> {
        let shifted = self.number / 2;
        let number = if self.number % 2 == 0 {
            shifted
        } else {
            shifted + HALF
        };
        GoldilocksIn {
            number,
            of: PhantomData,
        }
    }

    fn from_usize(n: usize) -> GoldilocksIn<P> {
        GoldilocksIn {
            number: n as u64 % MODULUS,
            of: PhantomData,
        }
    }

    fn try_inverse(&self) -> Option<GoldilocksIn<P>> {
        let inverse = inverse_modulo(MODULUS, self.number)?;
        Some(GoldilocksIn {
            number: inverse,
            of: PhantomData,
        })
    }

    ghost number_law = { residue-eq };

    ghost same_zero = { refl };

    ghost zero_law = { residue-eq _ _ refl };

    ghost one_law = { residue-eq _ _ refl };

    ghost two_law = { residue-eq _ _ refl };

    ghost neg_one_law = { residue-eq _ _ refl };

    ghost generator_law = { goldilocks_numbers.invertible };

    ghost can_add_law = { λ _ _. tt };

    ghost add_law = { λ a b r h. residue-eq _ _ h };

    ghost can_sub_law = { λ _ _. tt };

    ghost sub_law = { λ a b r h. residue-eq _ _ (difference_law _ _ _ _ h) };

    ghost can_mul_law = { λ _ _. tt };

    ghost mul_law = { λ a b r h. residue-eq _ _ h };

    ghost can_neg_law = { λ _. tt };

    ghost neg_law = { λ a r h. residue-eq _ _ h };

    ghost eq_law = { λ a b. eq_law _ _ };
}

impl<P: Copy> PackedField for GoldilocksIn<P> {
    type Scalar = GoldilocksIn<P>;

    ghost use Rattle.std.specs.Prelude.{[], ◌∷◌};
    ghost use Rattle.std.proofs.Common.{refl};

    const WIDTH: usize = 1;

    ghost WIDTH = { 1 };

    ghost lanes = { λ x. x ∷ [] };

    fn load(from: &[GoldilocksIn<P>]) -> GoldilocksIn<P> {
        from[0]
    }

    fn store(self, to: &mut [GoldilocksIn<P>]) {
        to[0] = self;
    }

    fn load_pairs(from: &[GoldilocksIn<P>]) -> (GoldilocksIn<P>, GoldilocksIn<P>) {
        (from[0], from[1])
    }

    fn store_pairs(self, second: GoldilocksIn<P>, to: &mut [GoldilocksIn<P>]) {
        to[0] = self;
        to[1] = second;
    }

    fn broadcast(scalar: GoldilocksIn<P>) -> GoldilocksIn<P> {
        scalar
    }

    fn add(self, other: GoldilocksIn<P>) -> GoldilocksIn<P> {
        self + other
    }

    fn sub(self, other: GoldilocksIn<P>) -> GoldilocksIn<P> {
        self - other
    }

    fn scaled(self, t: GoldilocksIn<P>, products: &mut Products) -> GoldilocksIn<P> {
        products.rise(1);
        self * t
    }

    fn multiplied(self, other: GoldilocksIn<P>, products: &mut Products) -> GoldilocksIn<P> {
        products.rise(1);
        self * other
    }

    ghost width_law = { λ _. refl };
}

impl<P: GoldilocksPacking> Packable for GoldilocksIn<P> {
    ghost use Rattle.std.proofs.Common.{refl};

    type Packing = P::Packing;

    const ONE_BY_ONE: bool = P::ONE_BY_ONE;

    ghost lane_law = { λ _. refl };

    ghost one_lane_law = { refl };

    ghost packing_law = { P.some_law };
}

impl GoldilocksPacking for ScalarLanes {
    ghost use Rattle.std.proofs.Common.{lit≤};

    type Packing = Lanes<Goldilocks, 4>;

    // So no more than one lane has to lie in registers.
    const ONE_BY_ONE: bool = true;

    ghost some_law = { lit≤ tt };
}

impl GoldilocksPacking for VectorLanes {
    ghost use Rattle.std.proofs.Common.{lit≤};

    type Packing = GoldilocksX8;

    const ONE_BY_ONE: bool = false;

    ghost some_law = { lit≤ tt };
}

/// The element of the same number.
impl From<Goldilocks> for WideGoldilocks {
    ghost from_gives = { λ x r. r.number ≡ x.number };

    fn from(x: Goldilocks) -> WideGoldilocks {
        GoldilocksIn {
            number: x.number,
            of: PhantomData,
        }
    }
}

/// The element of the same number.
impl From<WideGoldilocks> for Goldilocks {
    ghost from_gives = { λ x r. r.number ≡ x.number };

    fn from(x: WideGoldilocks) -> Goldilocks {
        GoldilocksIn {
            number: x.number,
            of: PhantomData,
        }
    }
}

// The generators of the subgroups of order 1, 2, 4, .., `2^32`: each is the square of the next.
const GENERATORS: [u64; 33] = [
    1,
    18446744069414584320,
    281474976710656,
    18446744069397807105,
    17293822564807737345,
    70368744161280,
    549755813888,
    17870292113338400769,
    13797081185216407910,
    1803076106186727246,
    11353340290879379826,
    455906449640507599,
    17492915097719143606,
    1532612707718625687,
    16207902636198568418,
    17776499369601055404,
    6115771955107415310,
    12380578893860276750,
    9306717745644682924,
    18146160046829613826,
    3511170319078647661,
    17654865857378133588,
    5416168637041100469,
    16905767614792059275,
    9713644485405565297,
    5456943929260765144,
    17096174751763063430,
    1213594585890690845,
    6414415596519834757,
    16116352524544190054,
    9123114210336311365,
    4614640910117430873,
    1753635133440165772,
];

impl<P: GoldilocksPacking> TwoAdicField for GoldilocksIn<P> {
    ghost use Rattle.std.proofs.Common.{lit≤};
    ghost use Rattle.p3_field.specs.Fields.{goldilocks_numbers, goldilocks_generator, are_field_generators};

    const TWO_ADICITY: usize = 32;

    ghost TWO_ADICITY = { 32 };

    ghost generator = { λ bits. record {
      number = (goldilocks_generator bits).number;
      of = _;
      below = (goldilocks_generator bits).below;
    } };

    fn two_adic_generator(bits: usize) -> GoldilocksIn<P> {
        GoldilocksIn {
            number: GENERATORS[bits],
            of: PhantomData,
        }
    }

    ghost two_adicity_law = { lit≤ tt };

    ghost roots_law = { are_field_generators goldilocks_numbers };
}

impl<P: GoldilocksPacking> CanonicalField for GoldilocksIn<P> {
    ghost use Rattle.std.proofs.Common.{refl};
    ghost use Rattle.p3_field.specs.FieldLaws.{count_law};
    ghost use Rattle.p3_field.specs.Fields.{goldilocks_numbers};

    const ORDER_U64: u64 = 18446744069414584321;

    ghost ORDER_U64 = { goldilocks_modulus };

    fn new(number: u64) -> Option<GoldilocksIn<P>> {
        if number < MODULUS {
            Some(GoldilocksIn {
                number,
                of: PhantomData,
            })
        } else {
            None
        }
    }

    fn as_canonical_u64(&self) -> u64 {
        self.number
    }

    ghost order_law = { λ a b. refl };

    ghost number_below_law = { λ x. x.below };

    ghost count_law = { count_law goldilocks_numbers.modulus goldilocks_numbers.above goldilocks_numbers.odd };
}
