//! Residues of an odd modulus below `2^31` and above `2^30` plus the remainder of `2^62` by it, once for all.

ghost use Rattle.std.specs.Prelude.{◌≡◌, ◌<◌, ◌≤◌, ◌%◌, ◌-◌, ℕ, ◌+◌};

use crate::euclid::inverse_modulo;
use crate::fields::{Field, FieldOps, Valued};
use crate::packed::{Packable, PackedField, Products};
use crate::totals::{add_all, multiply_all};
use crate::two_adic::{CanonicalField, TwoAdicField};
use std::alloc::AllocError;
use std::fmt;
use std::iter::{Product, Sum};
use std::marker::PhantomData;
use std::ops::{Add, AddAssign, Mul, MulAssign, Neg, Sub, SubAssign};

/// The numbers that make a field: an odd modulus below `2^31` and above the sum of `2^30` and the
/// remainder of `2^62` by it, a number with an inverse, and generators of subgroups whose orders are powers of
/// two. A type of this trait has no values of interest: it stands for its constants. `Residue31` is a field over it
/// where the type has `ResiduePacking` too, which names the lanes.
pub trait Numbers: Copy {
    ghost use Rattle.p3_field.specs.Fields.{FieldNumbers, field_generator};

    // The numbers, with the facts that make them a field.
    ghost numbers: { FieldNumbers };

    /// The modulus.
    const MODULUS: u32;

    ghost MODULUS: { ℕ };

    /// A number with an inverse.
    const GENERATOR: u32;

    ghost GENERATOR: { ℕ };

    /// The logarithm of the order of the largest subgroup that a generator makes.
    const TWO_ADICITY: usize;

    ghost TWO_ADICITY: { ℕ };

    ghost modulus_law: { MODULUS ≡ numbers.modulus };

    ghost generator_law: { GENERATOR ≡ numbers.generator.number };

    ghost two_adicity_law: { TWO_ADICITY ≡ numbers.two_adicity };

    ghost small_law: { numbers.modulus < 2147483648 };

    // The quotient of a product by the modulus can be told from the product's upper digits, but for
    // one: 2^30 and the remainder of 2^62.
    ghost quotient_law: { 1073741824 + 4611686018427387904 % numbers.modulus < numbers.modulus };

    /// The number of the generator of the subgroup of order `2^bits`.
    fn generator_number(bits: usize) -> u32
        requires { bits ≤ numbers.two_adicity }
        ensures { result ≡ (field_generator numbers bits).number };
}

/// The lanes of packed values of the field that these numbers make. Elements and what they compute do not depend on
/// it.
pub trait ResiduePacking: Numbers {
    /// Several elements, handled by one operation.
    type Packing: PackedField<Scalar = Residue31<Self>>;

    ghost some_law: { 1 ≤ Self.Packing.WIDTH };
}

/// An integer modulo `N::MODULUS`, by its number below the modulus.
#[derive_where(Copy, PartialEq, Eq, PartialOrd, Ord;)]
pub struct Residue31<N: Numbers> {
    pub(crate) number: u32,
    #[derive_where(skip(EqHashOrd))]
    pub(crate) of: PhantomData<N>,
    ghost below: { number < N.numbers.modulus },
}

impl<N: Numbers> Clone for Residue31<N> {
    ghost use Rattle.std.specs.Prelude.{◌≡◌, ⊤};

    ghost is_clone = { λ x y. y ≡ x };

    ghost is_infallible = { λ _. ⊤ };

    fn clone(&self) -> Result<Residue31<N>, AllocError> {
        Ok(*self)
    }
}

impl<N: Numbers> Add for Residue31<N> {
    ghost use Rattle.p3_field.specs.Residues.{IsSum};

    type Output = Residue31<N>;

    ghost add_gives = { λ a b r. IsSum N.numbers.modulus a.number b.number r.number };

    fn add(self, other: Residue31<N>) -> Residue31<N> {
        let sum = self.number + other.number;
        Residue31 {
            number: if sum < N::MODULUS {
                sum
            } else {
                sum - N::MODULUS
            },
            of: PhantomData,
        }
    }
}

impl<N: Numbers> Sub for Residue31<N> {
    ghost use Rattle.p3_field.specs.Residues.{IsDifference};

    type Output = Residue31<N>;

    ghost sub_gives = { λ a b r. IsDifference N.numbers.modulus a.number b.number r.number };

    fn sub(self, other: Residue31<N>) -> Residue31<N> {
        Residue31 {
            number: if self.number >= other.number {
                self.number - other.number
            } else {
                self.number + (N::MODULUS - other.number)
            },
            of: PhantomData,
        }
    }
}

impl<N: Numbers> Mul for Residue31<N> {
    ghost use Rattle.p3_field.specs.Residues.{IsProduct};

    type Output = Residue31<N>;

    ghost mul_gives = { λ a b r. IsProduct N.numbers.modulus a.number b.number r.number };

    fn mul(self, other: Residue31<N>) -> Residue31<N> {
        // The product is below 2^62, the number that is written out here. Told so, the compiler divides by
        // the modulus in fewer steps.
        let product = self.number as u64 * other.number as u64 % 4611686018427387904;
        Residue31 {
            number: (product % N::MODULUS as u64) as u32,
            of: PhantomData,
        }
    }
}

impl<N: Numbers> Neg for Residue31<N> {
    ghost use Rattle.p3_field.specs.Residues.{IsNegative};

    type Output = Residue31<N>;

    ghost neg_gives = { λ a r. IsNegative N.numbers.modulus a.number r.number };

    fn neg(self) -> Residue31<N> {
        Residue31 {
            number: if self.number == 0 {
                0
            } else {
                N::MODULUS - self.number
            },
            of: PhantomData,
        }
    }
}

impl<N: Numbers> AddAssign for Residue31<N> {
    ghost use Rattle.p3_field.specs.Residues.{IsSum};

    ghost add_assign_gives = { λ a b r. IsSum N.numbers.modulus a.number b.number r.number };

    fn add_assign(&mut self, other: Residue31<N>) {
        *self = *self + other;
    }
}

impl<N: Numbers> SubAssign for Residue31<N> {
    ghost use Rattle.p3_field.specs.Residues.{IsDifference};

    ghost sub_assign_gives = { λ a b r. IsDifference N.numbers.modulus a.number b.number r.number };

    fn sub_assign(&mut self, other: Residue31<N>) {
        *self = *self - other;
    }
}

impl<N: Numbers> MulAssign for Residue31<N> {
    ghost use Rattle.p3_field.specs.Residues.{IsProduct};

    ghost mul_assign_gives = { λ a b r. IsProduct N.numbers.modulus a.number b.number r.number };

    fn mul_assign(&mut self, other: Residue31<N>) {
        *self = *self * other;
    }
}

impl<N: Numbers> Sum<Residue31<N>> for Residue31<N> {
    ghost use Rattle.std.specs.Prelude.{map};
    ghost use Rattle.p3_field.specs.Fields.{field_ring};
    ghost use Rattle.p3_field.specs.Residues.{residue_at};
    ghost use Rattle.p3_field.specs.Ring.{sum_of};

    ghost sum_gives = { λ xs r. residue_at N.numbers.modulus r.number r.below
        ≡ sum_of (field_ring N.numbers) (map (λ x. residue_at N.numbers.modulus x.number x.below) xs) };

    fn sum<I: Iterator<Item = Residue31<N>>>(iter: I) -> Residue31<N> {
        add_all(
            Residue31 {
                number: 0,
                of: PhantomData,
            },
            iter,
        )
    }
}

impl<N: Numbers> Product<Residue31<N>> for Residue31<N> {
    ghost use Rattle.std.specs.Prelude.{map};
    ghost use Rattle.p3_field.specs.Fields.{field_ring};
    ghost use Rattle.p3_field.specs.Residues.{residue_at};
    ghost use Rattle.p3_field.specs.Ring.{product_of};

    ghost product_gives = { λ xs r. residue_at N.numbers.modulus r.number r.below
        ≡ product_of (field_ring N.numbers) (map (λ x. residue_at N.numbers.modulus x.number x.below) xs) };

    fn product<I: Iterator<Item = Residue31<N>>>(iter: I) -> Residue31<N> {
        multiply_all(
            Residue31 {
                number: 1,
                of: PhantomData,
            },
            iter,
        )
    }
}

/// The element of this number.
impl<N: Numbers> From<u8> for Residue31<N> {
    ghost from_gives = { λ n r. r.number ≡ n };

    fn from(n: u8) -> Residue31<N> {
        Residue31 {
            number: n as u32,
            of: PhantomData,
        }
    }
}

/// The element of this number.
impl<N: Numbers> From<u16> for Residue31<N> {
    ghost from_gives = { λ n r. r.number ≡ n };

    fn from(n: u16) -> Residue31<N> {
        Residue31 {
            number: n as u32,
            of: PhantomData,
        }
    }
}

/// The number in decimal digits, with the options of a format as for a `u32`.
impl<N: Numbers> fmt::Display for Residue31<N> {
    ghost use Rattle.std.specs.Prelude.{Some};
    ghost use Rattle.std.specs.Fmt.{decimal, styled_decimal};

    ghost output = { λ x. Some (decimal x.number) };

    ghost styled_output = { λ x s. Some (styled_decimal s x.number) };

    fn fmt<W: fmt::Write>(&self, f: &mut fmt::Formatter<W>) -> fmt::Result {
        fmt::Display::fmt(&self.number, f)
    }
}

/// The number in decimal digits. Clauses say so of a formatter without options.
impl<N: Numbers> fmt::Debug for Residue31<N> {
    ghost use Rattle.std.specs.Prelude.{Some};
    ghost use Rattle.std.specs.Fmt.{decimal};

    ghost debug_output = { λ x. Some (decimal x.number) };

    fn fmt<W: fmt::Write>(&self, f: &mut fmt::Formatter<W>) -> fmt::Result {
        fmt::Debug::fmt(&self.number, f)
    }
}

impl<N: Numbers> FieldOps for Residue31<N> {
    ghost use Rattle.p3_field.specs.Residues.{residue-eq};
    ghost use Rattle.p3_field.specs.FieldLaws.{difference_law};

    ghost can_add_assign_law = { λ _ _. tt };

    ghost add_assign_law = { λ a b r h. residue-eq _ _ h };

    ghost can_sub_assign_law = { λ _ _. tt };

    ghost sub_assign_law = { λ a b r h. residue-eq _ _ (difference_law _ _ _ _ h) };

    ghost can_mul_assign_law = { λ _ _. tt };

    ghost mul_assign_law = { λ a b r h. residue-eq _ _ h };

    ghost can_sum_law = { λ _. tt };

    ghost all_summed_law = { λ _. tt };

    ghost sum_law = { λ xs r h. h };

    ghost can_product_law = { λ _. tt };

    ghost all_multiplied_law = { λ _. tt };

    ghost product_law = { λ xs r h. h };
}

impl<N: Numbers> Valued for Residue31<N> {
    ghost use Rattle.std.proofs.Common.{arith};
    ghost use Rattle.p3_field.specs.Fields.{field_ring};
    ghost use Rattle.p3_field.specs.Residues.{Residue};

    ghost Element = { Residue N.numbers.modulus };

    ghost ring = { field_ring N.numbers };

    ghost number = { λ x. x.number };

    ghost value = { λ x. record { number = x.number; below = x.below } };

    ghost zero = { record { number = 0; of = _; below = Prim.omega (arith, N.numbers.above) } };
}

impl<N: Numbers> Field for Residue31<N> {
    ghost use Rattle.std.proofs.Common.{refl, arith};
    ghost use Rattle.p3_field.specs.Fields.{field_ring};
    ghost use Rattle.p3_field.specs.Residues.{residue-eq};
    ghost use Rattle.p3_field.specs.FieldLaws.{difference_law, eq_law};
    ghost use Rattle.p3_field.specs.Residues31.{below_two, below_minus_one, two_number, minus_one_number};

    const ZERO: Residue31<N> = Residue31 {
        number: 0,
        of: PhantomData,
    };

    ghost ZERO = { record { number = 0; of = _; below = Prim.omega (arith, N.numbers.above) } };

    const ONE: Residue31<N> = Residue31 {
        number: 1,
        of: PhantomData,
    };

    ghost ONE = { record { number = 1; of = _; below = N.numbers.above } };

    const TWO: Residue31<N> = Residue31 {
        number: 2,
        of: PhantomData,
    };

    ghost TWO = { record { number = 2; of = _; below = below_two _ N.numbers.above N.numbers.odd } };

    const NEG_ONE: Residue31<N> = Residue31 {
        number: N::MODULUS - 1,
        of: PhantomData,
    };

    ghost NEG_ONE = { record { number = N.numbers.modulus - 1; of = _; below = below_minus_one _ N.numbers.above } };

    const GENERATOR: Residue31<N> = Residue31 {
        number: N::GENERATOR,
        of: PhantomData,
    };

    ghost GENERATOR = { record { number = N.numbers.generator.number; of = _; below = N.numbers.generator.below } };

    fn halve(self) -> Residue31<N> {
        let shifted = self.number / 2;
        let number = if self.number % 2 == 0 {
            shifted
        } else {
            shifted + (N::MODULUS / 2 + 1)
        };
        Residue31 {
            number,
            of: PhantomData,
        }
    }

    fn from_usize(n: usize) -> Residue31<N> {
        Residue31 {
            number: (n % N::MODULUS as usize) as u32,
            of: PhantomData,
        }
    }

    fn try_inverse(&self) -> Option<Residue31<N>> {
        let inverse = inverse_modulo(N::MODULUS as u64, self.number as u64)?;
        Some(Residue31 {
            number: inverse as u32,
            of: PhantomData,
        })
    }

    ghost number_law = { residue-eq };

    ghost same_zero = { refl };

    ghost zero_law = { residue-eq _ _ refl };

    ghost one_law = { residue-eq _ _ refl };

    ghost two_law = { residue-eq _ _ (two_number _ N.numbers.above N.numbers.odd) };

    ghost neg_one_law = { residue-eq _ _ (minus_one_number _ N.numbers.above) };

    ghost generator_law = { N.numbers.invertible };

    ghost can_add_law = { λ _ _. tt };

    ghost add_law = { λ a b r h. residue-eq _ _ h };

    ghost can_sub_law = { λ _ _. tt };

    ghost sub_law = { λ a b r h. residue-eq _ _ (difference_law _ _ _ _ h) };

    ghost can_mul_law = { λ _ _. tt };

    ghost mul_law = { λ a b r h. residue-eq _ _ h };

    ghost can_neg_law = { λ _. tt };

    ghost neg_law = { λ a r h. residue-eq _ _ h };

    ghost eq_law = { λ a b. eq_law _ _ };
}

impl<N: Numbers> PackedField for Residue31<N> {
    type Scalar = Residue31<N>;

    ghost use Rattle.std.specs.Prelude.{[], ◌∷◌};
    ghost use Rattle.std.proofs.Common.{refl};

    const WIDTH: usize = 1;

    ghost WIDTH = { 1 };

    ghost lanes = { λ x. x ∷ [] };

    fn load(from: &[Residue31<N>]) -> Residue31<N> {
        from[0]
    }

    fn store(self, to: &mut [Residue31<N>]) {
        to[0] = self;
    }

    fn load_pairs(from: &[Residue31<N>]) -> (Residue31<N>, Residue31<N>) {
        (from[0], from[1])
    }

    fn store_pairs(self, second: Residue31<N>, to: &mut [Residue31<N>]) {
        to[0] = self;
        to[1] = second;
    }

    fn broadcast(scalar: Residue31<N>) -> Residue31<N> {
        scalar
    }

    fn add(self, other: Residue31<N>) -> Residue31<N> {
        self + other
    }

    fn sub(self, other: Residue31<N>) -> Residue31<N> {
        self - other
    }

    fn scaled(self, t: Residue31<N>, products: &mut Products) -> Residue31<N> {
        products.rise(1);
        self * t
    }

    fn multiplied(self, other: Residue31<N>, products: &mut Products) -> Residue31<N> {
        products.rise(1);
        self * other
    }

    ghost width_law = { λ _. refl };
}

impl<N: ResiduePacking> Packable for Residue31<N> {
    ghost use Rattle.std.proofs.Common.{refl};

    type Packing = N::Packing;

    ghost lane_law = { λ _. refl };

    ghost one_lane_law = { refl };

    ghost packing_law = { N.some_law };
}

impl<N: ResiduePacking> TwoAdicField for Residue31<N> {
    ghost use Rattle.p3_field.specs.Fields.{field_generator, are_field_generators};

    const TWO_ADICITY: usize = N::TWO_ADICITY;

    ghost TWO_ADICITY = { N.numbers.two_adicity };

    ghost generator = { λ bits. record {
      number = (field_generator N.numbers bits).number;
      of = _;
      below = (field_generator N.numbers bits).below;
    } };

    fn two_adic_generator(bits: usize) -> Residue31<N> {
        Residue31 {
            number: N::generator_number(bits),
            of: PhantomData,
        }
    }

    ghost two_adicity_law = { N.numbers.some };

    ghost roots_law = { are_field_generators N.numbers };
}

impl<N: ResiduePacking> CanonicalField for Residue31<N> {
    ghost use Rattle.std.proofs.Common.{refl};
    ghost use Rattle.p3_field.specs.FieldLaws.{count_law};

    const ORDER_U64: u64 = N::MODULUS as u64;

    ghost ORDER_U64 = { N.numbers.modulus };

    fn new(number: u64) -> Option<Residue31<N>> {
        if number < N::MODULUS as u64 {
            Some(Residue31 {
                number: number as u32,
                of: PhantomData,
            })
        } else {
            None
        }
    }

    fn as_canonical_u64(&self) -> u64 {
        self.number as u64
    }

    ghost order_law = { λ a b. refl };

    ghost number_below_law = { λ x. x.below };

    ghost count_law = { count_law N.numbers.modulus N.numbers.above N.numbers.odd };
}
