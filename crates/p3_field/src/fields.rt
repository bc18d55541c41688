//! What a field is: its operations, and the laws that they obey.

ghost use Rattle.std.specs.Prelude.{◌≡◌, ◌↔◌, ◌^◌, ℕ, IsTrue, IfSome, IsNone, MatchBool, List, is_some, map};
ghost use Rattle.p3_field.specs.Ring.{Ring, minus, two, count, power, sum_of, product_of, IsInverse, IsInvertible};

use crate::power_iterator::Powers;
use std::fmt::{Debug, Display};
use std::iter::{Product, Sum};
use std::ops::{Add, AddAssign, Mul, MulAssign, Neg, Sub, SubAssign};

/// What contracts know of an element, whatever can be done with it: its value, in a ring.
///
/// It has no operators, so that a packed type can name the values of its scalar.
pub trait Valued: Copy {
    // The values of elements.
    ghost Element: { Type 0 };

    // Their ring.
    ghost ring: { Ring Element };

    // The whole number that names a value.
    ghost number: { Element → ℕ };

    // The value of an element.
    ghost value: { Self → Element };

    // Zero, which a list is read to have past its end.
    ghost zero: { Self };
}

/// An element of a commutative ring with one in which halving is exact.
///
/// Contracts speak of the value of an element. Two elements may have one value; `==` and the order depend on
/// values alone. Nothing here says that every element but zero has an inverse: the transforms need no
/// more than the laws at the end. `FieldOps` adds `+=`, `-=`, `*=`, sums and products of iterators, and texts.
pub trait Field: Valued
    + Ord
    + Add<Self, Output = Self>
    + Sub<Self, Output = Self>
    + Mul<Self, Output = Self>
    + Neg<Output = Self> {
    /// Zero.
    const ZERO: Self;

    ghost ZERO: { Self };

    /// One.
    const ONE: Self;

    ghost ONE: { Self };

    /// One plus one.
    const TWO: Self;

    ghost TWO: { Self };

    /// Minus one.
    const NEG_ONE: Self;

    ghost NEG_ONE: { Self };

    /// An element with an inverse. For the fields of this crate `p3_interpolation::CosetGenerator` has the law
    /// that its coset `GENERATOR * H` meets no two-adic subgroup. That it generates the whole multiplicative
    /// group is not claimed.
    const GENERATOR: Self;

    ghost GENERATOR: { Self };

    /// `GENERATOR`, of which the caller then knows that it has an inverse, over a named field too.
    final fn invertible_generator() -> Self
        ensures same { result ≡ GENERATOR }
        ensures invertible { IsInvertible Self.ring (Self.value result) }
    {
        Self::GENERATOR
    }

    /// Twice the element.
    fn double(self) -> Self
        ensures { Self.value result ≡ Self.ring.add (Self.value self) (Self.value self) }
    {
        self + self
    }

    /// The element whose double is this one.
    fn halve(self) -> Self
        ensures { Self.ring.add (Self.value result) (Self.value result) ≡ Self.value self };

    /// The product of the element and itself.
    final fn square(self) -> Self
        ensures { Self.value result ≡ Self.ring.mul (Self.value self) (Self.value self) }
    {
        self * self
    }

    /// Whether the element is zero.
    fn is_zero(&self) -> bool
        ensures { IsTrue result ↔ (Self.value self.now ≡ Self.ring.zero) }
    {
        *self == Self::ZERO
    }

    /// The y with `2^n * y = self`.
    fn div_2exp_u64(self, n: u64) -> Self
        ensures { Self.ring.mul (power Self.ring (two Self.ring) n) (Self.value result) ≡ Self.value self }
    {
        self * Self::ONE.halve().exp_u64(n)
    }

    /// The n-th power, one for n = 0.
    fn exp_u64(self, n: u64) -> Self
        ensures { Self.value result ≡ power Self.ring (Self.value self) n }
    {
        let mut product = Self::ONE;
        let mut square = self;
        let mut left = n;
        while left > 0 {
            if left % 2 == 1 {
                product = product * square;
            }
            square = square * square;
            left /= 2;
        }
        product
    }

    /// Its powers, without end: item i is the i-th power.
    final fn powers(self) -> Powers<Self>
        ensures base { result.base ≡ self }
        ensures start { Self.value result.current ≡ Self.ring.one }
    {
        Powers::new(self, Self::ONE)
    }

    /// The products of `start` and its powers, without end: item i is that with the i-th power.
    final fn shifted_powers(self, start: Self) -> Powers<Self>
        ensures base { result.base ≡ self }
        ensures start { result.current ≡ start }
    {
        Powers::new(self, start)
    }

    /// The `2^n`-th power, by n squarings.
    fn exp_power_of_2(self, n: usize) -> Self
        ensures { Self.value result ≡ power Self.ring (Self.value self) (2 ^ n) }
    {
        let mut power_so_far = self;
        for _i in 0..n {
            power_so_far = power_so_far * power_so_far;
        }
        power_so_far
    }

    /// The element that is this many ones added up.
    fn from_usize(n: usize) -> Self
        ensures { Self.value result ≡ count Self.ring n };

    /// The element that is this many ones added up.
    fn from_u8(n: u8) -> Self
        ensures { Self.value result ≡ count Self.ring n }
    {
        Self::from_usize(n as usize)
    }

    /// The element that is this many ones added up.
    final fn from_u16(n: u16) -> Self
        ensures { Self.value result ≡ count Self.ring n }
    {
        Self::from_usize(n as usize)
    }

    /// The element that is this many ones added up.
    final fn from_u32(n: u32) -> Self
        ensures { Self.value result ≡ count Self.ring n }
    {
        Self::from_usize(n as usize)
    }

    /// The element that is this many ones added up.
    final fn from_u64(n: u64) -> Self
        ensures { Self.value result ≡ count Self.ring n }
    {
        Self::from_usize(n as usize)
    }

    /// The inverse, `Some` exactly where there is one.
    fn try_inverse(&self) -> Option<Self>
        ensures some { IfSome result (λ y. IsInverse Self.ring (Self.value self.now) (Self.value y)) }
        ensures found { MatchBool (is_some result) (IsInvertible Self.ring (Self.value self.now))
            (¬ (IsInvertible Self.ring (Self.value self.now))) }
        ensures none { IsNone result → ¬ (IsInvertible Self.ring (Self.value self.now)) };

    /// The inverse, of an element that has one (`try_inverse` tells).
    fn inverse(&self) -> Self
        requires { IsInvertible Self.ring (Self.value self.now) }
        ensures { IsInverse Self.ring (Self.value self.now) (Self.value result) }
    {
        match self.try_inverse() {
            Some(inverse) => inverse,
            None => unreachable!(),
        }
    }

    // A number names one value.
    ghost number_law: { (x y : Self.Element) → Self.number x ≡ Self.number y → x ≡ y };

    ghost same_zero: { ZERO ≡ Self.zero };

    ghost zero_law: { Self.value ZERO ≡ Self.ring.zero };

    ghost one_law: { Self.value ONE ≡ Self.ring.one };

    ghost two_law: { Self.value TWO ≡ two Self.ring };

    ghost neg_one_law: { Self.value NEG_ONE ≡ Self.ring.neg Self.ring.one };

    ghost generator_law: { IsInvertible Self.ring (Self.value GENERATOR) };

    // The operators may always be used, and are those of the ring.
    ghost can_add_law: { (a b : Self) → Self.can_add a b };

    ghost add_law: { (a b r : Self) → Self.add_gives a b r
        → Self.value r ≡ Self.ring.add (Self.value a) (Self.value b) };

    ghost can_sub_law: { (a b : Self) → Self.can_sub a b };

    ghost sub_law: { (a b r : Self) → Self.sub_gives a b r
        → Self.value r ≡ minus Self.ring (Self.value a) (Self.value b) };

    ghost can_mul_law: { (a b : Self) → Self.can_mul a b };

    ghost mul_law: { (a b r : Self) → Self.mul_gives a b r
        → Self.value r ≡ Self.ring.mul (Self.value a) (Self.value b) };

    ghost can_neg_law: { (a : Self) → Self.can_neg a };

    ghost neg_law: { (a r : Self) → Self.neg_gives a r → Self.value r ≡ Self.ring.neg (Self.value a) };

    // `==` is equality of values. So the order depends on values alone: `order_of_values` of specs/FieldLaws.
    ghost eq_law: { (a b : Self) → IsTrue (Self.eq a b) ↔ (Self.value a ≡ Self.value b) };
}

/// A field with the rest of what generic code may write: the operators that change an element in its place, sums and
/// products of iterators, and texts. Each field of this crate has them. The transforms need none, and the proof of
/// every function over a field pays for each bound of `Field`, so they stand apart.
pub trait FieldOps: Field
    + AddAssign<Self>
    + SubAssign<Self>
    + MulAssign<Self>
    + Sum<Self>
    + Product<Self>
    + Debug
    + Display {
    // The operators may always be used, and are those of the ring.
    ghost can_add_assign_law: { (a b : Self) → Self.can_add_assign a b };

    ghost add_assign_law: { (a b r : Self) → Self.add_assign_gives a b r
        → Self.value r ≡ Self.ring.add (Self.value a) (Self.value b) };

    ghost can_sub_assign_law: { (a b : Self) → Self.can_sub_assign a b };

    ghost sub_assign_law: { (a b r : Self) → Self.sub_assign_gives a b r
        → Self.value r ≡ minus Self.ring (Self.value a) (Self.value b) };

    ghost can_mul_assign_law: { (a b : Self) → Self.can_mul_assign a b };

    ghost mul_assign_law: { (a b r : Self) → Self.mul_assign_gives a b r
        → Self.value r ≡ Self.ring.mul (Self.value a) (Self.value b) };

    // Any elements of an iterator that ends have a sum and a product.
    ghost can_sum_law: { (xs : List Self) → Self.can_sum xs };

    ghost all_summed_law: { (r : Self) → Self.Sum.is_complete r };

    ghost sum_law: { (xs : List Self) (r : Self) → Self.sum_gives xs r
        → Self.value r ≡ sum_of Self.ring (map Self.value xs) };

    ghost can_product_law: { (xs : List Self) → Self.can_product xs };

    ghost all_multiplied_law: { (r : Self) → Self.Product.is_complete r };

    ghost product_law: { (xs : List Self) (r : Self) → Self.product_gives xs r
        → Self.value r ≡ product_of Self.ring (map Self.value xs) };
}
