//! One quadratic step over any ring: the elements a + b x, where x * x is an element w of the ring.
//!
//! Proved: they are a commutative ring with one in which halving is exact, and an element has an inverse exactly where
//! its norm `a * a - w * b * b` has one, and then that inverse is found. So whatever the ring and w are they meet
//! every law of `Field`, those of `FieldOps` where the ring has it, and those of `TwoAdicField` with the generators of
//! the ring below: every engine runs over them. A step over a step makes degree four.

ghost use Rattle.std.specs.Prelude.{◌≡◌, ◌↔◌, [], ◌∷◌, map};
ghost use Rattle.std.proofs.Common.{◌∙◌, lit<, lit≤, refl, sym};
ghost use Rattle.p3_field.specs.Ring.{IsInvertible, product_of, sum_of};
ghost use Rattle.examples.specs.QuadraticFields.{both, both_equal, embedded_inverse, embedded_roots, embedded-add};
ghost use Rattle.examples.specs.QuadraticFields.{embedded-neg, paired, paired_law};
ghost use Rattle.examples.specs.Quadratics.{embedded, norm, quadratic};

use p3_dft::{Field, FieldOps, Packable, PackedField, Products, TwoAdicField, Valued, scaled};
use p3_field::totals::{add_all, multiply_all};
use p3_field::{BabyBear, GoldilocksIn};
use std::fmt;
use std::iter::{Product, Sum};
use std::marker::PhantomData;
use std::ops::{Add, AddAssign, Mul, MulAssign, Neg, Sub, SubAssign};

/// The element of a ring whose square root a step adjoins. A type of this trait stands for that element alone.
pub trait Square<R: Field>: Copy {
    // The element.
    ghost w: { R };

    /// The product of the element and another.
    fn times(x: R) -> R
        ensures { R.value result ≡ R.ring.mul (R.value w) (R.value x) };
}

/// Seven, whose root is adjoined to Goldilocks.
#[derive(Clone, Copy)]
pub struct Seven;

impl<P: Copy> Square<GoldilocksIn<P>> for Seven {
    ghost w = { record { number = 7; of = _; below = lit< tt } };

    fn times(x: GoldilocksIn<P>) -> GoldilocksIn<P> {
        GoldilocksIn::from(7u8) * x
    }
}

/// Eleven, whose fourth root is adjoined to BabyBear in two steps.
#[derive(Clone, Copy)]
pub struct Eleven;

impl Square<BabyBear> for Eleven {
    ghost w = { record { number = 11; of = _; below = lit< tt } };

    fn times(x: BabyBear) -> BabyBear {
        BabyBear::from(11u8) * x
    }
}

/// The root that the step below adjoined.
#[derive(Clone, Copy)]
pub struct Root;

impl<R: Field, W: Square<R>> Square<Quadratic<R, W>> for Root {
    ghost w = { record { constant = R.ZERO; linear = R.ONE; of = _ } };

    fn times(x: Quadratic<R, W>) -> Quadratic<R, W> {
        Quadratic::new(W::times(x.linear), x.constant)
    }
}

/// `constant + linear * x`, where x * x is the element that W stands for.
#[derive(Clone, Copy)]
#[derive_where(PartialEq, Eq, PartialOrd, Ord; R)]
pub struct Quadratic<R, W> {
    /// The coordinate of one.
    pub constant: R,
    /// The coordinate of x.
    pub linear: R,
    #[derive_where(skip(EqHashOrd))]
    of: PhantomData<W>,
}

impl<R, W> Quadratic<R, W> {
    /// The element with these coordinates.
    pub const fn new(constant: R, linear: R) -> Quadratic<R, W>
        ensures constant { result.constant ≡ constant }
        ensures linear { result.linear ≡ linear }
    {
        Quadratic {
            constant,
            linear,
            of: PhantomData,
        }
    }
}

impl<R: Field, W: Square<R>> Quadratic<R, W> {
    /// `constant * constant - w * linear * linear`, which has an inverse exactly where the element has one.
    pub fn norm(&self) -> R
        ensures norm { R.value result ≡ norm R.ring (R.value W.w) (R.value self.now.constant, R.value self.now.linear) }
        ensures unit { IsInvertible R.ring (R.value result)
            ↔ IsInvertible (quadratic R.ring (R.value W.w)) (R.value self.now.constant, R.value self.now.linear) }
    {
        self.constant * self.constant - W::times(self.linear * self.linear)
    }
}

impl<R: Field, W: Square<R>> Add for Quadratic<R, W> {
    type Output = Quadratic<R, W>;

    ghost add_gives = { λ a b r. R.add_gives a.constant b.constant r.constant
        × R.add_gives a.linear b.linear r.linear };

    fn add(self, other: Quadratic<R, W>) -> Quadratic<R, W> {
        Quadratic::new(self.constant + other.constant, self.linear + other.linear)
    }
}

impl<R: Field, W: Square<R>> Sub for Quadratic<R, W> {
    type Output = Quadratic<R, W>;

    ghost sub_gives = { λ a b r. R.sub_gives a.constant b.constant r.constant
        × R.sub_gives a.linear b.linear r.linear };

    fn sub(self, other: Quadratic<R, W>) -> Quadratic<R, W> {
        Quadratic::new(self.constant - other.constant, self.linear - other.linear)
    }
}

impl<R: Field, W: Square<R>> Mul for Quadratic<R, W> {
    type Output = Quadratic<R, W>;

    ghost mul_gives = { λ a b r. (R.value r.constant, R.value r.linear)
        ≡ (quadratic R.ring (R.value W.w)).mul (R.value a.constant, R.value a.linear)
        (R.value b.constant, R.value b.linear) };

    fn mul(self, other: Quadratic<R, W>) -> Quadratic<R, W> {
        Quadratic::new(
            self.constant * other.constant + W::times(self.linear * other.linear),
            self.constant * other.linear + self.linear * other.constant,
        )
    }
}

impl<R: Field, W: Square<R>> Neg for Quadratic<R, W> {
    type Output = Quadratic<R, W>;

    ghost neg_gives = { λ a r. R.neg_gives a.constant r.constant × R.neg_gives a.linear r.linear };

    fn neg(self) -> Quadratic<R, W> {
        Quadratic::new(-self.constant, -self.linear)
    }
}

impl<R: Field, W: Square<R>> AddAssign for Quadratic<R, W> {
    ghost add_assign_gives = { λ a b r. R.add_gives a.constant b.constant r.constant
        × R.add_gives a.linear b.linear r.linear };

    fn add_assign(&mut self, other: Quadratic<R, W>) {
        *self = *self + other;
    }
}

impl<R: Field, W: Square<R>> SubAssign for Quadratic<R, W> {
    ghost sub_assign_gives = { λ a b r. R.sub_gives a.constant b.constant r.constant
        × R.sub_gives a.linear b.linear r.linear };

    fn sub_assign(&mut self, other: Quadratic<R, W>) {
        *self = *self - other;
    }
}

impl<R: Field, W: Square<R>> MulAssign for Quadratic<R, W> {
    ghost mul_assign_gives = { λ a b r. (R.value r.constant, R.value r.linear)
        ≡ (quadratic R.ring (R.value W.w)).mul (R.value a.constant, R.value a.linear)
        (R.value b.constant, R.value b.linear) };

    fn mul_assign(&mut self, other: Quadratic<R, W>) {
        *self = *self * other;
    }
}

impl<R: Field, W: Square<R>> Sum<Quadratic<R, W>> for Quadratic<R, W> {
    ghost sum_gives = { λ xs r. (R.value r.constant, R.value r.linear)
        ≡ sum_of (quadratic R.ring (R.value W.w)) (map (λ x. (R.value x.constant, R.value x.linear)) xs) };

    fn sum<I: Iterator<Item = Quadratic<R, W>>>(iter: I) -> Quadratic<R, W> {
        add_all(Quadratic::new(R::ZERO, R::ZERO), iter)
    }
}

impl<R: Field, W: Square<R>> Product<Quadratic<R, W>> for Quadratic<R, W> {
    ghost product_gives = { λ xs r. (R.value r.constant, R.value r.linear)
        ≡ product_of (quadratic R.ring (R.value W.w)) (map (λ x. (R.value x.constant, R.value x.linear)) xs) };

    fn product<I: Iterator<Item = Quadratic<R, W>>>(iter: I) -> Quadratic<R, W> {
        multiply_all(Quadratic::new(R::ONE, R::ZERO), iter)
    }
}

impl<R: fmt::Display, W> fmt::Display for Quadratic<R, W> {
    fn fmt<O: fmt::Write>(&self, f: &mut fmt::Formatter<O>) -> fmt::Result {
        write!(f, "({} + {} x)", self.constant, self.linear)
    }
}

impl<R: fmt::Debug, W> fmt::Debug for Quadratic<R, W> {
    fn fmt<O: fmt::Write>(&self, f: &mut fmt::Formatter<O>) -> fmt::Result {
        write!(f, "({:?} + {:?} x)", self.constant, self.linear)
    }
}

impl<R: FieldOps, W: Square<R>> FieldOps for Quadratic<R, W> {
    ghost can_add_assign_law = { λ _ _. tt };

    ghost add_assign_law = { λ a b r h. both (R.add_law _ _ _ h.0) (R.add_law _ _ _ h.1) };

    ghost can_sub_assign_law = { λ _ _. tt };

    ghost sub_assign_law = { λ a b r h. both (R.sub_law _ _ _ h.0) (R.sub_law _ _ _ h.1) };

    ghost can_mul_assign_law = { λ _ _. tt };

    ghost mul_assign_law = { λ a b r h. h };

    ghost can_sum_law = { λ _. tt };

    ghost all_summed_law = { λ _. tt };

    ghost sum_law = { λ xs r h. h };

    ghost can_product_law = { λ _. tt };

    ghost all_multiplied_law = { λ _. tt };

    ghost product_law = { λ xs r h. h };
}

impl<R: Field, W: Square<R>> Valued for Quadratic<R, W> {
    ghost Element = { R.Element × R.Element };

    ghost ring = { quadratic R.ring (R.value W.w) };

    ghost number = { λ x. paired (R.number x.0) (R.number x.1) };

    ghost value = { λ x. (R.value x.constant, R.value x.linear) };

    ghost zero = { record { constant = R.ZERO; linear = R.ZERO; of = _ } };
}

impl<R: Field, W: Square<R>> Field for Quadratic<R, W> {
    const ZERO: Quadratic<R, W> = Quadratic::new(R::ZERO, R::ZERO);

    ghost ZERO = { record { constant = R.ZERO; linear = R.ZERO; of = _ } };

    const ONE: Quadratic<R, W> = Quadratic::new(R::ONE, R::ZERO);

    ghost ONE = { record { constant = R.ONE; linear = R.ZERO; of = _ } };

    const TWO: Quadratic<R, W> = Quadratic::new(R::TWO, R::ZERO);

    ghost TWO = { record { constant = R.TWO; linear = R.ZERO; of = _ } };

    const NEG_ONE: Quadratic<R, W> = Quadratic::new(R::NEG_ONE, R::ZERO);

    ghost NEG_ONE = { record { constant = R.NEG_ONE; linear = R.ZERO; of = _ } };

    const GENERATOR: Quadratic<R, W> = Quadratic::new(R::GENERATOR, R::ZERO);

    ghost GENERATOR = { record { constant = R.GENERATOR; linear = R.ZERO; of = _ } };

    fn halve(self) -> Quadratic<R, W> {
        Quadratic::new(self.constant.halve(), self.linear.halve())
    }

    fn from_usize(n: usize) -> Quadratic<R, W> {
        Quadratic::new(R::from_usize(n), R::ZERO)
    }

    fn try_inverse(&self) -> Option<Quadratic<R, W>> {
        let inverse = self.norm().try_inverse()?;
        Some(Quadratic::new(self.constant * inverse, -(self.linear * inverse)))
    }

    ghost number_law = { paired_law R.number R.number_law };

    ghost same_zero = { refl };

    ghost zero_law = { both R.zero_law R.zero_law };

    ghost one_law = { both R.one_law R.zero_law };

    ghost two_law = { both R.two_law R.zero_law ∙ sym (embedded-add R.ring (R.value W.w) R.ring.one R.ring.one) };

    ghost neg_one_law = { both R.neg_one_law R.zero_law ∙ embedded-neg R.ring (R.value W.w) R.ring.one };

    ghost generator_law = { embedded_inverse R.ring (R.value W.w) (R.value R.GENERATOR) (R.value R.ZERO) R.zero_law
        R.generator_law };

    ghost can_add_law = { λ _ _. tt };

    ghost add_law = { λ a b r h. both (R.add_law _ _ _ h.0) (R.add_law _ _ _ h.1) };

    ghost can_sub_law = { λ _ _. tt };

    ghost sub_law = { λ a b r h. both (R.sub_law _ _ _ h.0) (R.sub_law _ _ _ h.1) };

    ghost can_mul_law = { λ _ _. tt };

    ghost mul_law = { λ a b r h. h };

    ghost can_neg_law = { λ _. tt };

    ghost neg_law = { λ a r h. both (R.neg_law _ _ h.0) (R.neg_law _ _ h.1) };

    ghost eq_law = { λ a b. both_equal _ _ _ _ _ _ (R.eq_law a.constant b.constant) (R.eq_law a.linear b.linear) };
}

impl<R: Packable, W: Square<R>> PackedField for Quadratic<R, W> {
    type Scalar = Quadratic<R, W>;

    const WIDTH: usize = 1;

    ghost WIDTH = { 1 };

    ghost lanes = { λ x. x ∷ [] };

    fn load(from: &[Quadratic<R, W>]) -> Quadratic<R, W> {
        from[0]
    }

    fn store(self, to: &mut [Quadratic<R, W>]) {
        to[0] = self;
    }

    fn load_pairs(from: &[Quadratic<R, W>]) -> (Quadratic<R, W>, Quadratic<R, W>) {
        (from[0], from[1])
    }

    fn store_pairs(self, second: Quadratic<R, W>, to: &mut [Quadratic<R, W>]) {
        to[0] = self;
        to[1] = second;
    }

    fn broadcast(scalar: Quadratic<R, W>) -> Quadratic<R, W> {
        scalar
    }

    fn add(self, other: Quadratic<R, W>) -> Quadratic<R, W> {
        self + other
    }

    fn sub(self, other: Quadratic<R, W>) -> Quadratic<R, W> {
        self - other
    }

    // A product of two elements is counted as one, however many products of the ring it is made of.
    fn scaled(self, t: Quadratic<R, W>, products: &mut Products) -> Quadratic<R, W> {
        Quadratic::new(
            scaled(self.constant, t.constant, products) + W::times(self.linear * t.linear),
            self.constant * t.linear + self.linear * t.constant,
        )
    }

    fn multiplied(self, other: Quadratic<R, W>, products: &mut Products) -> Quadratic<R, W> {
        self.scaled(other, products)
    }

    ghost width_law = { λ _. refl };
}

impl<R: Packable, W: Square<R>> Packable for Quadratic<R, W> {
    type Packing = Quadratic<R, W>;

    const ONE_BY_ONE: bool = false;

    ghost lane_law = { λ _. refl };

    ghost one_lane_law = { refl };

    ghost packing_law = { lit≤ tt };
}

impl<R: TwoAdicField, W: Square<R>> TwoAdicField for Quadratic<R, W> {
    const TWO_ADICITY: usize = R::TWO_ADICITY;

    ghost TWO_ADICITY = { R.TWO_ADICITY };

    ghost generator = { λ bits. record { constant = R.generator bits; linear = R.ZERO; of = _ } };

    fn two_adic_generator(bits: usize) -> Quadratic<R, W> {
        Quadratic::new(R::two_adic_generator(bits), R::ZERO)
    }

    ghost two_adicity_law = { R.two_adicity_law };

    ghost roots_law = { embedded_roots R.ring (R.value W.w) R.zero_law R.roots_law };
}
