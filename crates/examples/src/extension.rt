//! A field over a field, to draw challenges from: degree two over Goldilocks with x^2 = 7, and degree four over
//! BabyBear with x^4 = 11, of one quadratic step and of two.
//!
//! Proved: each element is the value at x of the polynomial of its coordinates, which stand in the order 1, x, x^2,
//! x^3; x to the degree is that element of the field below; what is embedded is a ring of its own in the larger one.
//! So a product is that of polynomials with x to the degree replaced. A prover takes `GoldilocksSquared` or
//! `BabyBearFourth` as its field of challenges, or another step by its own `Square`. An inverse is found exactly where
//! there is one; that each element but zero has one is not proved.

ghost use Rattle.std.specs.Prelude.{◌≡◌, [], ◌∷◌, get_or};
ghost use Rattle.std.proofs.Common.{ap, ap₂, refl};
ghost use Rattle.examples.specs.ExtensionFields.{IsExtensionField};
ghost use Rattle.examples.specs.ExtensionFieldLaws.{below_two, one_step_embeds, one_step_polynomial, one_step_top};
ghost use Rattle.examples.specs.ExtensionFieldLaws.{below_four, two_steps_embed, two_steps_polynomial, two_steps_top};
ghost use Rattle.examples.specs.ExtensionFieldLaws.{parts_of_four, parts_of_two};
ghost use Rattle.examples.specs.QuadraticFields.{both};
ghost use Rattle.examples.specs.Quadratics.{quadratic};

use crate::quadratic::{Eleven, Quadratic, Root, Seven, Square};
use p3_dft::{BabyBear, BasedVectorSpace, Field, Goldilocks, TwoAdicField};

/// The elements `a + b x` over Goldilocks, where `x^2 = 7`.
pub type GoldilocksSquared = Quadratic<Goldilocks, Seven>;

/// The elements `a + b x + c x^2 + d x^3` over BabyBear, where `x^4 = 11`.
pub type BabyBearFourth = Quadratic<Quadratic<BabyBear, Eleven>, Root>;

/// A field that contains F: its elements are the polynomials with coefficients in F at a root x, of fewer than
/// `DIMENSION` coefficients, and x to the `DIMENSION` is an element of F.
pub trait ExtensionField<F: TwoAdicField>: TwoAdicField + BasedVectorSpace<F> {
    // An element of F, as one of this field.
    ghost embedded: { F → Self };

    // The root.
    ghost root: { Self };

    // Its power of `DIMENSION`.
    ghost w: { F };

    /// The element of F, as one of this field.
    fn from_base(a: F) -> Self
        ensures { result ≡ embedded a };

    /// The element x.
    fn root() -> Self
        ensures { result ≡ root };

    ghost extension_law: { IsExtensionField F.Valued.own Self.Valued.own Self.BasedVectorSpace.own F.generator
        Self.generator embedded root w };

    ghost subgroups_law: { F.TWO_ADICITY ≡ Self.TWO_ADICITY };
}

impl<R: Field, W: Square<R>> BasedVectorSpace<R> for Quadratic<R, W> {
    const DIMENSION: usize = 2;

    ghost DIMENSION = { 2 };

    ghost coordinates = { λ x. x.constant ∷ x.linear ∷ [] };

    fn coordinate(&self, i: usize) -> R {
        if i == 0 { self.constant } else { self.linear }
    }

    fn from_coordinates(from: &[R]) -> Quadratic<R, W> {
        Quadratic::new(from[0], from[1])
    }

    ghost dimension_law = { λ _. refl };

    ghost coordinates_law = { λ x y same. ap₂ (λ a b. record { constant = a; linear = b; of = _ }) (parts_of_two same).0
        (parts_of_two same).1 };
}

impl<R: TwoAdicField, W: Square<R>> ExtensionField<R> for Quadratic<R, W> {
    ghost use Rattle.examples.specs.Quadratics.{embedded};

    ghost embedded = { λ a. record { constant = a; linear = R.ZERO; of = _ } };

    ghost root = { record { constant = R.ZERO; linear = R.ONE; of = _ } };

    ghost w = { W.w };

    fn from_base(a: R) -> Quadratic<R, W> {
        Quadratic::new(a, R::ZERO)
    }

    fn root() -> Quadratic<R, W> {
        Quadratic::new(R::ZERO, R::ONE)
    }

    ghost extension_law = { record {
      embed = embedded R.ring (R.value W.w);
      embeds = one_step_embeds R.ring (R.value W.w);
      base = λ a. both refl R.zero_law;
      generators = λ n. both refl R.zero_law;
      polynomial = λ y. one_step_polynomial R.ring (R.value W.w) (R.value R.ZERO) (R.value R.ONE) R.zero_law R.one_law
          (λ t. R.value (get_or (y.constant ∷ y.linear ∷ []) t R.zero));
      independent = λ y z same. below_two (λ t. R.value (get_or (y.constant ∷ y.linear ∷ []) t R.zero)
          ≡ R.value (get_or (z.constant ∷ z.linear ∷ []) t R.zero)) (ap (λ x. x.0) same) (ap (λ x. x.1) same);
      top = one_step_top R.ring (R.value W.w) (R.value R.ZERO) (R.value R.ONE) R.zero_law R.one_law;
    } };

    ghost subgroups_law = { refl };
}

impl<R: Field, W: Square<R>> BasedVectorSpace<R> for Quadratic<Quadratic<R, W>, Root> {
    const DIMENSION: usize = 4;

    ghost DIMENSION = { 4 };

    ghost coordinates = { λ x. x.constant.constant ∷ x.linear.constant ∷ x.constant.linear ∷ x.linear.linear ∷ [] };

    fn coordinate(&self, i: usize) -> R {
        match i {
            0 => self.constant.constant,
            1 => self.linear.constant,
            2 => self.constant.linear,
            _ => self.linear.linear,
        }
    }

    fn from_coordinates(from: &[R]) -> Quadratic<Quadratic<R, W>, Root> {
        Quadratic::new(
            Quadratic::new(from[0], from[2]),
            Quadratic::new(from[1], from[3]),
        )
    }

    ghost dimension_law = { λ _. refl };

    ghost coordinates_law = { λ x y same. let parts = parts_of_four same in
        ap₂ (λ a b. record { constant = a; linear = b; of = _ })
        (ap₂ (λ a b. record { constant = a; linear = b; of = _ }) parts.0.0 parts.1.0)
        (ap₂ (λ a b. record { constant = a; linear = b; of = _ }) parts.0.1 parts.1.1) };
}

impl<R: TwoAdicField, W: Square<R>> ExtensionField<R> for Quadratic<Quadratic<R, W>, Root> {
    ghost use Rattle.examples.specs.Quadratics.{embedded};

    ghost embedded = { λ a. record {
      constant = record { constant = a; linear = R.ZERO; of = _ };
      linear = record { constant = R.ZERO; linear = R.ZERO; of = _ };
      of = _;
    } };

    ghost root = { record {
      constant = record { constant = R.ZERO; linear = R.ZERO; of = _ };
      linear = record { constant = R.ONE; linear = R.ZERO; of = _ };
      of = _;
    } };

    ghost w = { W.w };

    fn from_base(a: R) -> Quadratic<Quadratic<R, W>, Root> {
        Quadratic::new(Quadratic::new(a, R::ZERO), Quadratic::new(R::ZERO, R::ZERO))
    }

    fn root() -> Quadratic<Quadratic<R, W>, Root> {
        Quadratic::new(
            Quadratic::new(R::ZERO, R::ZERO),
            Quadratic::new(R::ONE, R::ZERO),
        )
    }

    ghost extension_law = { record {
      embed = λ a. embedded (quadratic R.ring (R.value W.w)) (R.value R.ZERO, R.value R.ONE)
          (embedded R.ring (R.value W.w) a);
      embeds = two_steps_embed R.ring (R.value W.w) (R.value R.ZERO) (R.value R.ONE) R.zero_law R.one_law;
      base = λ a. both (both refl R.zero_law) (both R.zero_law R.zero_law);
      generators = λ n. both (both refl R.zero_law) (both R.zero_law R.zero_law);
      polynomial = λ y. two_steps_polynomial R.ring (R.value W.w) (R.value R.ZERO) (R.value R.ONE) R.zero_law
          R.one_law
          (λ t. R.value (get_or (y.constant.constant ∷ y.linear.constant ∷ y.constant.linear ∷ y.linear.linear ∷ [])
          t R.zero));
      independent = λ y z same. below_four
          (λ t. R.value (get_or (y.constant.constant ∷ y.linear.constant ∷ y.constant.linear ∷ y.linear.linear ∷ [])
          t R.zero)
          ≡ R.value (get_or (z.constant.constant ∷ z.linear.constant ∷ z.constant.linear ∷ z.linear.linear ∷ [])
          t R.zero))
          (ap (λ x. x.0.0) same) (ap (λ x. x.1.0) same) (ap (λ x. x.0.1) same) (ap (λ x. x.1.1) same);
      top = two_steps_top R.ring (R.value W.w) (R.value R.ZERO) (R.value R.ONE) R.zero_law R.one_law;
    } };

    ghost subgroups_law = { refl };
}
