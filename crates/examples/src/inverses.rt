//! Inverses on cosets, over a named field and over any: which shifts a client hands over, and what it
//! tests of one that comes from outside.
//!
//! Proved: each call has a shape that fits and a shift with an inverse, and so may be made; what is answered are the
//! coefficients; and there is none only where the shape does not fit or the shift has no inverse. There is no proof
//! file.

ghost use Rattle.std.specs.Prelude.{IfErr, IfOk, IfSome, IsNone};
ghost use Rattle.p3_field.specs.NamedFields.{baby_bear};
ghost use Rattle.p3_field.specs.Ring.{IsInvertible};
ghost use Rattle.p3_matrix.specs.Room.{WasOutOfMemory};
ghost use Rattle.p3_matrix.specs.RowMajor.{height};
ghost use Rattle.p3_dft.specs.Engines.{IsLater};
ghost use Rattle.p3_dft.specs.Shapes.{FitsDft};
ghost use Rattle.p3_dft.specs.Transforms.{IsInterpolation};

use p3_dft::{
    BabyBear, DftError, Field, RowMajorMatrix, TwoAdicField, TwoAdicSubgroupDft, fits_dft,
};

/// The coefficients of a matrix of values on the coset of the field's generator.
pub fn from_generator<F: TwoAdicField, D: TwoAdicSubgroupDft<F>>(
    engine: &mut D,
    values: RowMajorMatrix<F>,
) -> Result<RowMajorMatrix<F>, DftError>
    requires { FitsDft F.TWO_ADICITY (height values) values.width }
    ensures coefficients { IfOk result
        (IsInterpolation F.Valued.own F.generator values (F.value F.GENERATOR)) }
    ensures later { IsLater D.facts engine.old engine.new }
    ensures refused { IfErr result WasOutOfMemory }
{
    engine.coset_idft_batch(values, F::GENERATOR)
}

/// The coefficients of values on the coset of the generator of `BabyBear`, of a matrix of any shape: `None`
/// where it does not fit.
pub fn from_baby_bear_generator<D: TwoAdicSubgroupDft<BabyBear>>(
    engine: &mut D,
    values: RowMajorMatrix<BabyBear>,
) -> Option<Result<RowMajorMatrix<BabyBear>, DftError>>
    ensures coefficients { IfSome result (λ answer. IfOk answer (IsInterpolation baby_bear
        ⟦<BabyBear as TwoAdicField>⟧.generator values (baby_bear.value ⟦<BabyBear as Field>⟧.GENERATOR))) }
    ensures none { IsNone result → ¬ (FitsDft ⟦<BabyBear as TwoAdicField>⟧.TWO_ADICITY (height values) values.width) }
    ensures later { IsLater D.facts engine.old engine.new }
    ensures refused { IfSome result (λ answer. IfErr answer WasOutOfMemory) }
{
    if !fits_dft::<BabyBear>(values.height(), values.width()) {
        return None;
    }
    Some(engine.coset_idft_batch(values, BabyBear::invertible_generator()))
}

/// The coefficients of a matrix of values on a coset: `None` where the shift has no inverse.
pub fn from_shift<F: TwoAdicField, D: TwoAdicSubgroupDft<F>>(
    engine: &mut D,
    values: RowMajorMatrix<F>,
    shift: F,
) -> Option<Result<RowMajorMatrix<F>, DftError>>
    requires { FitsDft F.TWO_ADICITY (height values) values.width }
    ensures coefficients { IfSome result (λ answer. IfOk answer (λ out.
        IsInterpolation F.Valued.own F.generator values (F.value shift) out)) }
    ensures none { IsNone result → ¬ (IsInvertible F.ring (F.value shift)) }
    ensures later { IsLater D.facts engine.old engine.new }
    ensures refused { IfSome result (λ answer. IfErr answer WasOutOfMemory) }
{
    if shift.try_inverse().is_none() {
        return None;
    }
    Some(engine.coset_idft_batch(values, shift))
}

/// Over `BabyBear`, of a matrix of any shape: `None` where the shift has no inverse or the shape does not fit.
pub fn from_baby_bear_shift<D: TwoAdicSubgroupDft<BabyBear>>(
    engine: &mut D,
    values: RowMajorMatrix<BabyBear>,
    shift: BabyBear,
) -> Option<Result<RowMajorMatrix<BabyBear>, DftError>>
    ensures coefficients { IfSome result (λ answer. IfOk answer (IsInterpolation baby_bear
        ⟦<BabyBear as TwoAdicField>⟧.generator values (baby_bear.value shift))) }
    ensures none { IsNone result → ¬ (FitsDft ⟦<BabyBear as TwoAdicField>⟧.TWO_ADICITY (height values) values.width
        × IsInvertible baby_bear.ring (baby_bear.value shift)) }
    ensures later { IsLater D.facts engine.old engine.new }
    ensures refused { IfSome result (λ answer. IfErr answer WasOutOfMemory) }
{
    if shift.try_inverse().is_none() || !fits_dft::<BabyBear>(values.height(), values.width()) {
        return None;
    }
    Some(engine.coset_idft_batch(values, shift))
}
