//! Answers that are at hand: where `==` tells that the input is one that was answered before, a copy of that answer is
//! given.
//!
//! Proved: what is answered are the coefficients, or the extension, of the input, though it was found for another
//! matrix. No clause says that no transform is made then.

ghost use Rattle.std.specs.Prelude.{IfErr, IfOk};
ghost use Rattle.p3_matrix.specs.Room.{WasOutOfMemory};
ghost use Rattle.p3_matrix.specs.RowMajor.{height};
ghost use Rattle.p3_dft.specs.Engines.{IsLater};
ghost use Rattle.p3_dft.specs.Extensions.{IsExtension};
ghost use Rattle.p3_dft.specs.Shapes.{FitsDft, FitsLde};
ghost use Rattle.p3_dft.specs.Transforms.{IsInterpolation};

use p3_dft::{DftError, Evaluations, RowMajorMatrix, TwoAdicField, TwoAdicSubgroupDft};

/// The coefficients of values on the subgroup, where those of other values are known.
pub fn inverse_or_known<F: TwoAdicField, D: TwoAdicSubgroupDft<F>>(
    engine: &mut D,
    values: RowMajorMatrix<F>,
    known: &RowMajorMatrix<F>,
    coefficients: &RowMajorMatrix<F>,
) -> Result<RowMajorMatrix<F>, DftError>
    requires fits { FitsDft F.TWO_ADICITY (height values) values.width }
    requires known { IsInterpolation F.Valued.own F.generator known.now F.ring.one coefficients.now }
    ensures coefficients { IfOk result (IsInterpolation F.Valued.own F.generator values F.ring.one) }
    ensures later { IsLater D.facts engine.old engine.new }
    ensures refused { IfErr result WasOutOfMemory }
{
    if *known == values {
        return Ok(coefficients.try_clone()?);
    }
    engine.idft_batch(values)
}

/// The extension of values on a coset, where that of other values by as many bits on this coset is known.
pub fn extension_or_known<F: TwoAdicField, D: TwoAdicSubgroupDft<F>>(
    engine: &mut D,
    values: RowMajorMatrix<F>,
    added_bits: usize,
    shift: F,
    known: &RowMajorMatrix<F>,
    extension: &RowMajorMatrix<F>,
) -> Result<RowMajorMatrix<F>, DftError>
    requires fits { FitsLde F.TWO_ADICITY (height values) values.width added_bits }
    requires known { IsExtension F.Valued.own F.generator known.now added_bits (F.value shift) extension.now }
    ensures extension { IfOk result (IsExtension F.Valued.own F.generator values added_bits (F.value shift)) }
    ensures later { IsLater D.facts engine.old engine.new }
    ensures refused { IfErr result WasOutOfMemory }
{
    if *known == values {
        return Ok(extension.try_clone()?);
    }
    let extended = engine.coset_lde_batch(values, added_bits, shift)?;
    Ok(extended.to_row_major_matrix())
}
