//! Sums of multiples of matrices, and single columns, for every field and engine.
//!
//! Proved: a transform, an inverse and an extension of a sum of multiples are that sum of the transforms, inverses and
//! extensions; and a column alone becomes that column of what the whole matrix becomes.

ghost use Rattle.std.specs.Prelude.{◌<◌, IfErr, IfOk};
ghost use Rattle.p3_field.specs.Ring.{IsInvertible};
ghost use Rattle.p3_matrix.specs.Combinations.{alone, combination};
ghost use Rattle.p3_matrix.specs.Cosets.{values_of};
ghost use Rattle.p3_matrix.specs.Matrix.{Same};
ghost use Rattle.p3_matrix.specs.Room.{WasOutOfMemory};
ghost use Rattle.p3_matrix.specs.RowMajor.{HasShapeOf, height};
ghost use Rattle.p3_dft.specs.Engines.{IsLater};
ghost use Rattle.p3_dft.specs.Extensions.{IsExtension};
ghost use Rattle.p3_dft.specs.Shapes.{FitsDft, FitsLde};
ghost use Rattle.p3_dft.specs.Transforms.{IsInterpolation, IsTransform};

use p3_dft::{DftError, Evaluations, RowMajorMatrix, TwoAdicField, TwoAdicSubgroupDft};

/// Two matrices, and one that is a sum of multiples of them.
#[derive(Drop)]
pub struct SumOfMultiples<F> {
    /// The first.
    pub first: RowMajorMatrix<F>,
    /// The second.
    pub second: RowMajorMatrix<F>,
    /// So many times the first and so many times the second, entry by entry.
    pub sum: RowMajorMatrix<F>,
}

/// The transforms of two matrices and of `a` times the first and `b` times the second.
pub fn transforms_of_a_sum<F: TwoAdicField, D: TwoAdicSubgroupDft<F>>(
    engine: &mut D,
    given: SumOfMultiples<F>,
    a: F,
    b: F,
    shift: F,
) -> Result<SumOfMultiples<F>, DftError>
    requires fits { FitsDft F.TWO_ADICITY (height given.first) given.first.width }
    requires shape { HasShapeOf given.second given.first }
    requires sum { Same (values_of F.Valued.own given.sum)
        (combination F.ring (F.value a) (values_of F.Valued.own given.first) (F.value b)
        (values_of F.Valued.own given.second)) }
    ensures first { IfOk result (λ out. IsTransform F.Valued.own F.generator given.first (F.value shift) out.first) }
    ensures second { IfOk result (λ out. IsTransform F.Valued.own F.generator given.second (F.value shift) out.second) }
    ensures sum { IfOk result (λ out. Same (values_of F.Valued.own out.sum)
        (combination F.ring (F.value a) (values_of F.Valued.own out.first) (F.value b)
        (values_of F.Valued.own out.second))) }
    ensures later { IsLater D.facts engine.old engine.new }
    ensures refused { IfErr result WasOutOfMemory }
{
    let first = engine
        .coset_dft_batch(given.first, shift)?
        .to_row_major_matrix();
    let second = engine
        .coset_dft_batch(given.second, shift)?
        .to_row_major_matrix();
    let sum = engine
        .coset_dft_batch(given.sum, shift)?
        .to_row_major_matrix();
    Ok(SumOfMultiples { first, second, sum })
}

/// The inverses of two matrices and of `a` times the first and `b` times the second.
pub fn inverses_of_a_sum<F: TwoAdicField, D: TwoAdicSubgroupDft<F>>(
    engine: &mut D,
    given: SumOfMultiples<F>,
    a: F,
    b: F,
) -> Result<SumOfMultiples<F>, DftError>
    requires fits { FitsDft F.TWO_ADICITY (height given.first) given.first.width }
    requires shape { HasShapeOf given.second given.first }
    requires sum { Same (values_of F.Valued.own given.sum)
        (combination F.ring (F.value a) (values_of F.Valued.own given.first) (F.value b)
        (values_of F.Valued.own given.second)) }
    ensures first { IfOk result (λ out. IsInterpolation F.Valued.own F.generator given.first F.ring.one out.first) }
    ensures second { IfOk result (λ out. IsInterpolation F.Valued.own F.generator given.second F.ring.one out.second) }
    ensures sum { IfOk result (λ out. Same (values_of F.Valued.own out.sum)
        (combination F.ring (F.value a) (values_of F.Valued.own out.first) (F.value b)
        (values_of F.Valued.own out.second))) }
    ensures later { IsLater D.facts engine.old engine.new }
    ensures refused { IfErr result WasOutOfMemory }
{
    let first = engine.idft_batch(given.first)?;
    let second = engine.idft_batch(given.second)?;
    let sum = engine.idft_batch(given.sum)?;
    Ok(SumOfMultiples { first, second, sum })
}

/// The extensions of two matrices and of `a` times the first and `b` times the second.
pub fn extensions_of_a_sum<F: TwoAdicField, D: TwoAdicSubgroupDft<F>>(
    engine: &mut D,
    given: SumOfMultiples<F>,
    a: F,
    b: F,
    added_bits: usize,
    shift: F,
) -> Result<SumOfMultiples<F>, DftError>
    requires fits { FitsLde F.TWO_ADICITY (height given.first) given.first.width added_bits }
    requires shape { HasShapeOf given.second given.first }
    requires sum { Same (values_of F.Valued.own given.sum)
        (combination F.ring (F.value a) (values_of F.Valued.own given.first) (F.value b)
        (values_of F.Valued.own given.second)) }
    ensures first { IfOk result (λ out.
        IsExtension F.Valued.own F.generator given.first added_bits (F.value shift) out.first) }
    ensures second { IfOk result (λ out.
        IsExtension F.Valued.own F.generator given.second added_bits (F.value shift) out.second) }
    ensures sum { IfOk result (λ out. Same (values_of F.Valued.own out.sum)
        (combination F.ring (F.value a) (values_of F.Valued.own out.first) (F.value b)
        (values_of F.Valued.own out.second))) }
    ensures later { IsLater D.facts engine.old engine.new }
    ensures refused { IfErr result WasOutOfMemory }
{
    let first = engine
        .coset_lde_batch(given.first, added_bits, shift)?
        .to_row_major_matrix();
    let second = engine
        .coset_lde_batch(given.second, added_bits, shift)?
        .to_row_major_matrix();
    let sum = engine
        .coset_lde_batch(given.sum, added_bits, shift)?
        .to_row_major_matrix();
    Ok(SumOfMultiples { first, second, sum })
}

/// The transforms of a matrix and of its column j alone.
pub fn transforms_of_a_column<F: TwoAdicField, D: TwoAdicSubgroupDft<F>>(
    engine: &mut D,
    mat: RowMajorMatrix<F>,
    column: RowMajorMatrix<F>,
    j: usize,
    shift: F,
) -> Result<(RowMajorMatrix<F>, RowMajorMatrix<F>), DftError>
    requires fits { FitsDft F.TWO_ADICITY (height mat) mat.width }
    requires inside { j < mat.width }
    requires column { Same (values_of F.Valued.own column) (alone j (values_of F.Valued.own mat)) }
    ensures whole { IfOk result (λ out. IsTransform F.Valued.own F.generator mat (F.value shift) out.0) }
    ensures column { IfOk result (λ out. Same (values_of F.Valued.own out.1) (alone j (values_of F.Valued.own out.0))) }
    ensures later { IsLater D.facts engine.old engine.new }
    ensures refused { IfErr result WasOutOfMemory }
{
    let whole = engine.coset_dft_batch(mat, shift)?.to_row_major_matrix();
    let one = engine.coset_dft_batch(column, shift)?.to_row_major_matrix();
    Ok((whole, one))
}

/// The inverses of a matrix and of its column j alone.
pub fn inverses_of_a_column<F: TwoAdicField, D: TwoAdicSubgroupDft<F>>(
    engine: &mut D,
    mat: RowMajorMatrix<F>,
    column: RowMajorMatrix<F>,
    j: usize,
    shift: F,
) -> Result<(RowMajorMatrix<F>, RowMajorMatrix<F>), DftError>
    requires fits { FitsDft F.TWO_ADICITY (height mat) mat.width }
    requires invertible { IsInvertible F.ring (F.value shift) }
    requires inside { j < mat.width }
    requires column { Same (values_of F.Valued.own column) (alone j (values_of F.Valued.own mat)) }
    ensures whole { IfOk result (λ out. IsInterpolation F.Valued.own F.generator mat (F.value shift) out.0) }
    ensures column { IfOk result (λ out. Same (values_of F.Valued.own out.1) (alone j (values_of F.Valued.own out.0))) }
    ensures later { IsLater D.facts engine.old engine.new }
    ensures refused { IfErr result WasOutOfMemory }
{
    let whole = engine.coset_idft_batch(mat, shift)?;
    let one = engine.coset_idft_batch(column, shift)?;
    Ok((whole, one))
}

/// The extensions of a matrix and of its column j alone.
pub fn extensions_of_a_column<F: TwoAdicField, D: TwoAdicSubgroupDft<F>>(
    engine: &mut D,
    mat: RowMajorMatrix<F>,
    column: RowMajorMatrix<F>,
    j: usize,
    added_bits: usize,
) -> Result<(RowMajorMatrix<F>, RowMajorMatrix<F>), DftError>
    requires fits { FitsLde F.TWO_ADICITY (height mat) mat.width added_bits }
    requires inside { j < mat.width }
    requires column { Same (values_of F.Valued.own column) (alone j (values_of F.Valued.own mat)) }
    ensures whole { IfOk result (λ out. IsExtension F.Valued.own F.generator mat added_bits F.ring.one out.0) }
    ensures column { IfOk result (λ out. Same (values_of F.Valued.own out.1) (alone j (values_of F.Valued.own out.0))) }
    ensures later { IsLater D.facts engine.old engine.new }
    ensures refused { IfErr result WasOutOfMemory }
{
    let whole = engine.lde_batch(mat, added_bits)?.to_row_major_matrix();
    let one = engine.lde_batch(column, added_bits)?.to_row_major_matrix();
    Ok((whole, one))
}
