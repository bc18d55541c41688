//! What an extension keeps of its input, for every field and engine.
//!
//! Proved: on the subgroup it has the input's rows, and by no bits it is the input; its coefficients are those of the
//! input, with rows of zeros below; and the extension of values on the coset of one shift by another has the values on
//! the coset of their product.

ghost use Rattle.std.specs.Prelude.{◌≡◌, ℕ, ◌+◌, ◌*◌, ◌^◌, ◌<◌, ◌≤◌, IfErr, IfOk};
ghost use Rattle.p3_field.specs.Ring.{IsInvertible};
ghost use Rattle.p3_matrix.specs.Combinations.{lengthened};
ghost use Rattle.p3_matrix.specs.Cosets.{IsValues, values_of};
ghost use Rattle.p3_matrix.specs.Matrix.{Same};
ghost use Rattle.p3_matrix.specs.Room.{WasOutOfMemory};
ghost use Rattle.p3_matrix.specs.RowMajor.{height};
ghost use Rattle.p3_dft.specs.Engines.{AtLog, IsLater};
ghost use Rattle.p3_dft.specs.Extensions.{IsExtension};
ghost use Rattle.p3_dft.specs.Shapes.{FitsLde};
ghost use Rattle.p3_dft.specs.Transforms.{IsInterpolation};

use p3_dft::{DftError, Evaluations, RowMajorMatrix, TwoAdicField, TwoAdicSubgroupDft};

/// The extension on the subgroup by no bits, which is the input.
pub fn extension_by_no_bits<F: TwoAdicField, D: TwoAdicSubgroupDft<F>>(
    engine: &mut D,
    mat: RowMajorMatrix<F>,
) -> Result<D::Evaluations, DftError>
    requires { FitsLde F.TWO_ADICITY (height mat) mat.width 0 }
    ensures same { IfOk result (λ out. Same (values_of F.Valued.own (D.Evaluations.natural out))
        (values_of F.Valued.own mat)) }
    ensures later { IsLater D.facts engine.old engine.new }
    ensures refused { IfErr result WasOutOfMemory }
{
    engine.lde_batch(mat, 0)
}

/// The extension on the coset of one, which is the subgroup.
pub fn extension_on_the_subgroup<F: TwoAdicField, D: TwoAdicSubgroupDft<F>>(
    engine: &mut D,
    mat: RowMajorMatrix<F>,
    added_bits: usize,
) -> Result<D::Evaluations, DftError>
    requires { FitsLde F.TWO_ADICITY (height mat) mat.width added_bits }
    ensures values { IfOk result (λ out. IsExtension F.Valued.own F.generator mat added_bits F.ring.one
        (D.Evaluations.natural out)) }
    ensures later { IsLater D.facts engine.old engine.new }
    ensures refused { IfErr result WasOutOfMemory }
{
    engine.coset_lde_batch(mat, added_bits, F::ONE)
}

/// The extension on the subgroup, in which the input's rows stand `2^added_bits` apart.
pub fn extension_with_the_rows<F: TwoAdicField, D: TwoAdicSubgroupDft<F>>(
    engine: &mut D,
    mat: RowMajorMatrix<F>,
    added_bits: usize,
) -> Result<D::Evaluations, DftError>
    requires { FitsLde F.TWO_ADICITY (height mat) mat.width added_bits }
    ensures rows { IfOk result (λ out. (i j : ℕ) → i < height mat → j < mat.width
        → (values_of F.Valued.own (D.Evaluations.natural out)).entry (i * 2 ^ added_bits) j
        ≡ (values_of F.Valued.own mat).entry i j) }
    ensures later { IsLater D.facts engine.old engine.new }
    ensures refused { IfErr result WasOutOfMemory }
{
    engine.lde_batch(mat, added_bits)
}

/// The coefficients of the input, and the extension, which has their polynomials' values.
pub fn coefficients_and_extension<F: TwoAdicField, D: TwoAdicSubgroupDft<F>>(
    engine: &mut D,
    mat: RowMajorMatrix<F>,
    added_bits: usize,
    shift: F,
) -> Result<(RowMajorMatrix<F>, D::Evaluations), DftError>
    requires { FitsLde F.TWO_ADICITY (height mat) mat.width added_bits }
    ensures coefficients { IfOk result (λ out. IsInterpolation F.Valued.own F.generator mat F.ring.one out.0) }
    ensures values { IfOk result (λ out. AtLog (height mat) (λ k. IsValues F.ring (λ n. F.value (F.generator n))
        (values_of F.Valued.own out.0) (k + added_bits) (F.value shift)
        (values_of F.Valued.own (D.Evaluations.natural out.1)))) }
    ensures later { IsLater D.facts engine.old engine.new }
    ensures refused { IfErr result WasOutOfMemory }
{
    let coefficients = engine.idft_batch(mat.try_clone()?)?;
    let values = engine.coset_lde_batch(mat, added_bits, shift)?;
    Ok((coefficients, values))
}

/// The coefficients of the input and of its extension: these, with rows of zeros below.
pub fn coefficients_of_both<F: TwoAdicField, D: TwoAdicSubgroupDft<F>>(
    engine: &mut D,
    mat: RowMajorMatrix<F>,
    added_bits: usize,
    shift: F,
) -> Result<(RowMajorMatrix<F>, RowMajorMatrix<F>), DftError>
    requires fits { FitsLde F.TWO_ADICITY (height mat) mat.width added_bits }
    requires invertible { IsInvertible F.ring (F.value shift) }
    ensures coefficients { IfOk result (λ out. IsInterpolation F.Valued.own F.generator mat F.ring.one out.0) }
    ensures zeros { IfOk result (λ out. Same (values_of F.Valued.own out.1)
        (lengthened F.ring.zero (height mat * 2 ^ added_bits) (values_of F.Valued.own out.0))) }
    ensures rows { IfOk result (λ out. (i j : ℕ) → i < height mat → j < mat.width
        → (values_of F.Valued.own out.1).entry i j ≡ (values_of F.Valued.own out.0).entry i j) }
    ensures later { IsLater D.facts engine.old engine.new }
    ensures refused { IfErr result WasOutOfMemory }
{
    let coefficients = engine.idft_batch(mat.try_clone()?)?;
    let values = engine.coset_lde_batch(mat, added_bits, shift)?;
    let back = engine.coset_idft_batch(values.to_row_major_matrix(), shift)?;
    Ok((coefficients, back))
}

/// The coefficients of an extension: its degree is below the input's height.
pub fn coefficients_of_an_extension<F: TwoAdicField, D: TwoAdicSubgroupDft<F>>(
    engine: &mut D,
    mat: RowMajorMatrix<F>,
    added_bits: usize,
    shift: F,
) -> Result<RowMajorMatrix<F>, DftError>
    requires fits { FitsLde F.TWO_ADICITY (height mat) mat.width added_bits }
    requires invertible { IsInvertible F.ring (F.value shift) }
    ensures height { IfOk result (λ back. AtLog (height mat) (λ k. height back ≡ 2 ^ (k + added_bits))) }
    ensures zeros { IfOk result (λ back. (i j : ℕ) → height mat ≤ i → i < height back → j < back.width
        → (values_of F.Valued.own back).entry i j ≡ F.ring.zero) }
    ensures later { IsLater D.facts engine.old engine.new }
    ensures refused { IfErr result WasOutOfMemory }
{
    let values = engine.coset_lde_batch(mat, added_bits, shift)?;
    engine.coset_idft_batch(values.to_row_major_matrix(), shift)
}

/// The extension of values on the coset of one shift by another: values on the coset of their product.
pub fn extension_from_a_coset<F: TwoAdicField, D: TwoAdicSubgroupDft<F>>(
    engine: &mut D,
    coefficients: RowMajorMatrix<F>,
    added_bits: usize,
    first: F,
    second: F,
) -> Result<D::Evaluations, DftError>
    requires { FitsLde F.TWO_ADICITY (height coefficients) coefficients.width added_bits }
    ensures values { IfOk result (λ out.
        AtLog (height coefficients) (λ k. IsValues F.ring (λ n. F.value (F.generator n))
        (values_of F.Valued.own coefficients) (k + added_bits) (F.ring.mul (F.value first) (F.value second))
        (values_of F.Valued.own (D.Evaluations.natural out)))) }
    ensures later { IsLater D.facts engine.old engine.new }
    ensures refused { IfErr result WasOutOfMemory }
{
    let values = engine.coset_dft_batch(coefficients, first)?;
    engine.coset_lde_batch(values.to_row_major_matrix(), added_bits, second)
}
