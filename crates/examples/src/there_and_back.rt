//! The values of polynomials on a coset, and a matrix that is transformed there and back, for every field and
//! engine.
//!
//! Proved: the values are the polynomials', which needs no proof file, and entry by entry those at the points of the
//! coset; what comes back is the matrix, whichever way was first; and the coset of one is the subgroup.

ghost use Rattle.std.specs.Prelude.{◌≡◌, ℕ, ◌<◌, IfErr, IfOk, get_or, length, map, vec_len};
ghost use Rattle.p3_field.specs.Ring.{IsInvertible};
ghost use Rattle.p3_matrix.specs.Matrix.{Same};
ghost use Rattle.p3_matrix.specs.Polynomials.{value};
ghost use Rattle.p3_matrix.specs.Room.{WasOutOfMemory};
ghost use Rattle.p3_matrix.specs.RowMajor.{height};
ghost use Rattle.p3_dft.specs.Engines.{AtLog, IsLater};
ghost use Rattle.p3_dft.specs.Shapes.{FitsDft};
ghost use Rattle.p3_dft.specs.Transforms.{IsInterpolation, IsTransform};
ghost use Rattle.p3_matrix.specs.Cosets.{point, values_of};

use p3_dft::{DftError, Evaluations, RowMajorMatrix, TwoAdicField, TwoAdicSubgroupDft};

/// The values of polynomials, whose coefficients are the columns of the matrix, on a coset.
pub fn values_on_a_coset<F: TwoAdicField, D: TwoAdicSubgroupDft<F>>(
    engine: &mut D,
    coefficients: RowMajorMatrix<F>,
    shift: F,
) -> Result<D::Evaluations, DftError>
    requires { FitsDft F.TWO_ADICITY (height coefficients) coefficients.width }
    ensures values { IfOk result (λ out.
        IsTransform F.Valued.own F.generator coefficients (F.value shift) (D.Evaluations.natural out)) }
    ensures later { IsLater D.facts engine.old engine.new }
    ensures refused { IfErr result WasOutOfMemory }
{
    engine.coset_dft_batch(coefficients, shift)
}

/// The inverse of a transform is the matrix, where both are given one shift.
pub fn there_and_back<F: TwoAdicField, D: TwoAdicSubgroupDft<F>>(
    engine: &mut D,
    mat: RowMajorMatrix<F>,
    shift: F,
) -> Result<RowMajorMatrix<F>, DftError>
    requires fits { FitsDft F.TWO_ADICITY (height mat) mat.width }
    requires invertible { IsInvertible F.ring (F.value shift) }
    ensures same { IfOk result (λ back. Same (values_of F.Valued.own back) (values_of F.Valued.own mat)) }
    ensures later { IsLater D.facts engine.old engine.new }
    ensures refused { IfErr result WasOutOfMemory }
{
    let values = engine.coset_dft_batch(mat, shift)?;
    engine.coset_idft_batch(values.to_row_major_matrix(), shift)
}

/// The transform of an inverse is the matrix, where both are given one shift.
pub fn back_and_there<F: TwoAdicField, D: TwoAdicSubgroupDft<F>>(
    engine: &mut D,
    mat: RowMajorMatrix<F>,
    shift: F,
) -> Result<D::Evaluations, DftError>
    requires fits { FitsDft F.TWO_ADICITY (height mat) mat.width }
    requires invertible { IsInvertible F.ring (F.value shift) }
    ensures same { IfOk result (λ there. Same (values_of F.Valued.own (D.Evaluations.natural there))
        (values_of F.Valued.own mat)) }
    ensures later { IsLater D.facts engine.old engine.new }
    ensures refused { IfErr result WasOutOfMemory }
{
    let coefficients = engine.coset_idft_batch(mat, shift)?;
    engine.coset_dft_batch(coefficients, shift)
}

/// The values of one polynomial: entry i is its value at point i of the coset.
pub fn values_at_points<F: TwoAdicField, D: TwoAdicSubgroupDft<F>>(
    engine: &mut D,
    coefficients: Vec<F>,
    shift: F,
) -> Result<Vec<F>, DftError>
    requires { FitsDft F.TWO_ADICITY (vec_len coefficients) 1 }
    ensures long { IfOk result (λ out. length out.items ≡ length coefficients.items) }
    ensures values { IfOk result (λ out. AtLog (length coefficients.items) (λ k.
        (i : ℕ) → i < length coefficients.items
        → F.value (get_or out.items i F.zero)
        ≡ value F.ring (map F.value coefficients.items)
        (point F.ring (λ n. F.value (F.generator n)) k (F.value shift) i))) }
    ensures later { IsLater D.facts engine.old engine.new }
    ensures refused { IfErr result WasOutOfMemory }
{
    engine.coset_dft(coefficients, shift)
}

/// The values on the coset of one.
pub fn values_on_the_coset_of_one<F: TwoAdicField, D: TwoAdicSubgroupDft<F>>(
    engine: &mut D,
    mat: RowMajorMatrix<F>,
) -> Result<D::Evaluations, DftError>
    requires { FitsDft F.TWO_ADICITY (height mat) mat.width }
    ensures values { IfOk result (λ out.
        IsTransform F.Valued.own F.generator mat F.ring.one (D.Evaluations.natural out)) }
    ensures later { IsLater D.facts engine.old engine.new }
    ensures refused { IfErr result WasOutOfMemory }
{
    engine.coset_dft_batch(mat, F::ONE)
}

/// The coefficients of values on the coset of one.
pub fn coefficients_on_the_coset_of_one<F: TwoAdicField, D: TwoAdicSubgroupDft<F>>(
    engine: &mut D,
    mat: RowMajorMatrix<F>,
) -> Result<RowMajorMatrix<F>, DftError>
    requires { FitsDft F.TWO_ADICITY (height mat) mat.width }
    ensures coefficients { IfOk result (λ back. IsInterpolation F.Valued.own F.generator mat F.ring.one back) }
    ensures later { IsLater D.facts engine.old engine.new }
    ensures refused { IfErr result WasOutOfMemory }
{
    engine.coset_idft_batch(mat, F::ONE)
}
