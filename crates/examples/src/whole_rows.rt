//! Transforms of the coefficients that depend on whole rows, and the products of a call that may be refused,
//! for every field.
//!
//! Proved: which extension each transform makes, and that the products stay within the engine's bound also
//! where memory is refused.

ghost use Rattle.std.specs.Prelude.{◌≡◌, ◌+◌, ◌-◌, ◌≤◌, IfErr, IfOk, reverse};
ghost use Rattle.p3_matrix.specs.Matrix.{Matrix};
ghost use Rattle.p3_matrix.specs.Room.{WasOutOfMemory};
ghost use Rattle.p3_matrix.specs.RowMajor.{IsRowMajor, height};
ghost use Rattle.p3_matrix.specs.Cosets.{AreCoefficients, IsValues, values_of};
ghost use Rattle.p3_dft.specs.Engines.{AtLog, IsLater};
ghost use Rattle.p3_dft.specs.Extensions.{IsExtension};
ghost use Rattle.p3_dft.specs.Shapes.{FitsDft, FitsLde};
ghost use Rattle.p3_dft.specs.Transforms.{IsTransform};

use p3_dft::{DftError, Layout, Radix2Dit, RowMajorMatrix, TwoAdicField, TwoAdicSubgroupDft};

/// The extension by a transform that asks for whole rows and changes nothing.
pub fn extension_in_whole_rows<F: TwoAdicField, D: TwoAdicSubgroupDft<F>>(
    engine: &mut D,
    mat: RowMajorMatrix<F>,
    added_bits: usize,
    shift: F,
) -> Result<D::Evaluations, DftError>
    requires { FitsLde F.TWO_ADICITY (height mat) mat.width added_bits }
    ensures extension { IfOk result (λ out.
        IsExtension F.Valued.own F.generator mat added_bits (F.value shift) (D.Evaluations.natural out)) }
    ensures later { IsLater D.facts engine.old engine.new }
    ensures refused { IfErr result WasOutOfMemory }
{
    engine.coset_lde_batch_with_transform(
        mat,
        added_bits,
        shift,
        |coefficients: RowMajorMatrix<F>, _layout: Layout| -> RowMajorMatrix<F>
            requires { IsRowMajor coefficients }
            ensures { result ≡ coefficients }
        { coefficients },
    )
}

// The entries in opposite order, in rows as wide as before.
fn opposite_entries<F: TwoAdicField>(mat: RowMajorMatrix<F>) -> RowMajorMatrix<F>
    ensures width { result.width ≡ mat.width }
    ensures values { result.values ≡ reverse mat.values }
{
    let width = mat.width();
    let mut values = mat.into_values();
    values.as_mut_slice().reverse();
    RowMajorMatrix::new(values, width)
}

/// The values on a coset of the polynomials whose coefficients are those of two columns in opposite
/// order, the columns having changed places: what a transform says of the list of its entries fixes the
/// answer, as nothing stands behind the last row.
pub fn extension_of_opposite_entries<F: TwoAdicField>(
    engine: &mut Radix2Dit<F>,
    mat: RowMajorMatrix<F>,
    added_bits: usize,
    shift: F,
) -> Result<RowMajorMatrix<F>, DftError>
    requires fits { FitsLde F.TWO_ADICITY (height mat) mat.width added_bits }
    requires two { mat.width ≡ 2 }
    ensures values { IfOk result (λ out. AtLog (height mat) (λ k. (c : Matrix F.Element)
        × AreCoefficients F.ring (λ n. F.value (F.generator n)) (values_of F.Valued.own mat) k F.ring.one c
        × IsValues F.ring (λ n. F.value (F.generator n))
        (record { height = c.height; width = 2; entry = λ i j. c.entry (c.height - 1 - i) (1 - j) })
        (k + added_bits) (F.value shift) (values_of F.Valued.own out))) }
    ensures later { IsLater ⟦<Radix2Dit<F> as TwoAdicSubgroupDft<F>>⟧.facts engine.old engine.new }
    ensures refused { IfErr result WasOutOfMemory }
{
    engine.coset_lde_batch_with_transform(
        mat,
        added_bits,
        shift,
        |coefficients: RowMajorMatrix<F>, _layout: Layout| -> RowMajorMatrix<F>
            requires { coefficients.width ≡ 2 }
            ensures width { result.width ≡ 2 }
            ensures values { result.values ≡ reverse coefficients.values }
        { opposite_entries(coefficients) },
    )
}

/// A transform, which makes no more products than the engine says, whether memory is refused or not.
pub fn counted_transform<F: TwoAdicField, D: TwoAdicSubgroupDft<F>>(
    engine: &mut D,
    mat: RowMajorMatrix<F>,
) -> Result<D::Evaluations, DftError>
    requires { FitsDft F.TWO_ADICITY (height mat) mat.width }
    ensures values { IfOk result (λ out.
        IsTransform F.Valued.own F.generator mat F.ring.one (D.Evaluations.natural out)) }
    ensures cost { AtLog (height mat) (λ k. D.facts.products_made engine.new
        ≤ D.facts.products_made engine.old + D.facts.transform_products k mat.width) }
    ensures later { IsLater D.facts engine.old engine.new }
    ensures refused { IfErr result WasOutOfMemory }
{
    engine.dft_batch(mat)
}
