//! Transforms of the coefficients as one writes them, without types and clauses, for every field and engine.
//!
//! Proved: the calls may be made, since the checker sees that each closure keeps the shape; and the second answers
//! the extension.

ghost use Rattle.std.specs.Prelude.{IfErr, IfOk};
ghost use Rattle.p3_matrix.specs.Room.{WasOutOfMemory};
ghost use Rattle.p3_matrix.specs.RowMajor.{height};
ghost use Rattle.p3_dft.specs.Engines.{IsLater};
ghost use Rattle.p3_dft.specs.Extensions.{IsExtension};
ghost use Rattle.p3_dft.specs.Shapes.{FitsLde};

use p3_dft::{DftError, Products, RowMajorMatrix, TwoAdicField, TwoAdicSubgroupDft};

/// The values, on a coset of a larger subgroup, of twice the polynomials, with products that are not counted
/// as the engine's.
pub fn extension_of_doubled<F: TwoAdicField, D: TwoAdicSubgroupDft<F>>(
    engine: &mut D,
    mat: RowMajorMatrix<F>,
    added_bits: usize,
    shift: F,
) -> Result<D::Evaluations, DftError>
    requires { FitsLde F.TWO_ADICITY (height mat) mat.width added_bits }
    ensures later { IsLater D.facts engine.old engine.new }
    ensures refused { IfErr result WasOutOfMemory }
{
    engine.coset_lde_batch_with_transform(mat, added_bits, shift, |mut coefficients, _layout| {
        coefficients.scale(F::TWO, &mut Products::new());
        coefficients
    })
}

/// The extension by a transform that changes nothing.
pub fn extension_of_unchanged<F: TwoAdicField, D: TwoAdicSubgroupDft<F>>(
    engine: &mut D,
    mat: RowMajorMatrix<F>,
    added_bits: usize,
    shift: F,
) -> Result<D::Evaluations, DftError>
    requires { FitsLde F.TWO_ADICITY (height mat) mat.width added_bits }
    ensures extension { IfOk result (λ out.
        IsExtension F.Valued.own F.generator mat added_bits (F.value shift) (D.Evaluations.natural out)) }
    ensures later { IsLater D.facts engine.old engine.new }
    ensures refused { IfErr result WasOutOfMemory }
{
    engine.coset_lde_batch_with_transform(
        mat,
        added_bits,
        shift,
        |coefficients, _layout| coefficients,
    )
}
