//! Rows in natural order of a matrix that lies in bit reversed order, for every field and over a named one.
//!
//! Proved, with no proof file: each is the row of the extension that it is asked for.

ghost use Rattle.std.specs.Prelude.{◌≡◌, ◌<◌, ◌≤◌, IfErr, IfOk, IfSome, IsNone};
ghost use Rattle.std.specs.Mem.{type_size};
ghost use Rattle.p3_matrix.specs.BitOrder.{reversed_rows};
ghost use Rattle.p3_matrix.specs.Room.{IsWithin, WasOutOfMemory};
ghost use Rattle.p3_matrix.specs.RowMajor.{height, row};
ghost use Rattle.p3_dft.specs.Engines.{IsLater};
ghost use Rattle.p3_dft.specs.Extensions.{IsExtension};
ghost use Rattle.p3_dft.specs.Shapes.{FitsLde};

use p3_dft::{
    BabyBear, BitReversedMatrixView, DftError, Field, Radix2DitParallel, RowMajorMatrix,
    TwoAdicField, TwoAdicSubgroupDft, growth,
};

/// Row i of a matrix that lies in bit reversed order, in memory of its own: that of the matrix in natural
/// order.
pub fn opened_row<F: Field>(
    rows: &BitReversedMatrixView<RowMajorMatrix<F>>,
    i: usize,
) -> Result<Vec<F>, DftError>
    requires { i < height rows.now.physical }
    ensures opened { IfOk result (λ opened. opened.items ≡ row (reversed_rows rows.now.bits rows.now.physical) i) }
    ensures refused { IfErr result (IsWithin (type_size F.row) rows.now.physical.width) }
{
    Ok(growth::from_slice(*rows.inner().allocator(), rows.row(i))?)
}

/// A row of an extension over a named field, whose elements take four bytes, by its natural number.
pub fn opened_row_of_baby_bears(
    rows: &BitReversedMatrixView<RowMajorMatrix<BabyBear>>,
    i: usize,
) -> Result<Vec<BabyBear>, DftError>
    requires { i < height rows.now.physical }
    ensures opened { IfOk result (λ opened. opened.items ≡ row (reversed_rows rows.now.bits rows.now.physical) i) }
    ensures refused { IfErr result (IsWithin 4 rows.now.physical.width) }
{
    Ok(growth::from_slice(*rows.inner().allocator(), rows.row(i))?)
}

/// An extension whose rows lie in bit reversed order, with its row i if it has one: row i of the extension in
/// natural order, which holds the values at point i of the coset.
pub fn opened_extension<F: TwoAdicField>(
    engine: &mut Radix2DitParallel<F>,
    mat: RowMajorMatrix<F>,
    added_bits: usize,
    shift: F,
    i: usize,
) -> Result<(BitReversedMatrixView<RowMajorMatrix<F>>, Option<Vec<F>>), DftError>
    requires { FitsLde F.TWO_ADICITY (height mat) mat.width added_bits }
    ensures extension { IfOk result (λ p.
        IsExtension F.Valued.own F.generator mat added_bits (F.value shift) (reversed_rows p.0.bits p.0.physical)) }
    ensures opened { IfOk result (λ p.
        IfSome p.1 (λ opened. opened.items ≡ row (reversed_rows p.0.bits p.0.physical) i)) }
    ensures none { IfOk result (λ p. IsNone p.1 → height p.0.physical ≤ i) }
    ensures later { IsLater ⟦<Radix2DitParallel<F> as TwoAdicSubgroupDft<F>>⟧.facts engine.old engine.new }
    ensures refused { IfErr result WasOutOfMemory }
{
    let extension = engine.coset_lde_batch(mat, added_bits, shift)?;
    if i >= extension.height() {
        return Ok((extension, None));
    }
    let opened = opened_row(&extension, i)?;
    Ok((extension, Some(opened)))
}
