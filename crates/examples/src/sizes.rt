//! What a test of a shape tells, and an extension that is published with no transform, over any field and
//! over a named one.
//!
//! Proved: behind the tests the sizes are counted by a `usize`, a vector of so many entries makes a matrix
//! that can be transformed, there is none only where the shape does not fit, what is published is the extension, and
//! the height's logarithm has a generator. That alone has a proof file.

ghost use Rattle.std.specs.Prelude.{◌≡◌, ◌*◌, ◌^◌, ◌<◌, ◌≤◌, IfErr, IfOk, IfSome, IsNone, vec_capacity};
ghost use Rattle.std.specs.Mem.{type_size};
ghost use Rattle.p3_matrix.specs.BitOrder.{reversed_rows};
ghost use Rattle.p3_matrix.specs.Room.{IsWithin, WasOutOfMemory};
ghost use Rattle.p3_matrix.specs.RowMajor.{height};
ghost use Rattle.p3_dft.specs.Engines.{IsLater};
ghost use Rattle.p3_dft.specs.Extensions.{IsExtension};
ghost use Rattle.p3_dft.specs.Shapes.{FitsDft, FitsLde};

use p3_dft::{
    BabyBear, BitReversedMatrixView, BlockLimit, DftError, Field, RowMajorMatrix, TwoAdicField,
    TwoAdicSubgroupDft, extended_height, fits_dft, fits_lde, growth,
};
use std::alloc::Global;

/// A matrix of zeros of so many rows and columns, which can be transformed: `None` where it does not fit.
pub fn zeros<F: TwoAdicField>(
    alloc: Global,
    rows: usize,
    columns: usize,
) -> Result<Option<RowMajorMatrix<F>>, DftError>
    ensures fits { IfOk result (λ made. IfSome made (λ mat. FitsDft F.TWO_ADICITY (height mat) mat.width)) }
    ensures shape { IfOk result (λ made. IfSome made (λ mat. (height mat ≡ rows) × (mat.width ≡ columns))) }
    ensures none { IfOk result (λ made. IsNone made → ¬ (FitsDft F.TWO_ADICITY rows columns)) }
    ensures refused { IfErr result WasOutOfMemory }
{
    if !fits_dft::<F>(rows, columns) {
        return Ok(None);
    }
    Ok(Some(filled(alloc, F::ZERO, rows, columns)?))
}

// A matrix of one element.
fn filled<T: Copy>(
    alloc: Global,
    element: T,
    rows: usize,
    columns: usize,
) -> Result<RowMajorMatrix<T>, DftError>
    requires width { 1 ≤ columns }
    requires counted { rows * columns < 2 ^ 64 }
    ensures height { IfOk result (λ mat. height mat ≡ rows) }
    ensures width { IfOk result (λ mat. mat.width ≡ columns) }
    ensures refused { IfErr result (IsWithin (type_size T.row) (rows * columns)) }
{
    let mut values = Vec::new(alloc);
    growth::resize(&mut values, rows * columns, element)?;
    Ok(RowMajorMatrix::new(values, columns))
}

/// Room for all entries of an extension: `None` where it does not fit.
pub fn room_for_extension<F: TwoAdicField>(
    mat: &RowMajorMatrix<F>,
    added_bits: usize,
) -> Result<Option<Vec<F>>, DftError>
    ensures room { IfOk result (λ found. IfSome found (λ v.
        (height mat.now * 2 ^ added_bits) * mat.now.width ≤ vec_capacity v)) }
    ensures none { IfOk result (λ found. IsNone found
        → ¬ (FitsLde F.TWO_ADICITY (height mat.now) mat.now.width added_bits)) }
    ensures refused { IfErr result
        (IsWithin (type_size F.row) ((height mat.now * 2 ^ added_bits) * mat.now.width)) }
{
    if !fits_lde::<F>(mat.height(), mat.width(), added_bits) {
        return Ok(None);
    }
    let rows = extended_height::<F>(mat.height(), mat.width(), added_bits);
    let room = growth::with_capacity(*mat.allocator(), rows * mat.width())?;
    Ok(Some(room))
}

/// An extension that has at most so many blocks, which no transform changed: `None` where it has more, or
/// memory was refused.
pub fn extension_within<F: TwoAdicField, D: TwoAdicSubgroupDft<F>>(
    engine: &mut D,
    mat: RowMajorMatrix<F>,
    added_bits: usize,
    shift: F,
    limit: usize,
) -> Option<BitReversedMatrixView<RowMajorMatrix<F>>>
    requires { FitsLde F.TWO_ADICITY (height mat) mat.width added_bits }
    ensures extension { IfSome result (λ out.
        IsExtension F.Valued.own F.generator mat added_bits (F.value shift) (reversed_rows out.bits out.physical)) }
    ensures later { IsLater D.facts engine.old engine.new }
{
    match engine.coset_lde_batch_in_blocks(mat, added_bits, shift, |_rows| BlockLimit::new(limit)) {
        Ok((out, _taken)) => Some(out),
        Err(_) => None,
    }
}

/// An extension over `BabyBear` of a matrix of any shape: `None` where it does not fit, too.
pub fn baby_bear_extension_within<D: TwoAdicSubgroupDft<BabyBear>>(
    engine: &mut D,
    mat: RowMajorMatrix<BabyBear>,
    added_bits: usize,
    limit: usize,
) -> Option<BitReversedMatrixView<RowMajorMatrix<BabyBear>>>
    ensures later { IsLater D.facts engine.old engine.new }
{
    if !fits_lde::<BabyBear>(mat.height(), mat.width(), added_bits) {
        return None;
    }
    let shift = BabyBear::GENERATOR;
    match engine.coset_lde_batch_in_blocks(mat, added_bits, shift, |_rows| BlockLimit::new(limit)) {
        Ok((out, _taken)) => Some(out),
        Err(_) => None,
    }
}

/// The generator of the subgroup whose order is the height of a matrix that can be transformed.
pub fn generator_of<F: TwoAdicField>(mat: &RowMajorMatrix<F>, log_height: usize) -> F
    requires fits { FitsDft F.TWO_ADICITY (height mat.now) mat.now.width }
    requires height { height mat.now ≡ 2 ^ log_height }
    ensures { F.value result ≡ F.value (F.generator log_height) }
{
    F::two_adic_generator(log_height)
}
