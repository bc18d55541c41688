//! The calls over a vector space.

ghost use Rattle.std.specs.Prelude.{◌*◌, IsTrue};
ghost use Rattle.p3_matrix.specs.RowMajor.{height};
ghost use Rattle.p3_dft.specs.Shapes.{FitsDft, FitsLde};

use crate::answers::{Answer, has_inverse};
use crate::names::{Call, Operation};
use crate::vector::column;
use p3_dft::{
    BasedVectorSpace, DftError, RowMajorMatrix, TwoAdicField, TwoAdicSubgroupDft, fits_dft,
    fits_lde,
};

// Whether the coordinates fit a transform.
fn fits_transform<F: TwoAdicField, V: BasedVectorSpace<F>>(mat: &RowMajorMatrix<V>) -> bool
    ensures { IsTrue result → FitsDft F.TWO_ADICITY (height mat.now) (mat.now.width * V.DIMENSION) }
{
    match mat.width().checked_mul(V::DIMENSION) {
        Some(width) => fits_dft::<F>(mat.height(), width),
        None => false,
    }
}

// Whether they fit an extension.
fn fits_extension<F: TwoAdicField, V: BasedVectorSpace<F>>(
    mat: &RowMajorMatrix<V>,
    added_bits: usize,
) -> bool
    ensures { IsTrue result → FitsLde F.TWO_ADICITY (height mat.now) (mat.now.width * V.DIMENSION) added_bits }
{
    match mat.width().checked_mul(V::DIMENSION) {
        Some(width) => fits_lde::<F>(mat.height(), width, added_bits),
        None => false,
    }
}

// Rows, or that memory was refused.
fn rows_in_space<V>(answer: Result<RowMajorMatrix<V>, DftError>) -> Answer<V> {
    match answer {
        Ok(rows) => Answer::Rows(rows),
        Err(_) => Answer::OutOfMemory,
    }
}

// A transform or an inverse of a matrix.
fn transform<F: TwoAdicField, V: BasedVectorSpace<F> + Copy, D: TwoAdicSubgroupDft<F>>(
    engine: &mut D,
    operation: Operation,
    mat: RowMajorMatrix<V>,
    shift: F,
) -> Answer<V> {
    if !fits_transform::<F, V>(&mat) {
        return Answer::Absent;
    }
    match operation {
        Operation::Dft => rows_in_space(engine.dft_algebra_batch(mat)),
        Operation::CosetDft => rows_in_space(engine.coset_dft_algebra_batch(mat, shift)),
        Operation::Idft => rows_in_space(engine.idft_algebra_batch(mat)),
        Operation::CosetIdft => {
            if has_inverse(shift) {
                rows_in_space(engine.coset_idft_algebra_batch(mat, shift))
            } else {
                Answer::Absent
            }
        }
        Operation::Lde | Operation::CosetLde => Answer::Absent,
    }
}

// An extension of a matrix.
fn extension<F: TwoAdicField, V: BasedVectorSpace<F> + Copy, D: TwoAdicSubgroupDft<F>>(
    engine: &mut D,
    operation: Operation,
    mat: RowMajorMatrix<V>,
    added_bits: usize,
    shift: F,
) -> Answer<V> {
    if !fits_extension::<F, V>(&mat, added_bits) {
        return Answer::Absent;
    }
    match operation {
        Operation::Lde => rows_in_space(engine.lde_algebra_batch(mat, added_bits)),
        _ => rows_in_space(engine.coset_lde_algebra_batch(mat, added_bits, shift)),
    }
}

// `dft_algebra_batch` and its like.
fn matrix_answer<F: TwoAdicField, V: BasedVectorSpace<F> + Copy, D: TwoAdicSubgroupDft<F>>(
    engine: &mut D,
    operation: Operation,
    mat: RowMajorMatrix<V>,
    added_bits: usize,
    shift: F,
) -> Answer<V> {
    if operation.extends() {
        extension(engine, operation, mat, added_bits, shift)
    } else {
        transform(engine, operation, mat, shift)
    }
}

// A transform or an inverse of one column.
fn column_transform<F: TwoAdicField, V: BasedVectorSpace<F> + Copy, D: TwoAdicSubgroupDft<F>>(
    engine: &mut D,
    operation: Operation,
    entries: Vec<V>,
    shift: F,
) -> Answer<V> {
    if !fits_dft::<F>(entries.len(), V::DIMENSION) {
        return Answer::Absent;
    }
    match operation {
        Operation::Dft => column(engine.dft_algebra(entries)),
        Operation::CosetDft => column(engine.coset_dft_algebra(entries, shift)),
        Operation::Idft => column(engine.idft_algebra(entries)),
        Operation::CosetIdft => {
            if has_inverse(shift) {
                column(engine.coset_idft_algebra(entries, shift))
            } else {
                Answer::Absent
            }
        }
        Operation::Lde | Operation::CosetLde => Answer::Absent,
    }
}

// An extension of one column.
fn column_extension<F: TwoAdicField, V: BasedVectorSpace<F> + Copy, D: TwoAdicSubgroupDft<F>>(
    engine: &mut D,
    operation: Operation,
    entries: Vec<V>,
    added_bits: usize,
    shift: F,
) -> Answer<V> {
    if !fits_lde::<F>(entries.len(), V::DIMENSION, added_bits) {
        return Answer::Absent;
    }
    match operation {
        Operation::Lde => column(engine.lde_algebra(entries, added_bits)),
        _ => column(engine.coset_lde_algebra(entries, added_bits, shift)),
    }
}

// `dft_algebra` and its like, of a matrix of one column.
fn column_answer<F: TwoAdicField, V: BasedVectorSpace<F> + Copy, D: TwoAdicSubgroupDft<F>>(
    engine: &mut D,
    operation: Operation,
    mat: RowMajorMatrix<V>,
    added_bits: usize,
    shift: F,
) -> Answer<V> {
    if mat.width() != 1 {
        return Answer::Absent;
    }
    let entries = mat.into_values();
    if operation.extends() {
        column_extension(engine, operation, entries, added_bits, shift)
    } else {
        column_transform(engine, operation, entries, shift)
    }
}

/// The answer of an engine to a call over a vector space.
pub fn answer_in_space<F: TwoAdicField, V: BasedVectorSpace<F> + Copy, D: TwoAdicSubgroupDft<F>>(
    engine: &mut D,
    call: Call,
    mat: RowMajorMatrix<V>,
    added_bits: usize,
    shift: F,
) -> Answer<V> {
    match call {
        Call::AlgebraBatch(operation) => matrix_answer(engine, operation, mat, added_bits, shift),
        Call::AlgebraVector(operation) => column_answer(engine, operation, mat, added_bits, shift),
        _ => Answer::Absent,
    }
}
