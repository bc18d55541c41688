//! The calls on a matrix over the field.

use crate::answers::{Answer, Input, has_inverse, rows};
use crate::names::{Call, Operation};
use p3_dft::{RowMajorMatrix, TwoAdicField, TwoAdicSubgroupDft, fits_dft, fits_lde};

// A transform or an inverse.
fn transform<F: TwoAdicField, D: TwoAdicSubgroupDft<F>>(
    engine: &mut D,
    operation: Operation,
    mat: RowMajorMatrix<F>,
    shift: F,
) -> Answer<F> {
    if !fits_dft::<F>(mat.height(), mat.width()) {
        return Answer::Absent;
    }
    match operation {
        Operation::Dft => rows(engine.dft_batch(mat)),
        Operation::CosetDft => rows(engine.coset_dft_batch(mat, shift)),
        Operation::Idft => rows(engine.idft_batch(mat)),
        Operation::CosetIdft => {
            if has_inverse(shift) {
                rows(engine.coset_idft_batch(mat, shift))
            } else {
                Answer::Absent
            }
        }
        Operation::Lde | Operation::CosetLde => Answer::Absent,
    }
}

// An extension.
fn extension<F: TwoAdicField, D: TwoAdicSubgroupDft<F>>(
    engine: &mut D,
    operation: Operation,
    mat: RowMajorMatrix<F>,
    added_bits: usize,
    shift: F,
) -> Answer<F> {
    if !fits_lde::<F>(mat.height(), mat.width(), added_bits) {
        return Answer::Absent;
    }
    match operation {
        Operation::Lde => rows(engine.lde_batch(mat, added_bits)),
        _ => rows(engine.coset_lde_batch(mat, added_bits, shift)),
    }
}

/// An extension of coefficients, in either order of rows.
pub fn extension_of_coefficients<F: TwoAdicField, D: TwoAdicSubgroupDft<F>>(
    engine: &mut D,
    call: Call,
    input: Input<F>,
) -> Answer<F> {
    let Input {
        mat,
        added_bits,
        shift,
        change: _change,
    } = input;
    if !fits_lde::<F>(mat.height(), mat.width(), added_bits) {
        return Answer::Absent;
    }
    match call {
        Call::OfCoefficients => {
            rows(engine.coset_lde_batch_of_coefficients(mat, added_bits, shift))
        }
        _ => rows(engine.coset_lde_batch_of_coefficients_bit_reversed(mat, added_bits, shift)),
    }
}

/// `dft_batch` and its like.
pub fn matrix_answer<F: TwoAdicField, D: TwoAdicSubgroupDft<F>>(
    engine: &mut D,
    operation: Operation,
    input: Input<F>,
) -> Answer<F> {
    if operation.extends() {
        extension(engine, operation, input.mat, input.added_bits, input.shift)
    } else {
        transform(engine, operation, input.mat, input.shift)
    }
}
