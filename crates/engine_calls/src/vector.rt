//! The calls on one column over the field.

use crate::answers::{Answer, Input, has_inverse};
use crate::names::Operation;
use p3_dft::{DftError, RowMajorMatrix, TwoAdicField, TwoAdicSubgroupDft, fits_dft, fits_lde};

/// A matrix of one column, or that memory was refused.
pub fn column<T>(answer: Result<Vec<T>, DftError>) -> Answer<T> {
    match answer {
        Ok(values) => Answer::Rows(RowMajorMatrix::new_col(values)),
        Err(_) => Answer::OutOfMemory,
    }
}

// A transform or an inverse.
fn transform<F: TwoAdicField, D: TwoAdicSubgroupDft<F>>(
    engine: &mut D,
    operation: Operation,
    entries: Vec<F>,
    shift: F,
) -> Answer<F> {
    if !fits_dft::<F>(entries.len(), 1) {
        return Answer::Absent;
    }
    match operation {
        Operation::Dft => column(engine.dft(entries)),
        Operation::CosetDft => column(engine.coset_dft(entries, shift)),
        Operation::Idft => column(engine.idft(entries)),
        Operation::CosetIdft => {
            if has_inverse(shift) {
                column(engine.coset_idft(entries, shift))
            } else {
                Answer::Absent
            }
        }
        Operation::Lde | Operation::CosetLde => Answer::Absent,
    }
}

// An extension.
fn extension<F: TwoAdicField, D: TwoAdicSubgroupDft<F>>(
    engine: &mut D,
    operation: Operation,
    entries: Vec<F>,
    added_bits: usize,
    shift: F,
) -> Answer<F> {
    if !fits_lde::<F>(entries.len(), 1, added_bits) {
        return Answer::Absent;
    }
    match operation {
        Operation::Lde => column(engine.lde(entries, added_bits)),
        _ => column(engine.coset_lde(entries, added_bits, shift)),
    }
}

/// `dft` and its like, of a matrix of one column.
pub fn column_answer<F: TwoAdicField, D: TwoAdicSubgroupDft<F>>(
    engine: &mut D,
    operation: Operation,
    input: Input<F>,
) -> Answer<F> {
    if input.mat.width() != 1 {
        return Answer::Absent;
    }
    let entries = input.mat.into_values();
    if operation.extends() {
        extension(engine, operation, entries, input.added_bits, input.shift)
    } else {
        transform(engine, operation, entries, input.shift)
    }
}
