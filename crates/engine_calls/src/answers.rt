//! What a call is made on, and what it answers.

ghost use Rattle.std.specs.Prelude.{◌↔◌, IsTrue};
ghost use Rattle.p3_field.specs.Ring.{IsInvertible};

use crate::algebra::answer_in_space;
use crate::batch::{extension_of_coefficients, matrix_answer};
use crate::blocks::extension_answer;
use crate::changes::Change;
use crate::codes::code_answer;
use crate::names::Call;
use crate::vector::column_answer;
use p3_dft::{
    DftError, Evaluations, Field, Recorder, RowMajorMatrix, TwoAdicField, TwoAdicSubgroupDft,
};

/// A matrix, and what a call takes beside it.
#[derive(Drop)]
pub struct Input<F> {
    pub mat: RowMajorMatrix<F>,
    pub added_bits: usize,
    pub shift: F,
    /// What the transform makes of the coefficients, of a call that takes one.
    pub change: Change,
}

/// What a call answers.
#[derive(Drop)]
pub enum Answer<F> {
    /// Rows in natural order: a column is a matrix of one column.
    Rows(RowMajorMatrix<F>),
    /// Whether the matrix is a codeword; or that what was to be made was made.
    Holds(bool),
    /// That memory was refused.
    OutOfMemory,
    /// Blocks were lent though memory was refused, or none though it was not.
    WrongBlocks,
    /// Nothing: there is no such call of this engine, for this shape or for this shift.
    Absent,
}

/// Whether an element has an inverse.
pub fn has_inverse<F: Field>(x: F) -> bool
    ensures { IsTrue result ↔ IsInvertible F.ring (F.value x) }
{
    x.try_inverse().is_some()
}

/// Rows in the order in which an engine leaves them, or that memory was refused.
pub fn rows<F: TwoAdicField, E: Evaluations<F>>(answer: Result<E, DftError>) -> Answer<F> {
    match answer {
        Ok(values) => Answer::Rows(values.to_row_major_matrix()),
        Err(_) => Answer::OutOfMemory,
    }
}

// A copy of the matrix.
fn copy<F: Copy>(mat: &RowMajorMatrix<F>) -> Answer<F> {
    match mat.try_clone() {
        Ok(copy) => Answer::Rows(copy),
        Err(_) => Answer::OutOfMemory,
    }
}

// An empty recorder.
fn recorder<F: Copy>(mat: &RowMajorMatrix<F>) -> Answer<F> {
    let room = mat.height();
    match Recorder::<F>::with_room(*mat.allocator(), room, room) {
        Ok(recorder) => Answer::Holds(recorder.blocks() == 0 && !recorder.missed()),
        Err(_) => Answer::OutOfMemory,
    }
}

/// The answer of an engine to one of the calls that all engines have.
pub fn answer_to<F: TwoAdicField, D: TwoAdicSubgroupDft<F>>(
    engine: &mut D,
    call: Call,
    input: Input<F>,
) -> Answer<F> {
    match call {
        Call::Batch(operation) => matrix_answer(engine, operation, input),
        Call::Vector(operation) => column_answer(engine, operation, input),
        Call::AlgebraBatch(_) | Call::AlgebraVector(_) => {
            let Input {
                mat,
                added_bits,
                shift,
                change: _change,
            } = input;
            answer_in_space::<F, F, D>(engine, call, mat, added_bits, shift)
        }
        Call::WithTransform
        | Call::ByParts
        | Call::BitReversed
        | Call::WithBlocks
        | Call::InBlocks => extension_answer(engine, call, input),
        Call::OfCoefficients | Call::OfCoefficientsBitReversed => {
            extension_of_coefficients(engine, call, input)
        }
        Call::Encode | Call::IsCodeword => code_answer(engine, call, input),
        Call::WithRoom => recorder(&input.mat),
        Call::TryClone => copy(&input.mat),
        Call::RunJobs | Call::Prepare | Call::New | Call::WithTile => Answer::Absent,
    }
}
