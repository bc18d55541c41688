//! The calls of a Reed-Solomon code, which has its engine for itself.

use crate::answers::{Answer, Input, has_inverse};
use crate::names::Call;
use p3_dft::{
    ReedSolomon, RowMajorMatrix, TwoAdicField, TwoAdicSubgroupDft, fits_code, fits_dft, fits_lde,
};
use std::mem;

// The word of a message.
fn encode<F: TwoAdicField, D: TwoAdicSubgroupDft<F>>(
    code: &mut ReedSolomon<F, D>,
    message: RowMajorMatrix<F>,
) -> Answer<F> {
    let fits = fits_lde::<F>(message.height(), message.width(), code.added_bits());
    if !fits || message.height() != code.message_height() {
        return Answer::Absent;
    }
    match code.encode(message) {
        Ok(word) => Answer::Rows(word),
        Err(_) => Answer::OutOfMemory,
    }
}

// Whether a matrix is a word.
fn is_codeword<F: TwoAdicField, D: TwoAdicSubgroupDft<F>>(
    code: &mut ReedSolomon<F, D>,
    word: &RowMajorMatrix<F>,
) -> Answer<F> {
    if !fits_dft::<F>(word.height(), word.width()) || word.height() != code.word_height() {
        return Answer::Absent;
    }
    match code.is_codeword(word) {
        Ok(holds) => Answer::Holds(holds),
        Err(_) => Answer::OutOfMemory,
    }
}

/// The code takes the engine, and gives it back.
pub fn code_answer<F: TwoAdicField, D: TwoAdicSubgroupDft<F>>(
    engine: &mut D,
    call: Call,
    input: Input<F>,
) -> Answer<F> {
    let Input {
        mat,
        added_bits,
        shift,
        change: _change,
    } = input;
    let log_rows = mat.height().trailing_zeros() as usize;
    let log_message = match call {
        Call::Encode => log_rows,
        _ => log_rows.saturating_sub(added_bits),
    };
    if !fits_code::<F>(log_message, added_bits) || !has_inverse(shift) {
        return Answer::Absent;
    }
    let own = mem::replace(engine, D::default());
    let mut code = ReedSolomon::new(own, log_message, added_bits, shift);
    let answer = match call {
        Call::Encode => encode(&mut code, mat),
        _ => is_codeword(&mut code, &mat),
    };
    *engine = code.into_engine();
    answer
}
