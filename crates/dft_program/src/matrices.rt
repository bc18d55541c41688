//! Matrices from words, and the text of a matrix.

ghost use Rattle.std.specs.Prelude.{◌≡◌, ◌++◌, ◌+◌, ◌*◌, ◌/◌, ◌<◌, ◌≤◌, map, length, IfOk, OnErr, OnOk, false};
ghost use Rattle.std.specs.Fmt.{decimal};
ghost use Rattle.p3_matrix.specs.RowMajor.{IsRowMajor, rows};
ghost use Rattle.dft_program.specs.Arguments.{numbers_of, reaches};
ghost use Rattle.dft_program.specs.Refusals.{IsSmall, RefusedWithin};
ghost use Rattle.dft_program.specs.Text.{line_of_numbers, text_of_rows, spaced};

use crate::arguments::{element_of, number_or_zero};
use p3_dft::{CanonicalField, Refused, RowMajorMatrix, growth};
use std::alloc::Global;

/// The matrix whose entries have the words' numbers, row after row.
pub fn matrix_of<F: CanonicalField>(
    alloc: Global,
    width: usize,
    words: &[String],
) -> Result<RowMajorMatrix<F>, Refused>
    requires small { IsSmall F.row }
    requires below { reaches F.ORDER_U64 (numbers_of words.now) ≡ false }
    requires width { 1 ≤ width }
    requires full { (length words.now / width) * width ≡ length words.now }
    ensures width { IfOk result (λ m. m.width ≡ width) }
    ensures refused { OnErr result (RefusedWithin (length words.now)) }
    ensures numbers { IfOk result (λ m. map (λ x. F.number (F.value x)) m.values ≡ numbers_of words.now) }
{
    let mut values = growth::with_capacity(alloc, words.len())?;
    for word in words {
        let number = number_or_zero(word.as_str());
        growth::push(&mut values, element_of(number))?;
    }
    Ok(RowMajorMatrix::new(values, width))
}

/// The text of a matrix: a line for each row.
pub fn text_of<F: CanonicalField>(
    alloc: Global,
    matrix: &RowMajorMatrix<F>,
) -> Result<Vec<u8>, Refused>
    ensures refused { OnErr result (RefusedWithin (length
        (text_of_rows (map (map (λ x. F.number (F.value x))) (rows matrix.now))))) }
    ensures whole { IsRowMajor matrix.now }
    ensures text { IfOk result (λ text. text.items
        ≡ text_of_rows (map (map (λ x. F.number (F.value x))) (rows matrix.now))) }
{
    let mut text = Vec::new(alloc);
    for i in 0..matrix.height() {
        push_line(&mut text, matrix.row(i))?;
    }
    Ok(text)
}

// Adds a line: the numbers in decimal, with one space between them.
fn push_line<F: CanonicalField>(text: &mut Vec<u8>, row: &[F]) -> Result<(), Refused>
    ensures refused { OnErr result (RefusedWithin (length text.old.items
        + length (line_of_numbers (map (λ x. F.number (F.value x)) row.now)))) }
    ensures line { OnOk result (text.new.items
        ≡ text.old.items ++ line_of_numbers (map (λ x. F.number (F.value x)) row.now)) }
{
    push_numbers(text, row)?;
    growth::push(text, b'\n')
}

fn push_numbers<F: CanonicalField>(text: &mut Vec<u8>, row: &[F]) -> Result<(), Refused>
    ensures refused { OnErr result (RefusedWithin (length text.old.items
        + length (spaced (map (λ x. F.number (F.value x)) row.now)))) }
    ensures numbers { OnOk result (text.new.items
        ≡ text.old.items ++ spaced (map (λ x. F.number (F.value x)) row.now)) }
{
    let Some((first, others)) = row.split_first() else {
        return Ok(());
    };
    push_number(text, first.as_canonical_u64())?;
    for element in others {
        growth::push(text, b' ')?;
        push_number(text, element.as_canonical_u64())?;
    }
    Ok(())
}

// Adds the digits of a number. Texts of std's own take memory without evidence where it is refused.
fn push_number(text: &mut Vec<u8>, number: u64) -> Result<(), Refused>
    ensures refused { OnErr result (RefusedWithin (length text.old.items + length (decimal number))) }
    ensures number { OnOk result (text.new.items ≡ text.old.items ++ decimal number) }
{
    if 10 <= number {
        push_number(text, number / 10)?;
    }
    growth::push(text, b'0' + (number % 10) as u8)
}
