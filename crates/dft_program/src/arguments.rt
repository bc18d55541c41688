//! What the words behind the operation's name ask for.

ghost use Rattle.std.specs.Prelude.{◌≡◌, ◌*◌, ◌/◌, ◌<◌, ℕ, List, map, length, IfOk, false, true};
ghost use Rattle.std.specs.String.{string_bytes};
ghost use Rattle.p3_field.specs.Ring.{IsInvertible};
ghost use Rattle.p3_dft.specs.Shapes.{FitsLde};
ghost use Rattle.dft_program.specs.declared.names.Operation.TheVariants.{CosetIdft};
ghost use Rattle.dft_program.specs.Faults.{seen};
ghost use Rattle.dft_program.specs.Arguments.{arguments, arguments_of, cannot_undo, has_no_number, is_unfit, reaches};
ghost use Rattle.dft_program.specs.Arguments.{settings, number_or_zero, numbers_of};
ghost use Rattle.dft_program.specs.NumberedFields.{has_inverse, numbered};

use crate::fault::Fault;
use crate::names::Operation;
use crate::number::number;
use p3_dft::{CanonicalField, fits_lde};

/// What an operation is asked for: a matrix, whose entries are the words' numbers. The added bits
/// and the shift are zero where the operation takes none.
#[derive(Clone, Copy)]
pub struct Arguments<'a> {
    pub added_bits: usize,
    pub shift: u64,
    pub width: usize,
    pub values: &'a [String],
}

/// What the words behind the operation's name ask for, or their first fault.
pub fn parse_arguments<F: CanonicalField>(
    operation: Operation,
    words: &[String],
) -> Result<Arguments<'_>, Fault>
    ensures exact { (element : ℕ → F.Element) → ((n : ℕ) → n < F.ORDER_U64 → F.number (element n) ≡ n)
        → seen (λ a. record {
          added_bits = a.added_bits;
          shift = a.shift;
          width = a.width;
          values = numbers_of a.values.now;
        }) result
        ≡ arguments (numbered F.Valued.own F.generator F.TWO_ADICITY F.ORDER_U64 element) operation
        (map string_bytes words.now) }
    ensures below { IfOk result (λ a. reaches F.ORDER_U64 (numbers_of a.values.now) ≡ false) }
    ensures shift_below { IfOk result (λ a. a.shift < F.ORDER_U64) }
    ensures full { IfOk result (λ a. (length a.values.now / a.width) * a.width ≡ length a.values.now) }
    ensures fits { IfOk result (λ a. FitsLde F.TWO_ADICITY (length a.values.now / a.width) a.width a.added_bits) }
    ensures invertible { IfOk result (λ a. operation ≡ CosetIdft
        → (x : F) → F.number (F.value x) ≡ a.shift → IsInvertible F.ring (F.value x)) }
{
    if words.len() <= settings(operation) {
        return Err(Fault::TooFewWords);
    }
    if has_no_number(words) {
        return Err(Fault::NotANumber);
    }
    let arguments = arguments_of(operation, words);
    if F::ORDER_U64 <= arguments.shift || reaches(F::ORDER_U64, arguments.values) {
        return Err(Fault::NotBelowModulus);
    }
    if is_unfit::<F>(
        arguments.values.len(),
        arguments.width,
        arguments.added_bits,
    ) {
        return Err(Fault::UnfitShape);
    }
    if cannot_undo::<F>(operation, arguments.shift) {
        return Err(Fault::NoInverse);
    }
    Ok(arguments)
}

// How many words stand before the values.
fn settings(operation: Operation) -> usize
    ensures { result ≡ settings operation }
{
    match operation {
        Operation::Dft | Operation::Idft => 1,
        Operation::CosetDft | Operation::CosetIdft | Operation::Lde => 2,
        Operation::CosetLde => 3,
    }
}

fn arguments_of(operation: Operation, words: &[String]) -> Arguments<'_>
    requires { settings operation < length words.now }
    ensures added_bits { result.added_bits
        ≡ (arguments_of operation (map number_or_zero (map string_bytes words.now))).added_bits }
    ensures shift { result.shift ≡ (arguments_of operation (map number_or_zero (map string_bytes words.now))).shift }
    ensures width { result.width ≡ (arguments_of operation (map number_or_zero (map string_bytes words.now))).width }
    ensures values { numbers_of result.values.now
        ≡ (arguments_of operation (map number_or_zero (map string_bytes words.now))).values }
{
    let behind = settings(operation);
    let first = number_or_zero(words[0].as_str());
    let (added_bits, shift) = match operation {
        Operation::Dft | Operation::Idft => (0, 0),
        Operation::CosetDft | Operation::CosetIdft => (0, first),
        Operation::Lde => (first as usize, 0),
        Operation::CosetLde => (first as usize, number_or_zero(words[1].as_str())),
    };
    Arguments {
        added_bits,
        shift,
        width: number_or_zero(words[behind - 1].as_str()) as usize,
        values: &words[behind..],
    }
}

/// The number that a word is, where it is one.
pub fn number_or_zero(word: &str) -> u64
    ensures { result ≡ number_or_zero word.now }
{
    number(word).unwrap_or(0)
}

// Whether one of the words is no number.
fn has_no_number(words: &[String]) -> bool
    ensures { result ≡ has_no_number (map string_bytes words.now) }
{
    for word in words {
        if number(word.as_str()).is_none() {
            return true;
        }
    }
    false
}

// Whether one of the words' numbers is the modulus or more.
fn reaches(modulus: u64, words: &[String]) -> bool
    ensures { result ≡ reaches modulus (numbers_of words.now) }
{
    for word in words {
        if modulus <= number_or_zero(word.as_str()) {
            return true;
        }
    }
    false
}

// Whether so many values are no whole number of rows of this width, or the shape, extended by the
// added bits, does not fit.
fn is_unfit<F: CanonicalField>(count: usize, width: usize, added_bits: usize) -> bool
    ensures test { result ≡ is_unfit F.TWO_ADICITY count width added_bits }
    ensures full { result ≡ false → (count / width) * width ≡ count }
    ensures fits { result ≡ false → FitsLde F.TWO_ADICITY (count / width) width added_bits }
{
    if width == 0 {
        return true;
    }
    if count % width != 0 {
        return true;
    }
    !fits_lde::<F>(count / width, width, added_bits)
}

// Whether the operation undoes a shift that has no inverse.
fn cannot_undo<F: CanonicalField>(operation: Operation, shift: u64) -> bool
    requires { shift < F.ORDER_U64 }
    ensures test { (element : ℕ → F.Element) → ((n : ℕ) → n < F.ORDER_U64 → F.number (element n) ≡ n)
        → result ≡ cannot_undo (numbered F.Valued.own F.generator F.TWO_ADICITY F.ORDER_U64 element) operation shift }
    ensures invertible { result ≡ false → operation ≡ CosetIdft
        → (x : F) → F.number (F.value x) ≡ shift → IsInvertible F.ring (F.value x) }
{
    match operation {
        Operation::CosetIdft => !has_inverse::<F>(shift),
        Operation::Dft
        | Operation::CosetDft
        | Operation::Idft
        | Operation::Lde
        | Operation::CosetLde => false,
    }
}

// Whether the element with this number has an inverse.
fn has_inverse<F: CanonicalField>(number: u64) -> bool
    requires { number < F.ORDER_U64 }
    ensures test { (element : ℕ → F.Element) → ((n : ℕ) → n < F.ORDER_U64 → F.number (element n) ≡ n)
        → result ≡ has_inverse (numbered F.Valued.own F.generator F.TWO_ADICITY F.ORDER_U64 element) (element number) }
    ensures invertible { result ≡ true → (x : F) → F.number (F.value x) ≡ number → IsInvertible F.ring (F.value x) }
{
    element_of::<F>(number).try_inverse().is_some()
}

/// The element with this number.
pub fn element_of<F: CanonicalField>(number: u64) -> F
    requires { number < F.ORDER_U64 }
    ensures { F.number (F.value result) ≡ number }
{
    F::new(number).unwrap()
}
