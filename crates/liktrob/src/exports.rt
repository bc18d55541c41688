//! The functions that C, Rust and Python call, for each field.
//!
//! Each answers a status: 0 where it answered, else the number of the first condition that fails, or 5 where an
//! allocation was refused; then what was lent has not changed.

ghost use Rattle.std.specs.Prelude.{◌≡◌, ◌≢◌, ◌/◌, ◌^◌, ◌<◌, ◌≤◌, ⊤, length};
ghost use Rattle.liktrob.specs.Answers.{IsAnswered, IsAnsweredByColumns, IsPoint, IsToldCodeword};
ghost use Rattle.liktrob.specs.NamedFields.{baby_bear, baby_bear_elements, goldilocks, goldilocks_elements};
ghost use Rattle.liktrob.specs.NamedFields.{koala_bear, koala_bear_elements};
ghost use Rattle.liktrob.specs.Statuses.{IsOutOfMemory, IsStatus};
ghost use Rattle.liktrob.specs.Words.{AreBelow, AreBelowWithStep, Fits, HasInverse, HaveInverses};
ghost use Rattle.liktrob.specs.declared.engines.Direction.TheVariants.{ToCoefficients, ToValues};
ghost use Rattle.liktrob.specs.declared.engines.Operation.TheVariants.{CosetDft, CosetIdft};
ghost use Rattle.liktrob.specs.declared.engines.Operation.TheVariants.{CosetLde, CosetLdeBitReversed};

use crate::calls::{answer_columns, answer_in_place, answer_into, is_codeword, point};
use crate::engines::{Direction, Operation};
use p3_dft::{BabyBear, Goldilocks, KoalaBear};
use std::alloc::Global;

/// Values on the coset of the shift in place of coefficients.
#[unsafe(no_mangle)]
pub extern "C" fn liktrob_baby_bear_coset_dft(
    alloc: Global,
    engine: u32,
    words: &mut [u32],
    width: usize,
    shift: u32,
) -> u32
    ensures answer { result ≡ 0 → IsAnswered baby_bear (CosetDft 0) words.old width shift words.new }
    ensures kept { result ≢ 0 → words.new ≡ words.old }
    ensures status { IsStatus result (engine ≤ 5) (AreBelow baby_bear shift words.old)
        (Fits baby_bear.two_adicity (length words.old) width 0 (length words.old)) ⊤
        (IsOutOfMemory baby_bear_elements (length words.old) 0) }
{
    answer_in_place::<BabyBear>(alloc, Operation::CosetDft(0), engine, words, width, shift)
}

/// Coefficients in place of values on the coset of the shift.
#[unsafe(no_mangle)]
pub extern "C" fn liktrob_baby_bear_coset_idft(
    alloc: Global,
    engine: u32,
    words: &mut [u32],
    width: usize,
    shift: u32,
) -> u32
    ensures answer { result ≡ 0 → IsAnswered baby_bear CosetIdft words.old width shift words.new }
    ensures kept { result ≢ 0 → words.new ≡ words.old }
    ensures status { IsStatus result (engine ≤ 5) (AreBelow baby_bear shift words.old)
        (Fits baby_bear.two_adicity (length words.old) width 0 (length words.old)) (HasInverse baby_bear shift)
        (IsOutOfMemory baby_bear_elements (length words.old) 0) }
{
    answer_in_place::<BabyBear>(alloc, Operation::CosetIdft, engine, words, width, shift)
}

/// Values on the coset of the shift of `2^added_bits` times as many points, of values on the subgroup.
#[unsafe(no_mangle)]
pub extern "C" fn liktrob_baby_bear_coset_lde(
    alloc: Global,
    engine: u32,
    words: &[u32],
    width: usize,
    added_bits: usize,
    shift: u32,
    out: &mut [u32],
) -> u32
    ensures answer { result ≡ 0 → IsAnswered baby_bear (CosetLde added_bits) words.now width shift out.new }
    ensures kept { result ≢ 0 → out.new ≡ out.old }
    ensures status { IsStatus result (engine ≤ 5) (AreBelow baby_bear shift words.now)
        (Fits baby_bear.two_adicity (length words.now) width added_bits (length out.old)) ⊤
        (IsOutOfMemory baby_bear_elements (length out.old) added_bits) }
{
    answer_into::<BabyBear>(
        alloc,
        Operation::CosetLde(added_bits),
        engine,
        words,
        width,
        shift,
        out,
    )
}

/// The same values, with rows in bit reversed order.
#[unsafe(no_mangle)]
pub extern "C" fn liktrob_baby_bear_coset_lde_bit_reversed(
    alloc: Global,
    engine: u32,
    words: &[u32],
    width: usize,
    added_bits: usize,
    shift: u32,
    out: &mut [u32],
) -> u32
    ensures answer { result ≡ 0 → IsAnswered baby_bear (CosetLdeBitReversed added_bits) words.now width shift out.new }
    ensures kept { result ≢ 0 → out.new ≡ out.old }
    ensures status { IsStatus result (engine ≤ 5) (AreBelow baby_bear shift words.now)
        (Fits baby_bear.two_adicity (length words.now) width added_bits (length out.old)) ⊤
        (IsOutOfMemory baby_bear_elements (length out.old) added_bits) }
{
    answer_into::<BabyBear>(
        alloc,
        Operation::CosetLdeBitReversed(added_bits),
        engine,
        words,
        width,
        shift,
        out,
    )
}

/// Values on the coset of the shift of `2^added_bits` times as many points, of coefficients.
#[unsafe(no_mangle)]
pub extern "C" fn liktrob_baby_bear_coset_dft_padded(
    alloc: Global,
    engine: u32,
    words: &[u32],
    width: usize,
    added_bits: usize,
    shift: u32,
    out: &mut [u32],
) -> u32
    ensures answer { result ≡ 0 → IsAnswered baby_bear (CosetDft added_bits) words.now width shift out.new }
    ensures kept { result ≢ 0 → out.new ≡ out.old }
    ensures status { IsStatus result (engine ≤ 5) (AreBelow baby_bear shift words.now)
        (Fits baby_bear.two_adicity (length words.now) width added_bits (length out.old)) ⊤
        (IsOutOfMemory baby_bear_elements (length out.old) added_bits) }
{
    answer_into::<BabyBear>(
        alloc,
        Operation::CosetDft(added_bits),
        engine,
        words,
        width,
        shift,
        out,
    )
}

/// Whether the columns are the values, on the coset of the shift, of polynomials with one coefficient for each
/// `2^added_bits` points: the answer is one or zero.
#[unsafe(no_mangle)]
pub extern "C" fn liktrob_baby_bear_is_codeword(
    alloc: Global,
    engine: u32,
    words: &[u32],
    width: usize,
    added_bits: usize,
    shift: u32,
    answer: &mut u32,
) -> u32
    ensures answer { result ≡ 0 → IsToldCodeword baby_bear words.now width added_bits shift answer.new }
    ensures kept { result ≢ 0 → answer.new ≡ answer.old }
    ensures status { IsStatus result (engine ≤ 5) (AreBelow baby_bear shift words.now)
        (Fits baby_bear.two_adicity (length words.now / 2 ^ added_bits) width added_bits (length words.now))
        (HasInverse baby_bear shift)
        (IsOutOfMemory baby_bear_elements (length words.now) added_bits) }
{
    is_codeword::<BabyBear>(alloc, engine, words, width, added_bits, shift, answer)
}

/// Values of each column on a coset of its own in place of coefficients: column j on the coset of `shift * step^j`.
#[unsafe(no_mangle)]
pub extern "C" fn liktrob_baby_bear_coset_dft_columns(
    alloc: Global,
    engine: u32,
    words: &mut [u32],
    width: usize,
    shift: u32,
    step: u32,
) -> u32
    ensures answer { result ≡ 0 → IsAnsweredByColumns baby_bear ToValues words.old width shift step words.new }
    ensures kept { result ≢ 0 → words.new ≡ words.old }
    ensures status { IsStatus result (engine ≤ 5) (AreBelowWithStep baby_bear step shift words.old)
        (Fits baby_bear.two_adicity (length words.old) width 0 (length words.old)) ⊤
        (IsOutOfMemory baby_bear_elements (length words.old) 0) }
{
    answer_columns::<BabyBear>(
        alloc,
        Direction::ToValues,
        engine,
        words,
        width,
        shift,
        step,
    )
}

/// Coefficients in place of values of each column on a coset of its own: column j on the coset of `shift * step^j`.
#[unsafe(no_mangle)]
pub extern "C" fn liktrob_baby_bear_coset_idft_columns(
    alloc: Global,
    engine: u32,
    words: &mut [u32],
    width: usize,
    shift: u32,
    step: u32,
) -> u32
    ensures answer { result ≡ 0 → IsAnsweredByColumns baby_bear ToCoefficients words.old width shift step words.new }
    ensures kept { result ≢ 0 → words.new ≡ words.old }
    ensures status { IsStatus result (engine ≤ 5) (AreBelowWithStep baby_bear step shift words.old)
        (Fits baby_bear.two_adicity (length words.old) width 0 (length words.old))
        (HaveInverses baby_bear shift step width) (IsOutOfMemory baby_bear_elements (length words.old) 0) }
{
    answer_columns::<BabyBear>(
        alloc,
        Direction::ToCoefficients,
        engine,
        words,
        width,
        shift,
        step,
    )
}

/// The point `shift * g^index`, where g generates the subgroup of order `2^bits`.
#[unsafe(no_mangle)]
pub extern "C" fn liktrob_baby_bear_point(
    bits: usize,
    shift: u32,
    index: usize,
    answer: &mut u32,
) -> u32
    ensures answer { result ≡ 0 → IsPoint baby_bear bits shift index answer.new }
    ensures kept { result ≢ 0 → answer.new ≡ answer.old }
    ensures status { IsStatus result ⊤ (baby_bear.number shift < baby_bear.modulus) (bits ≤ baby_bear.two_adicity) ⊤
        (λ _. ⊥) }
{
    point::<BabyBear>(bits, shift, index, answer)
}

/// Values on the coset of the shift in place of coefficients.
#[unsafe(no_mangle)]
pub extern "C" fn liktrob_koala_bear_coset_dft(
    alloc: Global,
    engine: u32,
    words: &mut [u32],
    width: usize,
    shift: u32,
) -> u32
    ensures answer { result ≡ 0 → IsAnswered koala_bear (CosetDft 0) words.old width shift words.new }
    ensures kept { result ≢ 0 → words.new ≡ words.old }
    ensures status { IsStatus result (engine ≤ 5) (AreBelow koala_bear shift words.old)
        (Fits koala_bear.two_adicity (length words.old) width 0 (length words.old)) ⊤
        (IsOutOfMemory koala_bear_elements (length words.old) 0) }
{
    answer_in_place::<KoalaBear>(alloc, Operation::CosetDft(0), engine, words, width, shift)
}

/// Coefficients in place of values on the coset of the shift.
#[unsafe(no_mangle)]
pub extern "C" fn liktrob_koala_bear_coset_idft(
    alloc: Global,
    engine: u32,
    words: &mut [u32],
    width: usize,
    shift: u32,
) -> u32
    ensures answer { result ≡ 0 → IsAnswered koala_bear CosetIdft words.old width shift words.new }
    ensures kept { result ≢ 0 → words.new ≡ words.old }
    ensures status { IsStatus result (engine ≤ 5) (AreBelow koala_bear shift words.old)
        (Fits koala_bear.two_adicity (length words.old) width 0 (length words.old)) (HasInverse koala_bear shift)
        (IsOutOfMemory koala_bear_elements (length words.old) 0) }
{
    answer_in_place::<KoalaBear>(alloc, Operation::CosetIdft, engine, words, width, shift)
}

/// Values on the coset of the shift of `2^added_bits` times as many points, of values on the subgroup.
#[unsafe(no_mangle)]
pub extern "C" fn liktrob_koala_bear_coset_lde(
    alloc: Global,
    engine: u32,
    words: &[u32],
    width: usize,
    added_bits: usize,
    shift: u32,
    out: &mut [u32],
) -> u32
    ensures answer { result ≡ 0 → IsAnswered koala_bear (CosetLde added_bits) words.now width shift out.new }
    ensures kept { result ≢ 0 → out.new ≡ out.old }
    ensures status { IsStatus result (engine ≤ 5) (AreBelow koala_bear shift words.now)
        (Fits koala_bear.two_adicity (length words.now) width added_bits (length out.old)) ⊤
        (IsOutOfMemory koala_bear_elements (length out.old) added_bits) }
{
    answer_into::<KoalaBear>(
        alloc,
        Operation::CosetLde(added_bits),
        engine,
        words,
        width,
        shift,
        out,
    )
}

/// The same values, with rows in bit reversed order.
#[unsafe(no_mangle)]
pub extern "C" fn liktrob_koala_bear_coset_lde_bit_reversed(
    alloc: Global,
    engine: u32,
    words: &[u32],
    width: usize,
    added_bits: usize,
    shift: u32,
    out: &mut [u32],
) -> u32
    ensures answer { result ≡ 0 → IsAnswered koala_bear (CosetLdeBitReversed added_bits) words.now width shift out.new }
    ensures kept { result ≢ 0 → out.new ≡ out.old }
    ensures status { IsStatus result (engine ≤ 5) (AreBelow koala_bear shift words.now)
        (Fits koala_bear.two_adicity (length words.now) width added_bits (length out.old)) ⊤
        (IsOutOfMemory koala_bear_elements (length out.old) added_bits) }
{
    answer_into::<KoalaBear>(
        alloc,
        Operation::CosetLdeBitReversed(added_bits),
        engine,
        words,
        width,
        shift,
        out,
    )
}

/// Values on the coset of the shift of `2^added_bits` times as many points, of coefficients.
#[unsafe(no_mangle)]
pub extern "C" fn liktrob_koala_bear_coset_dft_padded(
    alloc: Global,
    engine: u32,
    words: &[u32],
    width: usize,
    added_bits: usize,
    shift: u32,
    out: &mut [u32],
) -> u32
    ensures answer { result ≡ 0 → IsAnswered koala_bear (CosetDft added_bits) words.now width shift out.new }
    ensures kept { result ≢ 0 → out.new ≡ out.old }
    ensures status { IsStatus result (engine ≤ 5) (AreBelow koala_bear shift words.now)
        (Fits koala_bear.two_adicity (length words.now) width added_bits (length out.old)) ⊤
        (IsOutOfMemory koala_bear_elements (length out.old) added_bits) }
{
    answer_into::<KoalaBear>(
        alloc,
        Operation::CosetDft(added_bits),
        engine,
        words,
        width,
        shift,
        out,
    )
}

/// Whether the columns are the values, on the coset of the shift, of polynomials with one coefficient for each
/// `2^added_bits` points: the answer is one or zero.
#[unsafe(no_mangle)]
pub extern "C" fn liktrob_koala_bear_is_codeword(
    alloc: Global,
    engine: u32,
    words: &[u32],
    width: usize,
    added_bits: usize,
    shift: u32,
    answer: &mut u32,
) -> u32
    ensures answer { result ≡ 0 → IsToldCodeword koala_bear words.now width added_bits shift answer.new }
    ensures kept { result ≢ 0 → answer.new ≡ answer.old }
    ensures status { IsStatus result (engine ≤ 5) (AreBelow koala_bear shift words.now)
        (Fits koala_bear.two_adicity (length words.now / 2 ^ added_bits) width added_bits (length words.now))
        (HasInverse koala_bear shift)
        (IsOutOfMemory koala_bear_elements (length words.now) added_bits) }
{
    is_codeword::<KoalaBear>(alloc, engine, words, width, added_bits, shift, answer)
}

/// Values of each column on a coset of its own in place of coefficients: column j on the coset of `shift * step^j`.
#[unsafe(no_mangle)]
pub extern "C" fn liktrob_koala_bear_coset_dft_columns(
    alloc: Global,
    engine: u32,
    words: &mut [u32],
    width: usize,
    shift: u32,
    step: u32,
) -> u32
    ensures answer { result ≡ 0 → IsAnsweredByColumns koala_bear ToValues words.old width shift step words.new }
    ensures kept { result ≢ 0 → words.new ≡ words.old }
    ensures status { IsStatus result (engine ≤ 5) (AreBelowWithStep koala_bear step shift words.old)
        (Fits koala_bear.two_adicity (length words.old) width 0 (length words.old)) ⊤
        (IsOutOfMemory koala_bear_elements (length words.old) 0) }
{
    answer_columns::<KoalaBear>(
        alloc,
        Direction::ToValues,
        engine,
        words,
        width,
        shift,
        step,
    )
}

/// Coefficients in place of values of each column on a coset of its own: column j on the coset of `shift * step^j`.
#[unsafe(no_mangle)]
pub extern "C" fn liktrob_koala_bear_coset_idft_columns(
    alloc: Global,
    engine: u32,
    words: &mut [u32],
    width: usize,
    shift: u32,
    step: u32,
) -> u32
    ensures answer { result ≡ 0 → IsAnsweredByColumns koala_bear ToCoefficients words.old width shift step words.new }
    ensures kept { result ≢ 0 → words.new ≡ words.old }
    ensures status { IsStatus result (engine ≤ 5) (AreBelowWithStep koala_bear step shift words.old)
        (Fits koala_bear.two_adicity (length words.old) width 0 (length words.old))
        (HaveInverses koala_bear shift step width) (IsOutOfMemory koala_bear_elements (length words.old) 0) }
{
    answer_columns::<KoalaBear>(
        alloc,
        Direction::ToCoefficients,
        engine,
        words,
        width,
        shift,
        step,
    )
}

/// The point `shift * g^index`, where g generates the subgroup of order `2^bits`.
#[unsafe(no_mangle)]
pub extern "C" fn liktrob_koala_bear_point(
    bits: usize,
    shift: u32,
    index: usize,
    answer: &mut u32,
) -> u32
    ensures answer { result ≡ 0 → IsPoint koala_bear bits shift index answer.new }
    ensures kept { result ≢ 0 → answer.new ≡ answer.old }
    ensures status { IsStatus result ⊤ (koala_bear.number shift < koala_bear.modulus) (bits ≤ koala_bear.two_adicity) ⊤
        (λ _. ⊥) }
{
    point::<KoalaBear>(bits, shift, index, answer)
}

/// Values on the coset of the shift in place of coefficients.
#[unsafe(no_mangle)]
pub extern "C" fn liktrob_goldilocks_coset_dft(
    alloc: Global,
    engine: u32,
    words: &mut [u64],
    width: usize,
    shift: u64,
) -> u32
    ensures answer { result ≡ 0 → IsAnswered goldilocks (CosetDft 0) words.old width shift words.new }
    ensures kept { result ≢ 0 → words.new ≡ words.old }
    ensures status { IsStatus result (engine ≤ 5) (AreBelow goldilocks shift words.old)
        (Fits goldilocks.two_adicity (length words.old) width 0 (length words.old)) ⊤
        (IsOutOfMemory goldilocks_elements (length words.old) 0) }
{
    answer_in_place::<Goldilocks>(alloc, Operation::CosetDft(0), engine, words, width, shift)
}

/// Coefficients in place of values on the coset of the shift.
#[unsafe(no_mangle)]
pub extern "C" fn liktrob_goldilocks_coset_idft(
    alloc: Global,
    engine: u32,
    words: &mut [u64],
    width: usize,
    shift: u64,
) -> u32
    ensures answer { result ≡ 0 → IsAnswered goldilocks CosetIdft words.old width shift words.new }
    ensures kept { result ≢ 0 → words.new ≡ words.old }
    ensures status { IsStatus result (engine ≤ 5) (AreBelow goldilocks shift words.old)
        (Fits goldilocks.two_adicity (length words.old) width 0 (length words.old)) (HasInverse goldilocks shift)
        (IsOutOfMemory goldilocks_elements (length words.old) 0) }
{
    answer_in_place::<Goldilocks>(alloc, Operation::CosetIdft, engine, words, width, shift)
}

/// Values on the coset of the shift of `2^added_bits` times as many points, of values on the subgroup.
#[unsafe(no_mangle)]
pub extern "C" fn liktrob_goldilocks_coset_lde(
    alloc: Global,
    engine: u32,
    words: &[u64],
    width: usize,
    added_bits: usize,
    shift: u64,
    out: &mut [u64],
) -> u32
    ensures answer { result ≡ 0 → IsAnswered goldilocks (CosetLde added_bits) words.now width shift out.new }
    ensures kept { result ≢ 0 → out.new ≡ out.old }
    ensures status { IsStatus result (engine ≤ 5) (AreBelow goldilocks shift words.now)
        (Fits goldilocks.two_adicity (length words.now) width added_bits (length out.old)) ⊤
        (IsOutOfMemory goldilocks_elements (length out.old) added_bits) }
{
    answer_into::<Goldilocks>(
        alloc,
        Operation::CosetLde(added_bits),
        engine,
        words,
        width,
        shift,
        out,
    )
}

/// The same values, with rows in bit reversed order.
#[unsafe(no_mangle)]
pub extern "C" fn liktrob_goldilocks_coset_lde_bit_reversed(
    alloc: Global,
    engine: u32,
    words: &[u64],
    width: usize,
    added_bits: usize,
    shift: u64,
    out: &mut [u64],
) -> u32
    ensures answer { result ≡ 0 → IsAnswered goldilocks (CosetLdeBitReversed added_bits) words.now width shift out.new }
    ensures kept { result ≢ 0 → out.new ≡ out.old }
    ensures status { IsStatus result (engine ≤ 5) (AreBelow goldilocks shift words.now)
        (Fits goldilocks.two_adicity (length words.now) width added_bits (length out.old)) ⊤
        (IsOutOfMemory goldilocks_elements (length out.old) added_bits) }
{
    answer_into::<Goldilocks>(
        alloc,
        Operation::CosetLdeBitReversed(added_bits),
        engine,
        words,
        width,
        shift,
        out,
    )
}

/// Values on the coset of the shift of `2^added_bits` times as many points, of coefficients.
#[unsafe(no_mangle)]
pub extern "C" fn liktrob_goldilocks_coset_dft_padded(
    alloc: Global,
    engine: u32,
    words: &[u64],
    width: usize,
    added_bits: usize,
    shift: u64,
    out: &mut [u64],
) -> u32
    ensures answer { result ≡ 0 → IsAnswered goldilocks (CosetDft added_bits) words.now width shift out.new }
    ensures kept { result ≢ 0 → out.new ≡ out.old }
    ensures status { IsStatus result (engine ≤ 5) (AreBelow goldilocks shift words.now)
        (Fits goldilocks.two_adicity (length words.now) width added_bits (length out.old)) ⊤
        (IsOutOfMemory goldilocks_elements (length out.old) added_bits) }
{
    answer_into::<Goldilocks>(
        alloc,
        Operation::CosetDft(added_bits),
        engine,
        words,
        width,
        shift,
        out,
    )
}

/// Whether the columns are the values, on the coset of the shift, of polynomials with one coefficient for each
/// `2^added_bits` points: the answer is one or zero.
#[unsafe(no_mangle)]
pub extern "C" fn liktrob_goldilocks_is_codeword(
    alloc: Global,
    engine: u32,
    words: &[u64],
    width: usize,
    added_bits: usize,
    shift: u64,
    answer: &mut u32,
) -> u32
    ensures answer { result ≡ 0 → IsToldCodeword goldilocks words.now width added_bits shift answer.new }
    ensures kept { result ≢ 0 → answer.new ≡ answer.old }
    ensures status { IsStatus result (engine ≤ 5) (AreBelow goldilocks shift words.now)
        (Fits goldilocks.two_adicity (length words.now / 2 ^ added_bits) width added_bits (length words.now))
        (HasInverse goldilocks shift)
        (IsOutOfMemory goldilocks_elements (length words.now) added_bits) }
{
    is_codeword::<Goldilocks>(alloc, engine, words, width, added_bits, shift, answer)
}

/// Values of each column on a coset of its own in place of coefficients: column j on the coset of `shift * step^j`.
#[unsafe(no_mangle)]
pub extern "C" fn liktrob_goldilocks_coset_dft_columns(
    alloc: Global,
    engine: u32,
    words: &mut [u64],
    width: usize,
    shift: u64,
    step: u64,
) -> u32
    ensures answer { result ≡ 0 → IsAnsweredByColumns goldilocks ToValues words.old width shift step words.new }
    ensures kept { result ≢ 0 → words.new ≡ words.old }
    ensures status { IsStatus result (engine ≤ 5) (AreBelowWithStep goldilocks step shift words.old)
        (Fits goldilocks.two_adicity (length words.old) width 0 (length words.old)) ⊤
        (IsOutOfMemory goldilocks_elements (length words.old) 0) }
{
    answer_columns::<Goldilocks>(
        alloc,
        Direction::ToValues,
        engine,
        words,
        width,
        shift,
        step,
    )
}

/// Coefficients in place of values of each column on a coset of its own: column j on the coset of `shift * step^j`.
#[unsafe(no_mangle)]
pub extern "C" fn liktrob_goldilocks_coset_idft_columns(
    alloc: Global,
    engine: u32,
    words: &mut [u64],
    width: usize,
    shift: u64,
    step: u64,
) -> u32
    ensures answer { result ≡ 0 → IsAnsweredByColumns goldilocks ToCoefficients words.old width shift step words.new }
    ensures kept { result ≢ 0 → words.new ≡ words.old }
    ensures status { IsStatus result (engine ≤ 5) (AreBelowWithStep goldilocks step shift words.old)
        (Fits goldilocks.two_adicity (length words.old) width 0 (length words.old))
        (HaveInverses goldilocks shift step width) (IsOutOfMemory goldilocks_elements (length words.old) 0) }
{
    answer_columns::<Goldilocks>(
        alloc,
        Direction::ToCoefficients,
        engine,
        words,
        width,
        shift,
        step,
    )
}

/// The point `shift * g^index`, where g generates the subgroup of order `2^bits`.
#[unsafe(no_mangle)]
pub extern "C" fn liktrob_goldilocks_point(
    bits: usize,
    shift: u64,
    index: usize,
    answer: &mut u64,
) -> u32
    ensures answer { result ≡ 0 → IsPoint goldilocks bits shift index answer.new }
    ensures kept { result ≢ 0 → answer.new ≡ answer.old }
    ensures status { IsStatus result ⊤ (goldilocks.number shift < goldilocks.modulus) (bits ≤ goldilocks.two_adicity) ⊤
        (λ _. ⊥) }
{
    point::<Goldilocks>(bits, shift, index, answer)
}
