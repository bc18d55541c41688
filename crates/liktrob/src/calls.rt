//! The calls, over any field whose elements have words.

ghost use Rattle.std.specs.Prelude.{◌≡◌, ◌≢◌, ℕ, ◌*◌, ◌/◌, ◌^◌, ◌<◌, ◌≤◌, ◌↔◌, ⊤, List, length, IfOk};
ghost use Rattle.std.specs.Prelude.{IsTrue, MatchBool, true};
ghost use Rattle.std.specs.List.{AllZip};
ghost use Rattle.p3_field.specs.Ring.{IsInvertible};
ghost use Rattle.liktrob.specs.Answers.{IsAnswered, IsAnsweredByColumns, IsPoint, IsToldCodeword};
ghost use Rattle.liktrob.specs.Answers.{added, undoes, undoes_shifts};
ghost use Rattle.liktrob.specs.Statuses.{IsOutOfMemory, IsStatus, Tells, refusal_of};
ghost use Rattle.liktrob.specs.Words.{AreBelow, AreBelowWithStep, Fits, HasInverse, HaveInverses, Names};
ghost use Rattle.liktrob.specs.Words.{in_words};

use crate::engines::{Direction, Engine, Operation, answer_by, answer_columns_by};
use crate::refusal::Refusal;
use crate::words::{WordField, elements, write};
use p3_dft::{RowMajorMatrix, TwoAdicField, fits_lde, has_degree_below};
use std::alloc::Global;

/// Answers an operation in place of the words.
pub fn answer_in_place<F: WordField>(
    alloc: Global,
    operation: Operation,
    engine: u32,
    words: &mut [F::Word],
    width: usize,
    shift: F::Word,
) -> u32
    ensures answer { let f = in_words F.Valued.own F.generator F.TWO_ADICITY F.ORDER_U64 F.word_number in
        result ≡ 0 → IsAnswered f operation words.old width shift words.new }
    ensures kept { result ≢ 0 → words.new ≡ words.old }
    ensures status { let f = in_words F.Valued.own F.generator F.TWO_ADICITY F.ORDER_U64 F.word_number in
        IsStatus result (engine ≤ 5) (AreBelow f shift words.old)
        (Fits F.TWO_ADICITY (length words.old) width (added operation) (length words.old))
        (MatchBool (undoes operation) (HasInverse f shift) ⊤)
        (IsOutOfMemory F.row (length words.old) (added operation)) }
{
    let room = words.len();
    match answer::<F>(alloc, operation, engine, words, width, shift, room) {
        Ok(found) => {
            write(found.values(), words);
            0
        }
        Err(refusal) => refusal.status(),
    }
}

/// Answers an operation in words of their own.
pub fn answer_into<F: WordField>(
    alloc: Global,
    operation: Operation,
    engine: u32,
    words: &[F::Word],
    width: usize,
    shift: F::Word,
    out: &mut [F::Word],
) -> u32
    ensures answer { let f = in_words F.Valued.own F.generator F.TWO_ADICITY F.ORDER_U64 F.word_number in
        result ≡ 0 → IsAnswered f operation words.now width shift out.new }
    ensures kept { result ≢ 0 → out.new ≡ out.old }
    ensures status { let f = in_words F.Valued.own F.generator F.TWO_ADICITY F.ORDER_U64 F.word_number in
        IsStatus result (engine ≤ 5) (AreBelow f shift words.now)
        (Fits F.TWO_ADICITY (length words.now) width (added operation) (length out.old))
        (MatchBool (undoes operation) (HasInverse f shift) ⊤)
        (IsOutOfMemory F.row (length out.old) (added operation)) }
{
    let room = out.len();
    match answer::<F>(alloc, operation, engine, words, width, shift, room) {
        Ok(found) => {
            write(found.values(), out);
            0
        }
        Err(refusal) => refusal.status(),
    }
}

/// Transforms columns in place of the words, where column j lies on the coset of `shift * step^j`.
pub fn answer_columns<F: WordField>(
    alloc: Global,
    direction: Direction,
    engine: u32,
    words: &mut [F::Word],
    width: usize,
    shift: F::Word,
    step: F::Word,
) -> u32
    ensures answer { let f = in_words F.Valued.own F.generator F.TWO_ADICITY F.ORDER_U64 F.word_number in
        result ≡ 0 → IsAnsweredByColumns f direction words.old width shift step words.new }
    ensures kept { result ≢ 0 → words.new ≡ words.old }
    ensures status { let f = in_words F.Valued.own F.generator F.TWO_ADICITY F.ORDER_U64 F.word_number in
        IsStatus result (engine ≤ 5) (AreBelowWithStep f step shift words.old)
        (Fits F.TWO_ADICITY (length words.old) width 0 (length words.old))
        (MatchBool (undoes_shifts direction) (HaveInverses f shift step width) ⊤)
        (IsOutOfMemory F.row (length words.old) 0) }
{
    match columns::<F>(alloc, direction, engine, words, width, shift, step) {
        Ok(found) => {
            write(found.values(), words);
            0
        }
        Err(refusal) => refusal.status(),
    }
}

/// Writes `shift * g^index`, where g generates the subgroup of order `2^bits`.
pub fn point<F: WordField>(bits: usize, shift: F::Word, index: usize, answer: &mut F::Word) -> u32
    ensures answer { let f = in_words F.Valued.own F.generator F.TWO_ADICITY F.ORDER_U64 F.word_number in
        result ≡ 0 → IsPoint f bits shift index answer.new }
    ensures kept { result ≢ 0 → answer.new ≡ answer.old }
    ensures status { IsStatus result ⊤ (F.word_number shift < F.ORDER_U64) (bits ≤ F.TWO_ADICITY) ⊤ (λ _. ⊥) }
{
    match point_of::<F>(bits, shift, index) {
        Ok(found) => {
            *answer = found.to_word();
            0
        }
        Err(refusal) => refusal.status(),
    }
}

/// Tells whether words name a codeword.
pub fn is_codeword<F: WordField>(
    alloc: Global,
    engine: u32,
    words: &[F::Word],
    width: usize,
    added_bits: usize,
    shift: F::Word,
    answer: &mut u32,
) -> u32
    ensures answer { let f = in_words F.Valued.own F.generator F.TWO_ADICITY F.ORDER_U64 F.word_number in
        result ≡ 0 → IsToldCodeword f words.now width added_bits shift answer.new }
    ensures kept { result ≢ 0 → answer.new ≡ answer.old }
    ensures status { let f = in_words F.Valued.own F.generator F.TWO_ADICITY F.ORDER_U64 F.word_number in
        IsStatus result (engine ≤ 5) (AreBelow f shift words.now)
        (Fits F.TWO_ADICITY (length words.now / 2 ^ added_bits) width added_bits (length words.now))
        (HasInverse f shift) (IsOutOfMemory F.row (length words.now) added_bits) }
{
    match has_low_degree::<F>(alloc, engine, words, width, added_bits, shift) {
        Ok(low) => {
            *answer = low as u32;
            0
        }
        Err(refusal) => refusal.status(),
    }
}

// What an operation answers, as many elements as there is room for.
fn answer<F: WordField>(
    alloc: Global,
    operation: Operation,
    engine: u32,
    words: &[F::Word],
    width: usize,
    shift: F::Word,
    room: usize,
) -> Result<RowMajorMatrix<F>, Refusal>
    ensures told { let f = in_words F.Valued.own F.generator F.TWO_ADICITY F.ORDER_U64 F.word_number in
        Tells (refusal_of result) (engine ≤ 5) (AreBelow f shift words.now)
        (Fits F.TWO_ADICITY (length words.now) width (added operation) room)
        (MatchBool (undoes operation) (HasInverse f shift) ⊤) (IsOutOfMemory F.row room (added operation)) }
    ensures size { IfOk result (λ out. length out.values ≡ room) }
    ensures answer { let f = in_words F.Valued.own F.generator F.TWO_ADICITY F.ORDER_U64 F.word_number in
        IfOk result (λ out. (answer : List F.Word) → AllZip (Names f) answer out.values
        → IsAnswered f operation words.now width shift answer) }
{
    let shape = Shape {
        count: words.len(),
        width,
        added_bits: operation.added_bits(),
        extended: room,
    };
    let (engine, mat, shift) = asked::<F>(
        alloc,
        engine,
        words,
        shape,
        shift,
        operation.undoes_shift(),
    )?;
    Ok(answer_by(engine, operation, mat, shift)?)
}

// What columns become where column j lies on the coset of `shift * step^j`.
fn columns<F: WordField>(
    alloc: Global,
    direction: Direction,
    engine: u32,
    words: &[F::Word],
    width: usize,
    shift: F::Word,
    step: F::Word,
) -> Result<RowMajorMatrix<F>, Refusal>
    ensures told { let f = in_words F.Valued.own F.generator F.TWO_ADICITY F.ORDER_U64 F.word_number in
        Tells (refusal_of result) (engine ≤ 5) (AreBelowWithStep f step shift words.now)
        (Fits F.TWO_ADICITY (length words.now) width 0 (length words.now))
        (MatchBool (undoes_shifts direction) (HaveInverses f shift step width) ⊤)
        (IsOutOfMemory F.row (length words.now) 0) }
    ensures size { IfOk result (λ out. length out.values ≡ length words.now) }
    ensures answer { let f = in_words F.Valued.own F.generator F.TWO_ADICITY F.ORDER_U64 F.word_number in
        IfOk result (λ out. (answer : List F.Word) → AllZip (Names f) answer out.values
        → IsAnsweredByColumns f direction words.now width shift step answer) }
{
    if Engine::of(engine).is_none() {
        return Err(Refusal::Engine);
    }
    if !F::is_below(shift) {
        return Err(Refusal::Number);
    }
    if !F::is_below(step) {
        return Err(Refusal::Number);
    }
    let shape = Shape {
        count: words.len(),
        width,
        added_bits: 0,
        extended: words.len(),
    };
    let shift = F::from_word(shift);
    let step = F::from_word(step);
    // The shift of each column has an inverse where that of the last one has.
    let last = shift * step.exp_u64(width.saturating_sub(1) as u64);
    let (engine, mat, _last) = asked::<F>(
        alloc,
        engine,
        words,
        shape,
        last.to_word(),
        direction.undoes_shifts(),
    )?;
    Ok(answer_columns_by(engine, direction, mat, shift, step)?)
}

// The point with this index on the coset of the shift of the subgroup of order `2^bits`.
fn point_of<F: WordField>(bits: usize, shift: F::Word, index: usize) -> Result<F, Refusal>
    ensures told { Tells (refusal_of result) ⊤ (F.word_number shift < F.ORDER_U64) (bits ≤ F.TWO_ADICITY) ⊤ (λ _. ⊥) }
    ensures answer { let f = in_words F.Valued.own F.generator F.TWO_ADICITY F.ORDER_U64 F.word_number in
        IfOk result (λ found. (answer : F.Word) → Names f answer found → IsPoint f bits shift index answer) }
{
    if !F::is_below(shift) {
        return Err(Refusal::Number);
    }
    if bits > F::TWO_ADICITY {
        return Err(Refusal::Shape);
    }
    let root = F::two_adic_generator(bits);
    Ok(F::from_word(shift) * root.exp_u64(index as u64))
}

// Whether words name a codeword: the coefficients of what they name are zero behind those of a message.
fn has_low_degree<F: WordField>(
    alloc: Global,
    engine: u32,
    words: &[F::Word],
    width: usize,
    added_bits: usize,
    shift: F::Word,
) -> Result<bool, Refusal>
    ensures told { let f = in_words F.Valued.own F.generator F.TWO_ADICITY F.ORDER_U64 F.word_number in
        Tells (refusal_of result) (engine ≤ 5) (AreBelow f shift words.now)
        (Fits F.TWO_ADICITY (length words.now / 2 ^ added_bits) width added_bits (length words.now))
        (HasInverse f shift) (IsOutOfMemory F.row (length words.now) added_bits) }
    ensures answer { let f = in_words F.Valued.own F.generator F.TWO_ADICITY F.ORDER_U64 F.word_number in
        IfOk result (λ low. (answer : ℕ) → answer ≤ 1 → (answer ≡ 1 ↔ IsTrue low)
        → IsToldCodeword f words.now width added_bits shift answer) }
{
    let shape = Shape {
        count: message_size(words.len(), added_bits),
        width,
        added_bits,
        extended: words.len(),
    };
    let (engine, word, shift) = asked::<F>(alloc, engine, words, shape, shift, true)?;
    let coefficients = answer_by(engine, Operation::CosetIdft, word, shift)?;
    Ok(has_degree_below(&coefficients, shape.count / width))
}

// How many entries there are before an extension into so many.
fn message_size(extended: usize, added_bits: usize) -> usize
    ensures { result ≡ extended / 2 ^ added_bits }
{
    if added_bits < 64 {
        extended >> added_bits
    } else {
        0
    }
}

// So many entries in rows of this width, and an extension by these bits into so many.
#[derive(Clone, Copy)]
struct Shape {
    count: usize,
    width: usize,
    added_bits: usize,
    extended: usize,
}

impl Shape {
    fn fits<F: TwoAdicField>(self) -> bool
        ensures { IsTrue result ↔ Fits F.TWO_ADICITY self.count self.width self.added_bits self.extended }
    {
        if self.width == 0 {
            return false;
        }
        if self.count % self.width != 0 {
            return false;
        }
        if !fits_lde::<F>(self.count / self.width, self.width, self.added_bits) {
            return false;
        }
        if self.extended != self.count << self.added_bits {
            return false;
        }
        true
    }
}

// The engine of a number, the matrix and the element that words and a shift name, where no condition of the call fails.
// Words that fit are rows, and no more than the answer has, which the caller shows.
fn asked<F: WordField>(
    alloc: Global,
    engine: u32,
    words: &[F::Word],
    shape: Shape,
    shift: F::Word,
    undoes_shift: bool,
) -> Result<(Engine, RowMajorMatrix<F>, F), Refusal>
    requires { Fits F.TWO_ADICITY shape.count shape.width shape.added_bits shape.extended
        → ((length words.now / shape.width) * shape.width ≡ length words.now) × (length words.now ≤ shape.extended) }
    ensures told { let f = in_words F.Valued.own F.generator F.TWO_ADICITY F.ORDER_U64 F.word_number in
        Tells (refusal_of result) (engine ≤ 5) (AreBelow f shift words.now)
        (Fits F.TWO_ADICITY shape.count shape.width shape.added_bits shape.extended)
        (MatchBool undoes_shift (HasInverse f shift) ⊤) (IsOutOfMemory F.row shape.extended shape.added_bits) }
    ensures width { IfOk result (λ read. read.1.width ≡ shape.width) }
    ensures entries { IfOk result (λ read.
        AllZip (λ word x. F.word_number word ≡ F.number (F.value x)) words.now read.1.values) }
    ensures coset { IfOk result (λ read. F.word_number shift ≡ F.number (F.value read.2)) }
    ensures invertible { IfOk result (λ read. undoes_shift ≡ true → IsInvertible F.ring (F.value read.2)) }
{
    let Some(engine) = Engine::of(engine) else {
        return Err(Refusal::Engine);
    };
    if !F::is_below(shift) {
        return Err(Refusal::Number);
    }
    let Some(read) = elements::<F>(alloc, words) else {
        return Err(Refusal::Number);
    };
    if !shape.fits::<F>() {
        return Err(Refusal::Shape);
    }
    let shift = F::from_word(shift);
    if undoes_shift && shift.try_inverse().is_none() {
        return Err(Refusal::Shift);
    }
    Ok((engine, RowMajorMatrix::new(read?, shape.width), shift))
}
