//! The whole program but for the process around it: words in, text and a status out.

ghost use Rattle.std.specs.Prelude.{◌≡◌, ◌≢◌, ◌+◌, ◌<◌, ◌≤◌, ◌↔◌, ◌⊎◌, ℕ, List, map, length, Result, IfErr, IfOk, OnErr, OnOk};
ghost use Rattle.std.specs.Option.{ok_or};
ghost use Rattle.std.specs.List.{slice_get};
ghost use Rattle.std.specs.String.{string_bytes};
ghost use Rattle.std.specs.Mem.{type_size};
ghost use Rattle.p3_matrix.specs.Room.{IsWithinEither};
ghost use Rattle.p3_dft.specs.Jobs.{CanRun, IsAnswer, answer_entries};
ghost use Rattle.dft_program.specs.Answers.{job_of};
ghost use Rattle.dft_program.specs.Faults.{memory_line, seen};
ghost use Rattle.dft_program.specs.NumberedFields.{numbered};
ghost use Rattle.dft_program.specs.Outcome.{Gives, HaveRefusedAnswer, IsOutcome, IsOutcomeIn, IsOutcomeOver, Outcome, RanOut, asked};
ghost use Rattle.dft_program.specs.Refusals.{IsSmall, RefusedWithin};
ghost use Rattle.dft_program.specs.Sinks.{Took, TookStartOf};
ghost use Rattle.dft_program.specs.Words.{ToldAll};

use crate::arguments::{element_of, parse_arguments};
use crate::fault::{Fault, Stopped};
use crate::matrices::{matrix_of, text_of};
use crate::names::{EngineName, FieldName, Operation};
use crate::sink::{Sink, write_text};
use crate::words::{CommandLine, words_after_name};
use p3_dft::{
    BabyBear, CanonicalField, DftError, Evaluations, Goldilocks, Job, NaiveDft, Radix2Bowers,
    Radix2DFTSmallBatch, Radix2Dit, Radix2DitParallel, RowMajorMatrix, TwoAdicSubgroupDft,
};
use std::alloc::Global;

const OUT_OF_MEMORY: &str = "error 9: out of memory\n";

/// Writes what the words after the program's name ask for, and answers the status.
///
/// The whole text is made before its first byte is written.
pub fn run<W: Sink>(alloc: Global, words: &[String], out: &mut W) -> u8
    ensures status { (result ≡ 0) ⊎ (result ≡ 2) ⊎ (result ≡ 3) ⊎ (result ≡ 4) }
    // The outcome of the words was written.
    ensures ended { (result ≡ 0) ⊎ (result ≡ 2) → (text : List ℕ)
        × IsOutcome (map string_bytes words.now) (record { status = result; text = text })
        × Took (W.calls out.old) (W.calls out.new) text }
    // There is an answer, and memory for it was refused.
    ensures memory { result ≡ 3 → HaveRefusedAnswer (map string_bytes words.now)
        × Took (W.calls out.old) (W.calls out.new) memory_line }
    // Writing stopped in the midst of one of these.
    ensures stopped { result ≡ 4
        → ((o : Outcome) × IsOutcome (map string_bytes words.now) o
        × TookStartOf (W.calls out.old) (W.calls out.new) o.text)
        ⊎ (HaveRefusedAnswer (map string_bytes words.now)
        × TookStartOf (W.calls out.old) (W.calls out.new) memory_line) }
    ensures failed { (result ≡ 4) ↔ ((W.calls out.old).failures < (W.calls out.new).failures) }
{
    match answer(alloc, words) {
        Ok(text) => finish(out, text.as_slice(), 0),
        Err(Stopped::ByFault(fault)) => finish(out, fault.line().as_bytes(), 2),
        Err(Stopped::OutOfMemory) => tell_out_of_memory(out),
    }
}

/// Reads the words of a command line, writes what they ask for, and answers the status.
pub fn run_command_line<L: CommandLine, W: Sink>(alloc: Global, line: &mut L, out: &mut W) -> u8
    ensures status { (result ≡ 0) ⊎ (result ≡ 2) ⊎ (result ≡ 3) ⊎ (result ≡ 4) }
    // All words were read, and their outcome was written.
    ensures ended { (result ≡ 0) ⊎ (result ≡ 2) → (words : List (List ℕ)) × (text : List ℕ)
        × ToldAll (L.told line.old) (L.told line.new) words
        × IsOutcome words (record { status = result; text = text })
        × Took (W.calls out.old) (W.calls out.new) text }
    ensures memory { result ≡ 3 → RanOut (L.told line.old) (L.told line.new) (L.too_short line.new)
        × Took (W.calls out.old) (W.calls out.new) memory_line }
    // Writing stopped in the midst of one of these.
    ensures stopped { result ≡ 4 → ((words : List (List ℕ)) × (o : Outcome)
        × ToldAll (L.told line.old) (L.told line.new) words × IsOutcome words o
        × TookStartOf (W.calls out.old) (W.calls out.new) o.text)
        ⊎ (RanOut (L.told line.old) (L.told line.new) (L.too_short line.new)
        × TookStartOf (W.calls out.old) (W.calls out.new) memory_line) }
    ensures failed { (result ≡ 4) ↔ ((W.calls out.old).failures < (W.calls out.new).failures) }
{
    match words_after_name(alloc, line) {
        Ok(words) => run(alloc, words.as_slice(), out),
        Err(_) => tell_out_of_memory(out),
    }
}

// Writes the line that tells that memory was refused, and answers the status.
fn tell_out_of_memory<W: Sink>(out: &mut W) -> u8
    ensures status { (result ≡ 3) ⊎ (result ≡ 4) }
    ensures memory { result ≡ 3 → Took (W.calls out.old) (W.calls out.new) memory_line }
    ensures stopped { result ≡ 4 → TookStartOf (W.calls out.old) (W.calls out.new) memory_line }
    ensures failed { (result ≡ 4) ↔ ((W.calls out.old).failures < (W.calls out.new).failures) }
{
    finish(out, OUT_OF_MEMORY.as_bytes(), 3)
}

// Writes the text, and answers the status: this one, or 4 where a call of the sink failed.
fn finish<W: Sink>(out: &mut W, text: &[u8], status: u8) -> u8
    requires { status < 4 }
    ensures status { (result ≡ status) ⊎ (result ≡ 4) }
    ensures all { result ≢ 4 → Took (W.calls out.old) (W.calls out.new) text.now }
    ensures start { result ≡ 4 → TookStartOf (W.calls out.old) (W.calls out.new) text.now }
    ensures failed { (result ≡ 4) ↔ ((W.calls out.old).failures < (W.calls out.new).failures) }
{
    match write_text(out, text) {
        Ok(()) => status,
        Err(_) => 4,
    }
}

/// What the first three words name.
#[derive(Clone, Copy)]
pub struct Request {
    pub field: FieldName,
    pub engine: EngineName,
    pub operation: Operation,
}

// The text of the answer.
fn answer(alloc: Global, words: &[String]) -> Result<Vec<u8>, Stopped>
    ensures { Gives result (IsOutcome (map string_bytes words.now)) }
{
    let request = asked(words)?;
    answer_in_field(alloc, request, &words[3..])
}

fn asked(words: &[String]) -> Result<Request, Fault>
    ensures exact { result ≡ asked (map string_bytes words.now) }
    ensures behind { OnOk result (3 ≤ length words.now) }
{
    let field = FieldName::of(word_at(words, 0)?).ok_or(Fault::UnknownField)?;
    let engine = EngineName::of(word_at(words, 1)?).ok_or(Fault::UnknownEngine)?;
    let operation = Operation::of(word_at(words, 2)?).ok_or(Fault::UnknownOperation)?;
    Ok(Request {
        field,
        engine,
        operation,
    })
}

fn word_at(words: &[String], i: usize) -> Result<&str, Fault>
    ensures word { seen (λ word. word.now) result ≡ ok_or (slice_get (map string_bytes words.now) i) Fault.TooFewWords }
    ensures within { OnOk result (i < length words.now) }
{
    match words.get(i) {
        Some(word) => Ok(word.as_str()),
        None => Err(Fault::TooFewWords),
    }
}

fn answer_in_field(alloc: Global, request: Request, words: &[String]) -> Result<Vec<u8>, Stopped>
    ensures { Gives result (IsOutcomeIn request.field request.operation (map string_bytes words.now)) }
{
    match request.field {
        FieldName::BabyBear => {
            answer_in::<BabyBear>(alloc, request.engine, request.operation, words)
        }
        FieldName::Goldilocks => {
            answer_in::<Goldilocks>(alloc, request.engine, request.operation, words)
        }
    }
}

fn answer_in<F: CanonicalField>(
    alloc: Global,
    engine: EngineName,
    operation: Operation,
    words: &[String],
) -> Result<Vec<u8>, Stopped>
    requires small { IsSmall F.row }
    ensures { (element : ℕ → F.Element) → ((n : ℕ) → n < F.ORDER_U64 → F.number (element n) ≡ n)
        → Gives result (IsOutcomeOver (numbered F.Valued.own F.generator F.TWO_ADICITY F.ORDER_U64 element)
        operation (map string_bytes words.now)) }
{
    let arguments = parse_arguments::<F>(operation, words)?;
    let matrix = matrix_of::<F>(alloc, arguments.width, arguments.values)?;
    let shift = element_of(arguments.shift);
    let job = job_of(operation, matrix, arguments.added_bits, shift);
    let answer = answer_by(engine, job)?;
    Ok(text_of(alloc, &answer)?)
}

// The job of an operation on a matrix, with the added bits and the shift that some take.
fn job_of<F: CanonicalField>(
    operation: Operation,
    matrix: RowMajorMatrix<F>,
    added_bits: usize,
    shift: F,
) -> Job<F>
    ensures { result ≡ job_of operation matrix added_bits shift }
{
    match operation {
        Operation::Dft => Job::Dft(matrix),
        Operation::CosetDft => Job::CosetDft(matrix, shift),
        Operation::Idft => Job::Idft(matrix),
        Operation::CosetIdft => Job::CosetIdft(matrix, shift),
        Operation::Lde => Job::Lde(matrix, added_bits),
        Operation::CosetLde => Job::CosetLde(matrix, added_bits, shift),
    }
}

// The answer of a new engine.
fn answer_by<F: CanonicalField>(
    engine: EngineName,
    job: Job<F>,
) -> Result<RowMajorMatrix<F>, DftError>
    requires small { IsSmall F.row }
    requires runnable { CanRun F.Valued.own F.TWO_ADICITY job }
    ensures answer { IfOk result (IsAnswer F.Valued.own F.generator job) }
    ensures refused { OnErr result (RefusedWithin (answer_entries job + 2)) }
{
    match engine {
        EngineName::Naive => answer_to(&mut NaiveDft::default(), job),
        EngineName::Dit => answer_to(&mut Radix2Dit::default(), job),
        EngineName::Bowers => answer_to(&mut Radix2Bowers::default(), job),
        EngineName::Parallel => answer_to(&mut Radix2DitParallel::default(), job),
        EngineName::Small => answer_to(&mut Radix2DFTSmallBatch::default(), job),
    }
}

// The answer to one job. No clause of `run_jobs` bounds the list of tables.
fn answer_to<F: CanonicalField, D: TwoAdicSubgroupDft<F>>(
    engine: &mut D,
    job: Job<F>,
) -> Result<RowMajorMatrix<F>, DftError>
    requires runnable { CanRun F.Valued.own F.TWO_ADICITY job }
    ensures answer { IfOk result (IsAnswer F.Valued.own F.generator job) }
    ensures refused { IfErr result (IsWithinEither (type_size F.row) (answer_entries job)
        D.facts.table_bytes (D.facts.tables engine.old + answer_entries job + 1)) }
{
    let values = match job {
        Job::Idft(matrix) => return engine.idft_batch(matrix),
        Job::CosetIdft(matrix, shift) => return engine.coset_idft_batch(matrix, shift),
        Job::Dft(matrix) => engine.dft_batch(matrix)?,
        Job::CosetDft(matrix, shift) => engine.coset_dft_batch(matrix, shift)?,
        Job::Lde(matrix, added_bits) => engine.lde_batch(matrix, added_bits)?,
        Job::CosetLde(matrix, added_bits, shift) => {
            engine.coset_lde_batch(matrix, added_bits, shift)?
        }
    };
    Ok(values.to_row_major_matrix())
}
