//! The engines by number, and the operations that each answers.

ghost use Rattle.std.specs.Prelude.{◌≡◌, ℕ, ◌+◌, ◌*◌, ◌^◌, ◌<◌, ◌≤◌, ◌↔◌, length, IfErr, IfOk, IsSome, slice_get};
ghost use Rattle.std.specs.Prelude.{true};
ghost use Rattle.std.specs.Mem.{type_size};
ghost use Rattle.p3_field.specs.Ring.{IsInvertible};
ghost use Rattle.p3_matrix.specs.RowMajor.{RowMajor, height};
ghost use Rattle.p3_matrix.specs.BitOrder.{reversed_rows};
ghost use Rattle.p3_matrix.specs.Room.{IsWithinEither};
ghost use Rattle.p3_dft.specs.ColumnCosets.{column_shift};
ghost use Rattle.p3_dft.specs.Extensions.{IsExtension};
ghost use Rattle.p3_dft.specs.Shapes.{FitsDft, FitsLde};
ghost use Rattle.p3_dft.specs.Transforms.{IsExtendedTransform};
ghost use Rattle.liktrob.specs.Answers.{IsAnswer, IsAnswerByColumns, added, undoes, undoes_shifts};
ghost use Rattle.liktrob.specs.Statuses.{IsOutOfMemory};

use p3_dft::{
    DftError, Evaluations, Layout, NaiveDft, Radix2Bowers, Radix2DFTSmallBatch, Radix2Dit,
    Radix2DitParallel, RowMajorMatrix, TwoAdicField, TwoAdicSubgroupDft, coset_dft_columns,
    coset_idft_columns,
};

/// An engine of `p3_dft`, or the one of them that is the fastest for what is asked.
#[derive(Clone, Copy)]
pub enum Engine {
    Fastest,
    Naive,
    Dit,
    Bowers,
    Parallel,
    SmallBatch,
}

// The first is for callers who do not choose.
const ENGINES: [Engine; 6] = [
    Engine::Fastest,
    Engine::Naive,
    Engine::Dit,
    Engine::Bowers,
    Engine::Parallel,
    Engine::SmallBatch,
];

impl Engine {
    /// The engine of this number.
    pub fn of(number: u32) -> Option<Engine>
        ensures engine { result ≡ slice_get ENGINES number }
        ensures some { IsSome result ↔ (number ≤ 5) }
    {
        ENGINES.get(number as usize).copied()
    }
}

/// What is made of a matrix on the coset of a shift.
#[derive(Clone, Copy)]
pub enum Operation {
    /// Values on the coset of `2^added_bits` times as many points, of coefficients.
    CosetDft(usize),
    /// Coefficients of values on the coset.
    CosetIdft,
    /// Values on the coset of `2^added_bits` times as many points, of values on the subgroup.
    CosetLde(usize),
    /// The same with rows in bit reversed order.
    CosetLdeBitReversed(usize),
}

impl Operation {
    /// By how many bits the answer is extended.
    pub fn added_bits(self) -> usize
        ensures { result ≡ added self }
    {
        match self {
            Operation::CosetDft(added_bits) => added_bits,
            Operation::CosetIdft => 0,
            Operation::CosetLde(added_bits) => added_bits,
            Operation::CosetLdeBitReversed(added_bits) => added_bits,
        }
    }

    /// Whether the shift is to have an inverse.
    pub fn undoes_shift(self) -> bool
        ensures { result ≡ undoes self }
    {
        match self {
            Operation::CosetIdft => true,
            Operation::CosetDft(_) | Operation::CosetLde(_) | Operation::CosetLdeBitReversed(_) => {
                false
            }
        }
    }
}

/// What the engine answers.
pub fn answer_by<F: TwoAdicField>(
    engine: Engine,
    operation: Operation,
    mat: RowMajorMatrix<F>,
    shift: F,
) -> Result<RowMajorMatrix<F>, DftError>
    requires fits { FitsLde F.TWO_ADICITY (height mat) mat.width (added operation) }
    requires invertible { undoes operation ≡ true → IsInvertible F.ring (F.value shift) }
    ensures size { IfOk result (λ out. length out.values ≡ length mat.values * 2 ^ added operation) }
    ensures answer { IfOk result (λ out. (k : ℕ) → height mat ≡ 2 ^ k
        → IsAnswer F.Valued.own F.generator operation mat k (F.value shift) out) }
    ensures refused { IfErr result
        (IsOutOfMemory F.row (length mat.values * 2 ^ added operation) (added operation)) }
{
    let engine = match engine {
        Engine::Fastest => fastest(operation, mat.height(), mat.width()),
        chosen => chosen,
    };
    match engine {
        Engine::Naive => answer_to(&mut NaiveDft::default(), operation, mat, shift),
        Engine::Dit => answer_to(&mut Radix2Dit::default(), operation, mat, shift),
        Engine::Bowers => answer_to(&mut Radix2Bowers::default(), operation, mat, shift),
        Engine::Parallel => answer_to(&mut Radix2DitParallel::default(), operation, mat, shift),
        Engine::Fastest | Engine::SmallBatch => answer_to(
            &mut Radix2DFTSmallBatch::default(),
            operation,
            mat,
            shift,
        ),
    }
}

// The engine by which one call is fastest, as measured. No table is kept for a second call, and `Radix2Bowers` makes
// fewer of them; its inverses begin with the inverse of a generator, which is dear in a short column. In bit reversed
// order `Radix2DFTSmallBatch` goes coset by coset, and by four bits or more these are many short columns.
fn fastest(operation: Operation, height: usize, width: usize) -> Engine {
    let by_bowers = match operation {
        Operation::CosetDft(added_bits) => added_bits < bits_of_many_zeros(width),
        Operation::CosetIdft => false,
        Operation::CosetLde(added_bits) => {
            width == 1 && height >= 64 && added_bits < bits_of_many_zeros(width)
        }
        Operation::CosetLdeBitReversed(added_bits) => {
            width == 1 && (height >= 64 || added_bits >= 4)
        }
    };
    if by_bowers {
        Engine::Bowers
    } else {
        Engine::SmallBatch
    }
}

// From how many added bits on it pays, in natural order, to meet no row of zeros: `Radix2DFTSmallBatch` meets none.
fn bits_of_many_zeros(width: usize) -> usize {
    if width == 1 {
        5
    } else if width <= 8 {
        3
    } else {
        2
    }
}

fn answer_to<F: TwoAdicField, D: TwoAdicSubgroupDft<F>>(
    engine: &mut D,
    operation: Operation,
    mat: RowMajorMatrix<F>,
    shift: F,
) -> Result<RowMajorMatrix<F>, DftError>
    requires fits { FitsLde F.TWO_ADICITY (height mat) mat.width (added operation) }
    requires invertible { undoes operation ≡ true → IsInvertible F.ring (F.value shift) }
    ensures size { IfOk result (λ out. length out.values ≡ length mat.values * 2 ^ added operation) }
    ensures answer { IfOk result (λ out. (k : ℕ) → height mat ≡ 2 ^ k
        → IsAnswer F.Valued.own F.generator operation mat k (F.value shift) out) }
    ensures refused { IfErr result (IsWithinEither (type_size F.row) (length mat.values * 2 ^ added operation)
        D.facts.table_bytes (D.facts.tables engine.old + 2 ^ added operation + 1)) }
{
    match operation {
        Operation::CosetDft(added_bits) => {
            extension_of_coefficients(engine, mat, added_bits, shift)
        }
        Operation::CosetIdft => engine.coset_idft_batch(mat, shift),
        Operation::CosetLde(added_bits) => extension(engine, mat, added_bits, shift),
        Operation::CosetLdeBitReversed(added_bits) => {
            bit_reversed_extension(engine, mat, added_bits, shift)
        }
    }
}

// The values of the columns' polynomials on the larger coset.
fn extension_of_coefficients<F: TwoAdicField, D: TwoAdicSubgroupDft<F>>(
    engine: &mut D,
    mat: RowMajorMatrix<F>,
    added_bits: usize,
    shift: F,
) -> Result<RowMajorMatrix<F>, DftError>
    requires { FitsLde F.TWO_ADICITY (height mat) mat.width added_bits }
    ensures size { IfOk result (λ out. length out.values ≡ length mat.values * 2 ^ added_bits) }
    ensures values { IfOk result (IsExtendedTransform F.Valued.own F.generator mat added_bits (F.value shift)) }
    ensures refused { IfErr result (IsWithinEither (type_size F.row) (length mat.values * 2 ^ added_bits)
        D.facts.table_bytes (D.facts.tables engine.old + 2 ^ added_bits + 1)) }
{
    let values = engine.coset_lde_batch_of_coefficients(mat, added_bits, shift)?;
    Ok(values.to_row_major_matrix())
}

// The extension, in natural order.
fn extension<F: TwoAdicField, D: TwoAdicSubgroupDft<F>>(
    engine: &mut D,
    mat: RowMajorMatrix<F>,
    added_bits: usize,
    shift: F,
) -> Result<RowMajorMatrix<F>, DftError>
    requires { FitsLde F.TWO_ADICITY (height mat) mat.width added_bits }
    ensures size { IfOk result (λ out. length out.values ≡ length mat.values * 2 ^ added_bits) }
    ensures values { IfOk result (IsExtension F.Valued.own F.generator mat added_bits (F.value shift)) }
    ensures refused { IfErr result (IsWithinEither (type_size F.row) (length mat.values * 2 ^ added_bits)
        D.facts.table_bytes (D.facts.tables engine.old + 2 ^ added_bits + 1)) }
{
    let values = engine.coset_lde_batch(mat, added_bits, shift)?;
    Ok(values.to_row_major_matrix())
}

// The extension, in bit reversed order.
fn bit_reversed_extension<F: TwoAdicField, D: TwoAdicSubgroupDft<F>>(
    engine: &mut D,
    mat: RowMajorMatrix<F>,
    added_bits: usize,
    shift: F,
) -> Result<RowMajorMatrix<F>, DftError>
    requires { FitsLde F.TWO_ADICITY (height mat) mat.width added_bits }
    ensures size { IfOk result (λ out. length out.values ≡ length mat.values * 2 ^ added_bits) }
    ensures values { IfOk result (λ out. (k : ℕ) → height mat ≡ 2 ^ k → IsExtension F.Valued.own F.generator mat
        added_bits (F.value shift) (reversed_rows (k + added_bits) out)) }
    ensures refused { IfErr result (IsWithinEither (type_size F.row) (length mat.values * 2 ^ added_bits)
        D.facts.table_bytes (D.facts.tables engine.old + 2 ^ added_bits + 1)) }
{
    let values = engine.coset_lde_batch_bit_reversed(
        mat,
        added_bits,
        shift,
        |coefficients: RowMajorMatrix<F>, _layout: Layout| -> RowMajorMatrix<F>
            ensures { result ≡ coefficients }
        { coefficients },
    )?;
    Ok(values.bit_reverse_rows())
}

/// In which direction columns that lie on cosets of their own are transformed.
#[derive(Clone, Copy)]
pub enum Direction {
    /// Values on the cosets, of coefficients.
    ToValues,
    /// Coefficients of values on the cosets.
    ToCoefficients,
}

impl Direction {
    /// Whether the shift of each column is to have an inverse.
    pub fn undoes_shifts(self) -> bool
        ensures { result ≡ undoes_shifts self }
    {
        match self {
            Direction::ToValues => false,
            Direction::ToCoefficients => true,
        }
    }
}

/// What the engine answers where column j lies on the coset of `shift * step^j`.
pub fn answer_columns_by<F: TwoAdicField>(
    engine: Engine,
    direction: Direction,
    mat: RowMajorMatrix<F>,
    shift: F,
    step: F,
) -> Result<RowMajorMatrix<F>, DftError>
    requires fits { FitsDft F.TWO_ADICITY (height mat) mat.width }
    requires invertible { undoes_shifts direction ≡ true → (j : ℕ) → j < mat.width
        → IsInvertible F.ring (column_shift F.ring (F.value shift) (F.value step) j) }
    ensures size { IfOk result (λ out. length out.values ≡ length mat.values) }
    ensures answer { IfOk result (λ out. IsAnswerByColumns F.Valued.own F.generator direction mat
        (column_shift F.ring (F.value shift) (F.value step)) out) }
    ensures refused { IfErr result (IsOutOfMemory F.row (length mat.values) 0) }
{
    match engine {
        Engine::Naive => answer_columns_to(&mut NaiveDft::default(), direction, mat, shift, step),
        Engine::Dit => answer_columns_to(&mut Radix2Dit::default(), direction, mat, shift, step),
        Engine::Parallel => answer_columns_to(
            &mut Radix2DitParallel::default(),
            direction,
            mat,
            shift,
            step,
        ),
        Engine::SmallBatch => answer_columns_to(
            &mut Radix2DFTSmallBatch::default(),
            direction,
            mat,
            shift,
            step,
        ),
        Engine::Fastest | Engine::Bowers => {
            answer_columns_to(&mut Radix2Bowers::default(), direction, mat, shift, step)
        }
    }
}

fn answer_columns_to<F: TwoAdicField, D: TwoAdicSubgroupDft<F>>(
    engine: &mut D,
    direction: Direction,
    mat: RowMajorMatrix<F>,
    shift: F,
    step: F,
) -> Result<RowMajorMatrix<F>, DftError>
    requires fits { FitsDft F.TWO_ADICITY (height mat) mat.width }
    requires invertible { undoes_shifts direction ≡ true → (j : ℕ) → j < mat.width
        → IsInvertible F.ring (column_shift F.ring (F.value shift) (F.value step) j) }
    ensures size { IfOk result (λ out. length out.values ≡ length mat.values) }
    ensures answer { IfOk result (λ out. IsAnswerByColumns F.Valued.own F.generator direction mat
        (column_shift F.ring (F.value shift) (F.value step)) out) }
    ensures refused { IfErr result (IsWithinEither (type_size F.row) (length mat.values)
        D.facts.table_bytes (D.facts.tables engine.old + 2)) }
{
    match direction {
        Direction::ToValues => coset_dft_columns(engine, mat, shift, step),
        Direction::ToCoefficients => coset_idft_columns(engine, mat, shift, step),
    }
}
