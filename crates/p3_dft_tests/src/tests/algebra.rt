// Matrices over vector spaces: callers of four laws, worked columns, and that a form answers for each coordinate what
// the call over the field answers.

ghost use Rattle.std.specs.Prelude.{ℕ, ◌*◌, ◌<◌, ◌≤◌, IfOk, IsTrue};
ghost use Rattle.p3_field.specs.Ring.{IsInvertible};
ghost use Rattle.p3_matrix.specs.RowMajor.{height};
ghost use Rattle.p3_dft.specs.Coordinates.{coordinate};
ghost use Rattle.p3_dft.specs.Extensions.{IsExtension};
ghost use Rattle.p3_dft.specs.Shapes.{FitsDft, FitsLde};
ghost use Rattle.p3_dft.specs.Transforms.{IsInterpolation, IsTransform};

use super::helpers::engines::{EVERY_ENGINE, Kind, TestEngine, assert_rows_of, input, rows_of};
use super::helpers::matrices::{matrix, matrix_of, sample};
use super::{FieldName, Topic, over};
use engine_calls::answers::Answer;
use engine_calls::engines::Engine;
use engine_calls::names::{Call, ENGINES, OPERATIONS, Operation};
use p3_dft::{
    BabyBear, BasedVectorSpace, CanonicalField, Coordinates, DftError, Field, Goldilocks,
    RowMajorMatrix, TwoAdicField, TwoAdicSubgroupDft,
};
use std::alloc::Global;
use std::process::Abort;

// In dimension one a form is the call over the field.
fn transformed_in_dimension_one<F: TwoAdicField, D: TwoAdicSubgroupDft<F>>(
    engine: &mut D,
    mat: RowMajorMatrix<F>,
) -> Result<RowMajorMatrix<F>, DftError>
    requires { FitsDft F.TWO_ADICITY (height mat) mat.width }
    ensures { IfOk result (λ out. IsTransform F.Valued.own F.generator mat F.ring.one out) }
{
    engine.dft_algebra_batch(mat)
}

// Each coordinate of a transform is the transform of the matrix of that coordinate.
fn coordinates_transformed<F: TwoAdicField, V: BasedVectorSpace<F>, D: TwoAdicSubgroupDft<F>>(
    engine: &mut D,
    mat: RowMajorMatrix<V>,
    shift: F,
) -> Result<RowMajorMatrix<V>, DftError>
    requires { FitsDft F.TWO_ADICITY (height mat) (mat.width * V.DIMENSION) }
    ensures { IfOk result (λ out. (t : ℕ) → t < V.DIMENSION → IsTransform F.Valued.own F.generator
        (coordinate V.BasedVectorSpace.own F.zero t mat) (F.value shift)
        (coordinate V.BasedVectorSpace.own F.zero t out)) }
{
    engine.coset_dft_algebra_batch(mat, shift)
}

// So is each coordinate of an inverse.
fn coordinates_undone<F: TwoAdicField, V: BasedVectorSpace<F>, D: TwoAdicSubgroupDft<F>>(
    engine: &mut D,
    mat: RowMajorMatrix<V>,
    shift: F,
) -> Result<RowMajorMatrix<V>, DftError>
    requires fits { FitsDft F.TWO_ADICITY (height mat) (mat.width * V.DIMENSION) }
    requires invertible { IsInvertible F.ring (F.value shift) }
    ensures { IfOk result (λ out. (t : ℕ) → t < V.DIMENSION → IsInterpolation F.Valued.own F.generator
        (coordinate V.BasedVectorSpace.own F.zero t mat) (F.value shift)
        (coordinate V.BasedVectorSpace.own F.zero t out)) }
{
    engine.coset_idft_algebra_batch(mat, shift)
}

// Each coordinate of an extension is the extension of that coordinate alone.
fn coordinates_extended<F: TwoAdicField, V: BasedVectorSpace<F>, D: TwoAdicSubgroupDft<F>>(
    engine: &mut D,
    mat: RowMajorMatrix<V>,
    added_bits: usize,
    shift: F,
) -> Result<RowMajorMatrix<V>, DftError>
    requires { FitsLde F.TWO_ADICITY (height mat) (mat.width * V.DIMENSION) added_bits }
    ensures { IfOk result (λ out. (t : ℕ) → t < V.DIMENSION → IsExtension F.Valued.own F.generator
        (coordinate V.BasedVectorSpace.own F.zero t mat) added_bits (F.value shift)
        (coordinate V.BasedVectorSpace.own F.zero t out)) }
{
    engine.coset_lde_algebra_batch(mat, added_bits, shift)
}

// A column that was worked: what is done, its elements' coordinates, the added bits, the shift, and the answer's.
struct Column {
    operation: Operation,
    rows: &'static [u64],
    added_bits: usize,
    shift: usize,
    answer: &'static [u64],
}

const PAIRS_OVER_BABY_BEAR: [Column; 4] = [
    Column {
        operation: Operation::Dft,
        rows: &[5, 1, 4, 0],
        added_bits: 0,
        shift: 1,
        answer: &[9, 1, 1, 1],
    },
    Column {
        operation: Operation::Idft,
        rows: &[9, 1, 1, 1],
        added_bits: 0,
        shift: 1,
        answer: &[5, 1, 4, 0],
    },
    Column {
        operation: Operation::Lde,
        rows: &[9, 42, 1, 42],
        added_bits: 1,
        shift: 1,
        answer: &[9, 42, 873820294, 42, 1, 42, 1139445637, 42],
    },
    Column {
        operation: Operation::CosetLde,
        rows: &[9, 42, 1, 42],
        added_bits: 1,
        shift: 0,
        answer: &[5, 42, 5, 42, 5, 42, 5, 42],
    },
];

const PAIRS_OVER_GOLDILOCKS: [Column; 1] = [Column {
    operation: Operation::Lde,
    rows: &[9, 42, 1, 42],
    added_bits: 1,
    shift: 1,
    answer: &[9, 42, 1125899906842629, 42, 1, 42, 18445618169507741702, 42],
}];

// Columns of two elements, whose polynomials have coefficients 1, 2, 3, 4, .. and then those after them.
const FOURS_OVER_BABY_BEAR: [Column; 4] = [
    Column {
        operation: Operation::CosetDft,
        rows: &[1, 2, 3, 4, 5, 6, 7, 8],
        added_bits: 0,
        shift: 31,
        answer: &[
            156, 188, 220, 252, 2013265767, 2013265737, 2013265707, 2013265677,
        ],
    },
    Column {
        operation: Operation::CosetIdft,
        rows: &[
            156, 188, 220, 252, 2013265767, 2013265737, 2013265707, 2013265677,
        ],
        added_bits: 0,
        shift: 31,
        answer: &[1, 2, 3, 4, 5, 6, 7, 8],
    },
    Column {
        operation: Operation::Idft,
        rows: &[6, 8, 10, 12, 2013265917, 2013265917, 2013265917, 2013265917],
        added_bits: 0,
        shift: 1,
        answer: &[1, 2, 3, 4, 5, 6, 7, 8],
    },
    Column {
        operation: Operation::CosetLde,
        rows: &[6, 8, 10, 12, 2013265917, 2013265917, 2013265917, 2013265917],
        added_bits: 1,
        shift: 31,
        answer: &[
            156, 188, 220, 252, 138332023, 1373957981, 596318018, 1831943976, 2013265767,
            2013265737, 2013265707, 2013265677, 1874933900, 639307944, 1416947909, 181321953,
        ],
    },
];

const FIVES_OVER_BABY_BEAR: [Column; 4] = [
    Column {
        operation: Operation::CosetDft,
        rows: &[1, 2, 3, 4, 5, 6, 7, 8, 9, 10],
        added_bits: 0,
        shift: 31,
        answer: &[
            187, 219, 251, 283, 315, 2013265736, 2013265706, 2013265676, 2013265646, 2013265616,
        ],
    },
    Column {
        operation: Operation::CosetIdft,
        rows: &[
            187, 219, 251, 283, 315, 2013265736, 2013265706, 2013265676, 2013265646, 2013265616,
        ],
        added_bits: 0,
        shift: 31,
        answer: &[1, 2, 3, 4, 5, 6, 7, 8, 9, 10],
    },
    Column {
        operation: Operation::Idft,
        rows: &[
            7, 9, 11, 13, 15, 2013265916, 2013265916, 2013265916, 2013265916, 2013265916,
        ],
        added_bits: 0,
        shift: 1,
        answer: &[1, 2, 3, 4, 5, 6, 7, 8, 9, 10],
    },
    Column {
        operation: Operation::CosetLde,
        rows: &[
            7, 9, 11, 13, 15, 2013265916, 2013265916, 2013265916, 2013265916, 2013265916,
        ],
        added_bits: 1,
        shift: 31,
        answer: &[
            187, 219, 251, 283, 315, 1373957980, 596318017, 1831943975, 1054304012, 276664049,
            2013265736, 2013265706, 2013265676, 2013265646, 2013265616, 639307943, 1416947908,
            181321952, 958961917, 1736601882,
        ],
    },
];

// The matrix of the elements whose coordinates are the rows of another, one after another.
pub(crate) fn elements_of<F: TwoAdicField, V: BasedVectorSpace<F>>(
    rt: &impl Abort,
    coordinates: &RowMajorMatrix<F>,
    width: usize,
) -> RowMajorMatrix<V> {
    assert!(rt; V::DIMENSION != 0);
    let mut elements = Vec::new(*coordinates.allocator());
    for row in coordinates.values().chunks_exact(V::DIMENSION) {
        assert!(rt; row.len() == V::DIMENSION);
        elements.push(V::from_coordinates(row)).expect(rt, "memory");
    }
    matrix_of(rt, elements, width)
}

// The coordinates of a matrix's elements, row after row.
pub(crate) fn coordinates_of<F: TwoAdicField, V: BasedVectorSpace<F>>(
    rt: &impl Abort,
    mat: &RowMajorMatrix<V>,
) -> RowMajorMatrix<F> {
    let mut entries = Vec::new(*mat.allocator());
    for element in mat.values() {
        for t in 0..V::DIMENSION {
            entries.push(element.coordinate(t)).expect(rt, "memory");
        }
    }
    let width = mat
        .width()
        .checked_mul(V::DIMENSION)
        .expect(rt, "so many coordinates");
    matrix_of(rt, entries, width)
}

// The coordinates of what a call answers on the elements with these.
fn rows_in_space<F: TwoAdicField, V: BasedVectorSpace<F> + Copy>(
    rt: &impl Abort,
    engine: &mut TestEngine<F>,
    call: Call,
    coordinates: &RowMajorMatrix<F>,
    width: usize,
    added_bits: usize,
    shift: F,
) -> RowMajorMatrix<F> {
    let elements: RowMajorMatrix<V> = elements_of(rt, coordinates, width);
    match engine.answer_in_space(call, elements, added_bits, shift) {
        Answer::Rows(rows) => coordinates_of::<F, V>(rt, &rows),
        _ => panic!(rt;
            "{} {} on {}: no answer",
            call.form(),
            call.word(),
            engine.name
        ),
    }
}

// Stops the test unless the answer's coordinates are these.
fn assert_rows_in_space<F: TwoAdicField, V: BasedVectorSpace<F> + Copy>(
    rt: &impl Abort,
    engine: &mut TestEngine<F>,
    call: Call,
    (coordinates, width): (&RowMajorMatrix<F>, usize),
    (added_bits, shift): (usize, F),
    expected: &RowMajorMatrix<F>,
) {
    let found = rows_in_space::<F, V>(rt, engine, call, coordinates, width, added_bits, shift);
    assert!(rt;
        found == *expected,
        "{} {} on {}: wrong at rows of {width} elements of {} coordinates, {added_bits} added bits",
        call.form(),
        call.word(),
        engine.name,
        V::DIMENSION
    );
}

// Worked columns, by every engine.
fn worked_columns<F: CanonicalField, V: BasedVectorSpace<F> + Copy>(
    rt: &impl Abort,
    alloc: Global,
    cases: &[Column],
) {
    for name in EVERY_ENGINE {
        let mut engine: TestEngine<F> = TestEngine::new(name);
        for case in cases {
            let call = Call::AlgebraVector(case.operation);
            let column = matrix(rt, alloc, case.rows, V::DIMENSION);
            let on = (case.added_bits, F::from_usize(case.shift));
            let answer = matrix(rt, alloc, case.answer, V::DIMENSION);
            assert_rows_in_space::<F, V>(rt, &mut engine, call, (&column, 1), on, &answer);
        }
    }
}

// What is tested over a vector space.
#[derive(Clone, Copy)]
enum SpaceTopic<'a> {
    WorkedColumns(&'a [Column]),
    Alone,
    Prepared,
}

fn in_space<F: CanonicalField, V: BasedVectorSpace<F> + Copy>(
    rt: &impl Abort,
    alloc: Global,
    topic: SpaceTopic,
) {
    match topic {
        SpaceTopic::WorkedColumns(cases) => worked_columns::<F, V>(rt, alloc, cases),
        SpaceTopic::Alone => space_over::<F, V>(rt, alloc),
        SpaceTopic::Prepared => stay_prepared::<F, V>(rt, alloc),
    }
}

fn in_space_over_baby_bear<const N: usize>(rt: &impl Abort, alloc: Global, topic: SpaceTopic)
    requires { N ≤ 8 }
{
    in_space::<BabyBear, Coordinates<BabyBear, N>>(rt, alloc, topic);
}

fn in_pairs_over_goldilocks(rt: &impl Abort, alloc: Global, topic: SpaceTopic) {
    in_space::<Goldilocks, Coordinates<Goldilocks, 2>>(rt, alloc, topic);
}

#[test]
fn columns_have_the_worked_answers(rt: HostRuntime) {
    let topic = SpaceTopic::WorkedColumns(&PAIRS_OVER_BABY_BEAR);
    in_space_over_baby_bear::<2>(&rt, rt.alloc(), topic);
    let topic = SpaceTopic::WorkedColumns(&FOURS_OVER_BABY_BEAR);
    in_space_over_baby_bear::<4>(&rt, rt.alloc(), topic);
    let topic = SpaceTopic::WorkedColumns(&FIVES_OVER_BABY_BEAR);
    in_space_over_baby_bear::<5>(&rt, rt.alloc(), topic);
    let topic = SpaceTopic::WorkedColumns(&PAIRS_OVER_GOLDILOCKS);
    in_pairs_over_goldilocks(&rt, rt.alloc(), topic);
}

// At one shape each form of a call answers what the call on the matrix answers, on a coset and at zero.
fn forms_agree<F: TwoAdicField>(
    rt: &impl Abort,
    engine: &mut TestEngine<F>,
    x: &RowMajorMatrix<F>,
    shift: F,
) {
    for operation in OPERATIONS {
        if operation != Operation::CosetIdft || shift != F::ZERO {
            let rows = rows_of(rt, engine, Call::Batch(operation), input(rt, x, 1, shift));
            for call in [
                Call::Vector(operation),
                Call::AlgebraBatch(operation),
                Call::AlgebraVector(operation),
            ] {
                if x.width() == 1 || !call.is_of_column() {
                    assert_rows_of(rt, engine, call, input(rt, x, 1, shift), &rows);
                }
            }
        }
    }
}

pub(crate) fn forms_over<F: TwoAdicField>(rt: &impl Abort, alloc: Global) {
    for height in [1usize, 2, 4] {
        for width in [1usize, 3] {
            let x = sample(rt, alloc, height, width, 3);
            for name in EVERY_ENGINE {
                let mut engine: TestEngine<F> = TestEngine::new(name);
                forms_agree(rt, &mut engine, &x, F::GENERATOR);
                forms_agree(rt, &mut engine, &x, F::ZERO);
            }
        }
    }
}

#[test]
fn forms_in_dimension_one_are_the_calls(rt: HostRuntime) {
    over(
        &rt,
        rt.alloc(),
        FieldName::BabyBear,
        Topic::FormsInDimensionOne,
    );
    over(
        &rt,
        rt.alloc(),
        FieldName::Goldilocks,
        Topic::FormsInDimensionOne,
    );
}

// Each call over a vector space answers what the call on the matrix of coordinates answers, so that each coordinate is
// worked as if it stood alone.
fn coordinates_agree<F: TwoAdicField, V: BasedVectorSpace<F> + Copy>(
    rt: &impl Abort,
    alloc: Global,
    engine: &mut TestEngine<F>,
) {
    for width in [1usize, 3] {
        let count = width
            .checked_mul(V::DIMENSION)
            .expect(rt, "so many coordinates");
        let x = sample(rt, alloc, 4, count, 5);
        for operation in OPERATIONS {
            let rows = input(rt, &x, 1, F::GENERATOR);
            let rows = rows_of(rt, engine, Call::Batch(operation), rows);
            for call in [
                Call::AlgebraBatch(operation),
                Call::AlgebraVector(operation),
            ] {
                if width == 1 || !call.is_of_column() {
                    let on = (1, F::GENERATOR);
                    assert_rows_in_space::<F, V>(rt, engine, call, (&x, width), on, &rows);
                }
            }
        }
    }
}

// In one space.
fn space_over<F: TwoAdicField, V: BasedVectorSpace<F> + Copy>(rt: &impl Abort, alloc: Global) {
    for name in EVERY_ENGINE {
        let mut engine: TestEngine<F> = TestEngine::new(name);
        coordinates_agree::<F, V>(rt, alloc, &mut engine);
    }
}

#[test]
fn each_coordinate_is_transformed_alone(rt: HostRuntime) {
    in_space_over_baby_bear::<1>(&rt, rt.alloc(), SpaceTopic::Alone);
    in_space_over_baby_bear::<2>(&rt, rt.alloc(), SpaceTopic::Alone);
    in_space_over_baby_bear::<3>(&rt, rt.alloc(), SpaceTopic::Alone);
    in_space_over_baby_bear::<4>(&rt, rt.alloc(), SpaceTopic::Alone);
    in_space_over_baby_bear::<5>(&rt, rt.alloc(), SpaceTopic::Alone);
    in_space_over_baby_bear::<8>(&rt, rt.alloc(), SpaceTopic::Alone);
    in_pairs_over_goldilocks(&rt, rt.alloc(), SpaceTopic::Alone);
}

// After all forms at height two that height is prepared as before.
fn stay_prepared<F: TwoAdicField, V: BasedVectorSpace<F> + Copy>(rt: &impl Abort, alloc: Global) {
    let column = sample(rt, alloc, 2, 1, 3);
    let rows = sample(rt, alloc, 2, 3, 3);
    for name in ENGINES {
        if name.has_tables() {
            let mut engine: Engine<F> = Engine::new(name);
            let made = engine.prepare(alloc, 1);
            assert!(rt; matches!(&made, Some(Ok(()))));
            let mut engine = TestEngine::of(name, engine);
            forms_agree(rt, &mut engine, &column, F::GENERATOR);
            forms_agree(rt, &mut engine, &rows, F::GENERATOR);
            forms_agree(rt, &mut engine, &rows, F::ZERO);
            coordinates_agree::<F, V>(rt, alloc, &mut engine);
            assert!(rt; is_prepared(&engine, 1), "{}", name.word());
        }
    }
}

// Whether an engine of the library is prepared.
pub(crate) fn is_prepared<F: TwoAdicField>(engine: &TestEngine<F>, log_h: usize) -> bool {
    match &engine.kind {
        Kind::Library(engine) => engine.is_prepared(log_h),
        _ => false,
    }
}

#[test]
fn forms_keep_prepared_heights(rt: HostRuntime) {
    in_space_over_baby_bear::<2>(&rt, rt.alloc(), SpaceTopic::Prepared);
}
