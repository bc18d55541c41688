// Laws of calls on matrices of many shapes, on every engine, and that the engines agree.

use super::answers::by_tiles;
use super::helpers::engines::{EVERY_ENGINE, Name, TestEngine, assert_rows_of, input, rows_of};
use super::helpers::matrices::{assert_same, column_of, combined, sample, with_zeros};
use super::{FieldName, Topic, over};
use engine_calls::names::{Call, ENGINES, EngineName, OPERATIONS, Operation};
use p3_dft::{RowMajorMatrix, TwoAdicField, WideBabyBear, WideGoldilocks, WideKoalaBear};
use std::alloc::Global;
use std::process::Abort;

// On the subgroup and on a coset an inverse undoes a transform, and is undone by it.
fn inverses<F: TwoAdicField>(rt: &impl Abort, engine: &mut TestEngine<F>, x: &RowMajorMatrix<F>) {
    let shift = F::from_u8(31);
    for (there, back) in [
        (Operation::Dft, Operation::Idft),
        (Operation::CosetDft, Operation::CosetIdft),
    ] {
        let values = rows_of(rt, engine, Call::Batch(there), input(rt, x, 0, shift));
        assert_rows_of(
            rt,
            engine,
            Call::Batch(back),
            input(rt, &values, 0, shift),
            x,
        );
        let coefficients = rows_of(rt, engine, Call::Batch(back), input(rt, x, 0, shift));
        assert_rows_of(
            rt,
            engine,
            Call::Batch(there),
            input(rt, &coefficients, 0, shift),
            x,
        );
    }
}

// A transform is linear.
fn sums<F: TwoAdicField>(
    rt: &impl Abort,
    engine: &mut TestEngine<F>,
    x: &RowMajorMatrix<F>,
    y: &RowMajorMatrix<F>,
) {
    let a = F::from_u8(5);
    let b = F::NEG_ONE;
    let alloc = *x.allocator();
    let call = Call::Batch(Operation::Dft);
    let of_x = rows_of(rt, engine, call, input(rt, x, 0, F::ONE));
    let of_y = rows_of(rt, engine, call, input(rt, y, 0, F::ONE));
    let sum = combined(rt, alloc, (a, x), (b, y));
    let of_sum = combined(rt, alloc, (a, &of_x), (b, &of_y));
    assert_rows_of(rt, engine, call, input(rt, &sum, 0, F::ONE), &of_sum);
}

const HEIGHTS: [usize; 8] = [1, 2, 4, 8, 16, 32, 64, 128];

const WIDTHS: [usize; 4] = [1, 3, 8, 17];

// Widths of less than a pack, of full packs, and of some with a rest of one or of another number.
const MANY_WIDTHS: [usize; 6] = [1, 3, 7, 8, 17, 33];

fn transforms_at<F: TwoAdicField>(rt: &impl Abort, alloc: Global, height: usize, width: usize) {
    let x = sample(rt, alloc, height, width, 1);
    let y = sample(rt, alloc, height, width, 2);
    for name in EVERY_ENGINE {
        let mut engine: TestEngine<F> = TestEngine::new(name);
        inverses(rt, &mut engine, &x);
        sums(rt, &mut engine, &x, &y);
    }
}

pub(crate) fn transforms_over<F: TwoAdicField>(rt: &impl Abort, alloc: Global) {
    for height in HEIGHTS {
        for width in WIDTHS {
            transforms_at::<F>(rt, alloc, height, width);
        }
    }
}

#[test]
fn transforms_keep_their_laws(rt: HostRuntime) {
    over(&rt, rt.alloc(), FieldName::BabyBear, Topic::Transforms);
}

// Each column becomes what it becomes alone, in transforms, inverses and extensions.
fn columns_alone<F: TwoAdicField>(
    rt: &impl Abort,
    engine: &mut TestEngine<F>,
    x: &RowMajorMatrix<F>,
) {
    for operation in OPERATIONS {
        let call = Call::Batch(operation);
        let rows = rows_of(rt, engine, call, input(rt, x, 1, F::GENERATOR));
        for j in 0..x.width() {
            let alone = input(rt, &column_of(rt, x, j), 1, F::GENERATOR);
            assert_rows_of(rt, engine, call, alone, &column_of(rt, &rows, j));
        }
    }
}

pub(crate) fn columns_over<F: TwoAdicField>(rt: &impl Abort, alloc: Global) {
    let x = sample(rt, alloc, 8, 3, 1);
    for name in EVERY_ENGINE {
        columns_alone::<F>(rt, &mut TestEngine::new(name), &x);
    }
}

#[test]
fn each_column_is_worked_alone(rt: HostRuntime) {
    over(&rt, rt.alloc(), FieldName::BabyBear, Topic::Columns);
    over(&rt, rt.alloc(), FieldName::Goldilocks, Topic::Columns);
}

// The shifts of the cosets on which engines are compared.
fn shift<F: TwoAdicField>(n: usize) -> F {
    match n {
        0 => F::ZERO,
        1 => F::ONE,
        _ => F::GENERATOR,
    }
}

// Whether an operation tells a shift and added bits from others, and answers with this shift.
fn is_compared(operation: Operation, n: usize, added_bits: usize) -> bool {
    (n == 2 || operation.is_on_coset() && operation != Operation::CosetIdft)
        && (added_bits == 0 || operation.extends())
}

// Two engines answer the same in transforms, inverses and extensions by so many bits, each on the subgroup, at zero
// and on two cosets.
fn same_answers<F: TwoAdicField>(
    rt: &impl Abort,
    one: &mut TestEngine<F>,
    other: &mut TestEngine<F>,
    x: &RowMajorMatrix<F>,
    bits: &[usize],
) {
    for operation in OPERATIONS {
        for n in 0..3usize {
            for added_bits in bits {
                if is_compared(operation, n, *added_bits) {
                    let call = Call::Batch(operation);
                    let rows = rows_of(rt, one, call, input(rt, x, *added_bits, shift(n)));
                    let again = input(rt, x, *added_bits, shift(n));
                    assert_rows_of(rt, other, call, again, &rows);
                }
            }
        }
    }
}

fn naive<F: TwoAdicField>() -> TestEngine<F> {
    TestEngine::new(Name::Library(EngineName::Naive))
}

// At one shape each engine answers what the one answers that follows the definition.
fn agree_at<F: TwoAdicField>(rt: &impl Abort, alloc: Global, height: usize, width: usize) {
    let x = sample(rt, alloc, height, width, 3);
    for name in EVERY_ENGINE {
        let mut engine: TestEngine<F> = TestEngine::new(name);
        same_answers(rt, &mut naive(), &mut engine, &x, &[0, 1, 2, 3]);
    }
}

pub(crate) fn agree_over<F: TwoAdicField>(rt: &impl Abort, alloc: Global) {
    for height in [1usize, 2, 4, 8, 16, 32, 64] {
        for width in MANY_WIDTHS {
            agree_at::<F>(rt, alloc, height, width);
        }
    }
    for width in WIDTHS {
        agree_at::<F>(rt, alloc, 128, width);
    }
}

#[test]
fn every_engine_agrees_with_naive_over_baby_bear(rt: HostRuntime) {
    over(&rt, rt.alloc(), FieldName::BabyBear, Topic::Agreement);
}

#[test]
fn every_engine_agrees_with_naive_over_goldilocks(rt: HostRuntime) {
    over(&rt, rt.alloc(), FieldName::Goldilocks, Topic::Agreement);
}

// Shapes of columns and of rows that have less than a pack of eight or of sixteen lanes, full packs, and a rest.
const SHAPES_IN_PACKS: [(usize, usize); 12] = [
    (1, 17),
    (2, 16),
    (8, 8),
    (8, 15),
    (16, 33),
    (8, 100),
    (16, 1),
    (32, 1),
    (64, 1),
    (128, 1),
    (64, 3),
    (64, 24),
];

fn agree_in_packs<F: TwoAdicField>(rt: &impl Abort, alloc: Global) {
    for (height, width) in SHAPES_IN_PACKS {
        agree_at::<F>(rt, alloc, height, width);
    }
}

// Over fields whose packs are vectors of eight and of sixteen lanes.
#[test]
fn every_engine_agrees_with_naive_in_wide_packs(rt: HostRuntime) {
    agree_in_packs::<WideGoldilocks>(&rt, rt.alloc());
    agree_in_packs::<WideBabyBear>(&rt, rt.alloc());
    agree_in_packs::<WideKoalaBear>(&rt, rt.alloc());
}

// The calls that answer rows.
const CALLS_OF_ROWS: [Call; 13] = [
    Call::Batch(Operation::Dft),
    Call::Batch(Operation::CosetDft),
    Call::Batch(Operation::Idft),
    Call::Batch(Operation::CosetIdft),
    Call::Batch(Operation::Lde),
    Call::Batch(Operation::CosetLde),
    Call::WithTransform,
    Call::ByParts,
    Call::BitReversed,
    Call::WithBlocks,
    Call::InBlocks,
    Call::OfCoefficients,
    Call::OfCoefficientsBitReversed,
];

// How often an engine makes a call: it may not know how many there were before.
const TIMES: usize = 2000;

// An engine answers a call again and again what the definition answers.
pub(crate) fn again_and_again<F: TwoAdicField>(rt: &impl Abort, alloc: Global) {
    let x = sample(rt, alloc, 4, 3, 1);
    for name in EVERY_ENGINE {
        let mut engine: TestEngine<F> = TestEngine::new(name);
        for call in CALLS_OF_ROWS {
            let rows = rows_of(rt, &mut naive(), call, input(rt, &x, 1, F::GENERATOR));
            for _n in 0..TIMES {
                let again = input(rt, &x, 1, F::GENERATOR);
                assert_rows_of(rt, &mut engine, call, again, &rows);
            }
        }
    }
}

#[test]
fn engines_answer_thousands_of_calls(rt: HostRuntime) {
    over(&rt, rt.alloc(), FieldName::BabyBear, Topic::ManyCalls);
}

// By tiles of one size, on one engine.
fn tiles_agree<F: TwoAdicField>(rt: &impl Abort, alloc: Global, tile: usize) {
    let mut engine = by_tiles(rt, alloc, tile);
    for width in [1usize, 3, 7, 17, 33] {
        for height in [1usize, 2, 4, 8, 16, 32, 64] {
            let x: RowMajorMatrix<F> = sample(rt, alloc, height, width, 3);
            same_answers(rt, &mut naive(), &mut engine, &x, &[0, 1, 2, 3]);
        }
    }
}

// Tiles of less than a row, of some rows and of all.
pub(crate) fn tiles_over<F: TwoAdicField>(rt: &impl Abort, alloc: Global) {
    for tile in [1usize, 5, 6, 12, 192, 8192, 1 << 32] {
        tiles_agree::<F>(rt, alloc, tile);
    }
}

#[test]
fn tiles_change_no_answer(rt: HostRuntime) {
    over(&rt, rt.alloc(), FieldName::BabyBear, Topic::Tiles);
    over(&rt, rt.alloc(), FieldName::Goldilocks, Topic::Tiles);
}

// An extension on the subgroup has the rows of the input among its own, `2^added_bits` apart, and is the extension on
// the coset of one.
fn rows_kept<F: TwoAdicField>(
    rt: &impl Abort,
    engine: &mut TestEngine<F>,
    x: &RowMajorMatrix<F>,
    added_bits: usize,
) {
    assert!(rt; added_bits < 64);
    let rows = input(rt, x, added_bits, F::ONE);
    let extended = rows_of(rt, engine, Call::Batch(Operation::Lde), rows);
    for j in 0..x.height() {
        let row = j << added_bits;
        assert!(rt; row < extended.height());
        assert!(rt; extended.row(row) == x.row(j), "row {j} on {}", engine.name);
    }
    let rows = input(rt, x, added_bits, F::ONE);
    assert_rows_of(
        rt,
        engine,
        Call::Batch(Operation::CosetLde),
        rows,
        &extended,
    );
}

// An extension on a coset has the coefficients of the input, and zeros after them. That of values on the coset of u has
// the values on the coset of u times its shift.
fn zeros_above<F: TwoAdicField>(
    rt: &impl Abort,
    engine: &mut TestEngine<F>,
    x: &RowMajorMatrix<F>,
    added_bits: usize,
) {
    let s = F::from_u8(31);
    let extension = Call::Batch(Operation::CosetLde);
    let extended = rows_of(rt, engine, extension, input(rt, x, added_bits, s));
    let count = extended.values().len();
    let coefficients = rows_of(rt, engine, Call::Batch(Operation::Idft), input(rt, x, 0, s));
    let padded = with_zeros(rt, coefficients, count);
    let back = Call::Batch(Operation::CosetIdft);
    assert_rows_of(rt, engine, back, input(rt, &extended, 0, s), &padded);
    let u = F::from_u8(11);
    let on_coset = rows_of(rt, engine, back, input(rt, x, 0, u));
    let padded = with_zeros(rt, on_coset, count);
    let there = Call::Batch(Operation::CosetDft);
    assert_rows_of(rt, engine, there, input(rt, &padded, 0, u * s), &extended);
}

fn extensions_at<F: TwoAdicField>(
    rt: &impl Abort,
    alloc: Global,
    height: usize,
    added_bits: usize,
) {
    let x = sample(rt, alloc, height, 3, 1);
    for name in EVERY_ENGINE {
        let mut engine: TestEngine<F> = TestEngine::new(name);
        rows_kept(rt, &mut engine, &x, added_bits);
        zeros_above(rt, &mut engine, &x, added_bits);
    }
}

pub(crate) fn extensions_over<F: TwoAdicField>(rt: &impl Abort, alloc: Global) {
    for height in [1usize, 2, 4, 16] {
        for added_bits in [0usize, 1, 3] {
            extensions_at::<F>(rt, alloc, height, added_bits);
        }
    }
}

#[test]
fn extensions_keep_their_laws(rt: HostRuntime) {
    over(&rt, rt.alloc(), FieldName::BabyBear, Topic::Extensions);
}

// Heights whose tables are larger than a tile or a cache, rows wider than four packs, and many bits: the height, the
// width and the bits that are added.
const LARGE_SHAPES: [(usize, usize, usize); 6] = [
    (1 << 12, 5, 1),
    (1 << 17, 1, 1),
    (1 << 16, 2, 1),
    (64, 33, 2),
    (64, 100, 1),
    (16, 3, 8),
];

// An inverse undoes a transform, an extension keeps rows, and two engines agree.
fn at_large_shapes<F: TwoAdicField>(rt: &impl Abort, alloc: Global, engine: &mut TestEngine<F>) {
    let mut dit = TestEngine::new(Name::Library(EngineName::Dit));
    for (height, width, added_bits) in LARGE_SHAPES {
        let x = sample(rt, alloc, height, width, 3);
        inverses(rt, engine, &x);
        rows_kept(rt, engine, &x, added_bits);
        same_answers(rt, &mut dit, engine, &x, &[0]);
        same_answers(rt, &mut dit, engine, &x, &[added_bits]);
    }
}

pub(crate) fn large_shapes_over<F: TwoAdicField>(rt: &impl Abort, alloc: Global) {
    for name in ENGINES {
        if name.is_fast() {
            at_large_shapes::<F>(rt, alloc, &mut TestEngine::new(Name::Library(name)));
        }
    }
}

#[test]
fn fast_engines_keep_their_laws_at_large_shapes(rt: HostRuntime) {
    for field in [
        FieldName::BabyBear,
        FieldName::KoalaBear,
        FieldName::Goldilocks,
    ] {
        over(&rt, rt.alloc(), field, Topic::LargeShapes);
    }
}
