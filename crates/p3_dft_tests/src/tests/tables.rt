// What is prepared when, of the engines that have tables, and what they answer from then on.

use super::algebra::is_prepared;
use super::answers::by_tiles;
use super::helpers::engines::{Name, TestEngine, assert_rows_of, input, rows_of};
use super::helpers::fitting::{assert_column, transformable};
use super::helpers::matrices::{column, elements, matrix, matrix_of};
use super::{FieldName, Topic, over};
use engine_calls::answers::Input;
use engine_calls::changes::Change;
use engine_calls::engines::Engine;
use engine_calls::names::{Call, ENGINES, EngineName, Operation};
use p3_dft::{
    CanonicalField, Field, Radix2DFTSmallBatch, Radix2DitParallel, RowMajorMatrix, TwoAdicField,
    TwoAdicSubgroupDft,
};
use std::alloc::Global;
use std::process::Abort;

// Stops the test where these tables cannot be made.
fn prepare<F: TwoAdicField>(rt: &impl Abort, alloc: Global, engine: &mut Engine<F>, log_h: usize) {
    let made = engine.prepare(alloc, log_h);
    assert!(rt; matches!(&made, Some(Ok(()))));
}

// Height one is prepared from the start; a larger one with all below it; a clone has none.
fn prepares_heights<F: TwoAdicField>(rt: &impl Abort, alloc: Global, name: EngineName) {
    let mut engine: Engine<F> = Engine::new(name);
    assert!(rt;
        engine.is_prepared(0) && !engine.is_prepared(1),
        "{}",
        name.word()
    );
    assert!(rt;
        !engine.is_prepared(3) && !engine.is_prepared(usize::MAX),
        "{}",
        name.word()
    );
    for log_h in [0usize, 2, 3, 3, 2] {
        prepare(rt, alloc, &mut engine, log_h);
        assert!(rt; engine.is_prepared(log_h), "{}", name.word());
    }
    assert!(rt;
        engine.is_prepared(1) && engine.is_prepared(3),
        "{}",
        name.word()
    );
    assert!(rt; !engine.is_prepared(4), "{}", name.word());
    let copy = engine.copied().expect(rt, "memory");
    assert!(rt;
        copy.is_prepared(0) && !copy.is_prepared(1),
        "{}",
        name.word()
    );
}

// Every call prepares its height, and takes no smaller one back: an extension that of its answer, or two parts of it.
fn calls_prepare<F: CanonicalField>(rt: &impl Abort, alloc: Global, name: EngineName) {
    let mut engine: Engine<F> = Engine::new(name);
    prepare(rt, alloc, &mut engine, 3);
    let mut engine = TestEngine::of(name, engine);
    for (operation, log_h, height) in [
        (Operation::Dft, 2usize, 4usize),
        (Operation::Dft, 4, 16),
        (Operation::Idft, 5, 32),
        (Operation::CosetIdft, 6, 64),
    ] {
        let zeros = column(rt, alloc, height, 0, 0);
        let rows = input(rt, &zeros, 0, F::GENERATOR);
        assert_rows_of(rt, &mut engine, Call::Batch(operation), rows, &zeros);
        assert!(rt;
            is_prepared(&engine, log_h) && is_prepared(&engine, 3),
            "{}",
            name.word()
        );
    }
    assert!(rt; !is_prepared(&engine, 7), "{}", name.word());
}

pub(crate) fn tables_over<F: CanonicalField>(rt: &impl Abort, alloc: Global) {
    for name in ENGINES {
        if name.has_tables() {
            prepares_heights::<F>(rt, alloc, name);
            calls_prepare::<F>(rt, alloc, name);
        }
    }
}

#[test]
fn heights_are_prepared_and_stay(rt: HostRuntime) {
    over(&rt, rt.alloc(), FieldName::BabyBear, Topic::Tables);
    over(&rt, rt.alloc(), FieldName::Goldilocks, Topic::Tables);
}

// An engine that goes by halves leaves its rows in bit reversed order.
pub(crate) fn leaves_reversed<F: CanonicalField>(rt: &impl Abort, alloc: Global, physical: &[u64]) {
    let column: RowMajorMatrix<F> = transformable(rt, alloc, &[5, 4, 0, 0]);
    let values = Radix2DitParallel::default()
        .dft_batch(column)
        .expect(rt, "memory");
    assert_column(rt, values.inner(), physical);
}

#[test]
fn rows_are_left_in_bit_reversed_order(rt: HostRuntime) {
    let physical = [9, 1, 873820294, 1139445637];
    over(
        &rt,
        rt.alloc(),
        FieldName::BabyBear,
        Topic::ReversedRows(&physical),
    );
    let physical = [9, 1, 1125899906842629, 18445618169507741702];
    over(
        &rt,
        rt.alloc(),
        FieldName::Goldilocks,
        Topic::ReversedRows(&physical),
    );
}

// Once all is made that they need, calls at a prepared height and on a coset that has its table hand one column on from
// each to the next. That they take no memory `out_of_memory` shows.
pub(crate) fn hands_a_column_on<F: CanonicalField>(rt: &impl Abort, alloc: Global) {
    let mut engine: Engine<F> = Engine::new(EngineName::Parallel);
    prepare(rt, alloc, &mut engine, 1);
    let mut engine = TestEngine::of(EngineName::Parallel, engine);
    let mut handed = matrix(rt, alloc, &[5, 4], 1);
    for operation in [
        Operation::CosetDft,
        Operation::CosetIdft,
        Operation::Dft,
        Operation::Idft,
        Operation::CosetDft,
    ] {
        let rows = Input {
            mat: handed,
            added_bits: 0,
            shift: F::TWO,
            change: Change::Nothing,
        };
        handed = rows_of(rt, &mut engine, Call::Vector(operation), rows);
    }
    assert_column(rt, &handed, &[13, F::ORDER_U64.saturating_sub(3)]);
}

#[test]
fn calls_hand_a_column_on(rt: HostRuntime) {
    over(&rt, rt.alloc(), FieldName::BabyBear, Topic::HandedOn);
    over(&rt, rt.alloc(), FieldName::Goldilocks, Topic::HandedOn);
}

// Single coefficients of rows 0, 32 and 16, whose values are powers of roots of order 1, 2 and 4.
fn coefficients<F: CanonicalField>(rt: &impl Abort, alloc: Global) -> RowMajorMatrix<F> {
    let mut entries: Vec<F> = elements(rt, alloc, &[0; 192]);
    assert!(rt; entries.len() == 192);
    entries[0] = F::from_usize(13);
    entries[32 * 3 + 1] = F::ONE;
    entries[16 * 3 + 2] = F::ONE;
    matrix_of(rt, entries, 3)
}

// The values: four rows again and again.
fn has_powers<F: CanonicalField>(rt: &impl Abort, alloc: Global, values: &[F]) {
    let rows: Vec<F> = elements(
        rt,
        alloc,
        &[
            13, 1, 1, 13, 2013265920, 1728404513, 13, 1, 2013265920, 13, 2013265920, 284861408,
        ],
    );
    assert!(rt; values.len() == 192);
    assert!(rt; rows.len() == 12);
    for i in 0..192 {
        assert!(rt; values[i] == rows[i % 12]);
    }
}

// By tiles of one size.
fn powers_in_tiles<F: CanonicalField>(rt: &impl Abort, alloc: Global, tile: usize) {
    let mut engine = by_tiles(rt, alloc, tile);
    let rows = input(rt, &coefficients(rt, alloc), 0, F::ONE);
    let values = rows_of(rt, &mut engine, Call::Batch(Operation::Dft), rows);
    has_powers(rt, alloc, values.values());
}

// An engine that is made for one row or none is prepared for no more.
fn made_for_no_height<F: CanonicalField>(rt: &impl Abort, alloc: Global, n: usize) {
    assert!(rt; n < 2);
    let engine = Radix2DFTSmallBatch::new(alloc, n);
    let engine: Radix2DFTSmallBatch<F> = engine.expect(rt, "memory");
    assert!(rt; engine.is_prepared(0) && !engine.is_prepared(1));
    let mut engine = TestEngine::of(EngineName::Small, Engine::Small(engine));
    for (width, numbers) in [(1usize, [9, 1]), (2, [5, 4])] {
        let rows = input(rt, &matrix(rt, alloc, &[5, 4], width), 0, F::ONE);
        let values = matrix(rt, alloc, &numbers, width);
        assert_rows_of(rt, &mut engine, Call::Batch(Operation::Dft), rows, &values);
    }
}

// Eight rows where their height is prepared.
fn transform_of_eight_rows<F: CanonicalField>(
    rt: &impl Abort,
    alloc: Global,
    engine: &mut Radix2DFTSmallBatch<F>,
) {
    let mat: RowMajorMatrix<F> = transformable(rt, alloc, &[0, 0, 0, 0, 1, 0, 0, 0]);
    let last = 2013265920;
    let values = engine.dft_batch(mat).expect(rt, "memory");
    assert_column(rt, &values, &[1, last, 1, last, 1, last, 1, last]);
}

// An engine that is made for a height is prepared for it, and stays so, whether memory for a larger height is refused
// or not.
fn made_for_a_height<F: CanonicalField>(rt: &impl Abort, alloc: Global) {
    assert!(rt; F::TWO_ADICITY >= 5);
    let engine = Radix2DFTSmallBatch::new(alloc, 8);
    let mut engine: Radix2DFTSmallBatch<F> = engine.expect(rt, "memory");
    assert!(rt; engine.is_prepared(3) && engine.is_prepared(2) && !engine.is_prepared(4));
    transform_of_eight_rows(rt, alloc, &mut engine);
    assert!(rt; engine.is_prepared(3));
    let larger = engine.prepare(alloc, 5);
    assert!(rt; engine.is_prepared(3));
    assert!(rt; larger.is_err() || engine.is_prepared(5));
    transform_of_eight_rows(rt, alloc, &mut engine);
}

// An extension prepares the height of its answer.
fn extension_prepares<F: CanonicalField>(rt: &impl Abort, alloc: Global) {
    let mut engine: TestEngine<F> = TestEngine::new(Name::Library(EngineName::Small));
    let rows = input(rt, &matrix(rt, alloc, &[7, 7], 1), 3, F::GENERATOR);
    let values = matrix(rt, alloc, &[7; 16], 1);
    assert_rows_of(
        rt,
        &mut engine,
        Call::Vector(Operation::CosetLde),
        rows,
        &values,
    );
    assert!(rt; is_prepared(&engine, 4));
}

pub(crate) fn goes_by_tiles<F: CanonicalField>(rt: &impl Abort, alloc: Global) {
    extension_prepares::<F>(rt, alloc);
    for tile in [1usize, 6, 12, 192] {
        powers_in_tiles::<F>(rt, alloc, tile);
    }
    for n in [0usize, 1] {
        made_for_no_height::<F>(rt, alloc, n);
    }
    made_for_a_height::<F>(rt, alloc);
}

#[test]
fn heights_are_prepared_in_tiles_of_each_size(rt: HostRuntime) {
    over(&rt, rt.alloc(), FieldName::BabyBear, Topic::TablesByTiles);
}
