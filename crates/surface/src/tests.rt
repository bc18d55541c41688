// Lines by what they are of. Those over engines run worked rows on each: a table of rows is one argument, so that an
// engine is named once.

mod algebra;
mod blocks;
mod bounds;
mod butterflies;
mod codes;
mod engines;
mod errors;
mod fields;
mod jobs;
mod matrices;
mod packed;
mod program;
mod transforms;
mod util;

use p3_dft::{
    BabyBear, BasedVectorSpace, CanonicalField, Coordinates, Goldilocks, NaiveDft, Radix2Bowers,
    Radix2DFTSmallBatch, Radix2Dit, Radix2DitParallel, RowMajorMatrix, TwoAdicSubgroupDft,
};
use std::alloc::Global;
use std::process::Abort;

// What is the same on each engine.
#[derive(Clone, Copy)]
enum Topic<'a> {
    Rows(&'a [transforms::Row]),
    Pairs(&'a [transforms::Row]),
    Transformed,
    Published,
    Limited,
    Jobs,
    Codes,
}

impl<'a> Topic<'a> {
    fn hold<F: CanonicalField, V: BasedVectorSpace<F> + Copy, D: TwoAdicSubgroupDft<F>>(
        self,
        rt: &impl Abort,
        alloc: Global,
    ) {
        match self {
            Topic::Rows(rows) => transforms::rows_on::<F, D>(rt, alloc, rows),
            Topic::Pairs(rows) => algebra::rows_on::<F, V, D>(rt, alloc, rows),
            Topic::Transformed => blocks::transformed_on::<F, D>(rt, alloc),
            Topic::Published => blocks::published_on::<F, D>(rt, alloc),
            Topic::Limited => blocks::limited_on::<F, D>(rt, alloc),
            Topic::Jobs => jobs::answered_on::<F, D>(rt, alloc),
            Topic::Codes => codes::told_on::<F, D>(rt, alloc),
        }
    }
}

fn on_each_engine<F: CanonicalField, V: BasedVectorSpace<F> + Copy>(
    rt: &impl Abort,
    alloc: Global,
    topic: Topic,
) {
    topic.hold::<F, V, NaiveDft>(rt, alloc);
    topic.hold::<F, V, Radix2Dit<F>>(rt, alloc);
    topic.hold::<F, V, Radix2Bowers>(rt, alloc);
    topic.hold::<F, V, Radix2DitParallel<F>>(rt, alloc);
    topic.hold::<F, V, Radix2DFTSmallBatch<F>>(rt, alloc);
}

// Over BabyBear and its pairs.
fn over_baby_bear(rt: &impl Abort, alloc: Global, topic: Topic) {
    on_each_engine::<BabyBear, Coordinates<BabyBear, 2>>(rt, alloc, topic);
}

fn over_goldilocks(rt: &impl Abort, alloc: Global, topic: Topic) {
    on_each_engine::<Goldilocks, Goldilocks>(rt, alloc, topic);
}

// The elements with these numbers.
fn list<F: CanonicalField>(rt: &impl Abort, alloc: Global, numbers: &[u64]) -> Vec<F> {
    let mut elements = Vec::new(alloc);
    for number in numbers {
        let element = F::new(*number).expect(rt, "a number below the modulus");
        elements.push(element).expect(rt, "memory");
    }
    elements
}

// The matrix of these entries, row after row.
fn matrix_of<T: Drop>(rt: &impl Abort, entries: Vec<T>, width: usize) -> RowMajorMatrix<T> {
    assert!(rt; width != 0 && entries.len() % width == 0);
    RowMajorMatrix::new(entries, width)
}

fn matrix<F: CanonicalField>(
    rt: &impl Abort,
    alloc: Global,
    numbers: &[u64],
    width: usize,
) -> RowMajorMatrix<F> {
    matrix_of(rt, list(rt, alloc, numbers), width)
}

// Stops the test unless the element has this number.
fn is<F: CanonicalField>(rt: &impl Abort, found: F, number: u64) {
    assert!(rt; found.as_canonical_u64() == number, "not {number}");
}

// Stops the test unless the elements have these numbers.
fn are<F: CanonicalField>(rt: &impl Abort, alloc: Global, found: &[F], numbers: &[u64]) {
    let wanted: Vec<F> = list(rt, alloc, numbers);
    assert!(rt; found == wanted.as_slice(), "not {numbers:?}");
}
