// A copy of an engine that goes by tiles has the tiles of the other. No answer tells them, but the number of
// products does, which is another for tiles of one element and for those that hold a column of 64 rows: layer by
// layer the first block of each layer goes without products, and in a tile that of the first layer does not. How
// many products there are is not promised.

use super::answers::by_tiles;
use super::helpers::counting_field::{InPacks, Metered, Tally};
use super::helpers::engines::{TestEngine, input, rows_of};
use super::products::marked;
use engine_calls::names::{Call, Operation};
use p3_dft::{BabyBear, CanonicalField, RowMajorMatrix, TwoAdicField};
use std::alloc::Global;
use std::cell::Cell;
use std::process::Abort;

// How many products a transform makes.
fn products_of<F: TwoAdicField>(
    rt: &impl Abort,
    engine: &mut TestEngine<F>,
    column: &RowMajorMatrix<F>,
    count: &Cell<usize>,
) -> usize {
    count.set(0);
    let rows = input(rt, column, 0, F::ONE);
    let _values = rows_of(rt, engine, Call::Batch(Operation::Dft), rows);
    count.get()
}

// How many an engine with tiles of one size makes, and a copy of it as many.
fn products_by_tile<F: TwoAdicField>(
    rt: &impl Abort,
    column: &RowMajorMatrix<F>,
    count: &Cell<usize>,
    tile: usize,
) -> usize {
    let mut engine = by_tiles(rt, *column.allocator(), tile);
    let mut copy = engine.copied(rt);
    let products = products_of(rt, &mut engine, column, count);
    let of_copy = products_of(rt, &mut copy, column, count);
    assert!(rt;
        of_copy == products,
        "batch dft on a clone of {}: {of_copy} products, not {products}, tile {tile}, {} rows of one",
        engine.name,
        column.height()
    );
    products
}

fn tiles_are_copied<F: Metered>(
    rt: &impl Abort,
    alloc: Global,
    count: &Cell<usize>,
    mark: F::Mark,
) {
    let column: RowMajorMatrix<F> = marked(rt, alloc, 64, 1, mark);
    let by_element = products_by_tile(rt, &column, count, 1);
    assert!(rt; products_by_tile(rt, &column, count, 8192) != by_element);
}

#[test]
fn a_clone_keeps_its_tile(rt: HostRuntime) {
    let (count, sums) = (Cell::new(0), Cell::new(0));
    let mark = InPacks::of(&count, &sums);
    tiles_are_copied::<Tally<BabyBear, InPacks<'_, 1>>>(&rt, rt.alloc(), &count, mark);
}
