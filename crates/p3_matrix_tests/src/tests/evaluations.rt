// Rows in natural and in bit reversed order, and what is seen in them.

ghost use Rattle.std.specs.Prelude.{◌≡◌, ◌<◌, ◌≤◌, get_or};
ghost use Rattle.p3_matrix.specs.BitOrder.{reversed_rows};
ghost use Rattle.p3_matrix.specs.RowMajor.{IsRowMajor, height, row};

use super::{bytes, is};
use p3_matrix::{BitReversedMatrixView, Evaluations, IntoRowMajorMatrix, RowMajorMatrix};

// A caller that knows no more of the evaluations than their trait.
fn width_of<F: Drop, E: Evaluations<F>>(evaluations: E) -> usize
    ensures width { result ≡ (E.natural evaluations).width }
    ensures whole { IsRowMajor (E.natural evaluations) }
{
    evaluations.to_row_major_matrix().width()
}

#[test]
fn has_whole_rows(rt: HostRuntime) {
    let alloc = rt.alloc();
    let rows = RowMajorMatrix::new(bytes(&rt, alloc, &[1, 2, 3, 4]), 2);
    is(&rt, width_of(rows), 2);
    let rows = RowMajorMatrix::new(bytes(&rt, alloc, &[1, 2, 3, 4]), 2).into_row_major_matrix();
    is(&rt, rows.height(), 2);
}

// Rows 10, 20, 30, 40 in bit reversed order, and what they are when they are told to be it.
#[test]
fn rows_in_bit_reversed_order(rt: HostRuntime) {
    let alloc = rt.alloc();
    let view = RowMajorMatrix::new_col(bytes(&rt, alloc, &[10, 20, 30, 40])).into_bit_reversed();
    is(&rt, (view.width(), view.height()), (1, 4));
    assert!(rt; view.inner().values() == [10, 30, 20, 40].as_slice());
    let rows = view.to_row_major_matrix();
    assert!(rt; rows.values() == [10, 20, 30, 40].as_slice());
}

#[test]
fn rows_told_to_be_reversed(rt: HostRuntime) {
    let alloc = rt.alloc();
    let view = RowMajorMatrix::new_col(bytes(&rt, alloc, &[10, 20, 30, 40])).bit_reverse_rows();
    assert!(rt; view.inner().values() == [10, 20, 30, 40].as_slice());
    assert!(rt; view.to_row_major_matrix().values() == [10, 30, 20, 40].as_slice());
    let told = RowMajorMatrix::new_col(bytes(&rt, alloc, &[10, 20])).bit_reverse_rows();
    assert!(rt; told.bit_reverse_rows().values() == [10, 20].as_slice());
}

// The entry at a place of the rows in natural order.
fn entry<T: Copy>(view: &BitReversedMatrixView<RowMajorMatrix<T>>, i: usize, j: usize) -> T
    requires row { i < height view.now.physical }
    requires column { j < view.now.physical.width }
    ensures { result ≡ get_or (row (reversed_rows view.now.bits view.now.physical) i) j result }
{
    view.row(i)[j]
}

// Rows that lie in bit reversed order, by their number in natural order.
#[test]
fn rows_by_natural_number(rt: HostRuntime) {
    let alloc = rt.alloc();
    let view = RowMajorMatrix::new_col(bytes(&rt, alloc, &[10, 20, 30, 40])).bit_reverse_rows();
    is(&rt, (entry(&view, 0, 0), entry(&view, 1, 0)), (10, 30));
    is(&rt, (entry(&view, 2, 0), entry(&view, 3, 0)), (20, 40));
    assert!(rt; view.row(1) == [30].as_slice());
}

// Views are equal where their matrices are, and print both parts.
#[test]
fn reversed_views_compare(rt: HostRuntime) {
    let alloc = rt.alloc();
    let view = RowMajorMatrix::new_col(bytes(&rt, alloc, &[10, 20])).bit_reverse_rows();
    let wide = RowMajorMatrix::new_row(bytes(&rt, alloc, &[10, 20])).bit_reverse_rows();
    assert!(rt; view != wide);
    let again = RowMajorMatrix::new_col(bytes(&rt, alloc, &[10, 20])).bit_reverse_rows();
    is(&rt, view, again);
}
