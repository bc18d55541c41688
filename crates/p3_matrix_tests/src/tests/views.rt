// Callers that need no proof of their own to know all of the matrix afterwards.

ghost use Rattle.std.specs.Prelude.{◌≡◌, length, slice_set};
ghost use Rattle.p3_matrix.specs.RowMajor.{height};

use super::{bytes, is};
use p3_matrix::{RowMajorMatrix, RowMajorMatrixView, RowMajorMatrixViewMut, split_rows_mut};
use std::alloc::Global;
use std::process::Abort;

fn writes_rows(matrix: &mut RowMajorMatrix<u8>)
    requires width { matrix.old.width ≡ 2 }
    requires values { length matrix.old.values ≡ 6 }
    ensures { matrix.new ≡ record matrix.old { values = slice_set (slice_set matrix.old.values 2 7) 5 8 } }
{
    let mut view = matrix.as_view_mut();
    let row = view.row_mut(1);
    row[0] = 7;
    let row = view.row_mut(2);
    row[1] = 8;
}

fn writes_parts(matrix: &mut RowMajorMatrix<u8>)
    requires width { matrix.old.width ≡ 2 }
    requires values { length matrix.old.values ≡ 6 }
    ensures { matrix.new ≡ record matrix.old { values = slice_set (slice_set matrix.old.values 1 9) 4 5 } }
{
    let (front, back) = split_rows_mut(matrix.values_mut(), 2, 1);
    front[1] = 9;
    back[2] = 5;
}

fn writes_entry(matrix: &mut RowMajorMatrix<u8>)
    requires values { length matrix.old.values ≡ 6 }
    ensures { matrix.new ≡ record matrix.old { values = slice_set matrix.old.values 3 6 } }
{
    let mut view = RowMajorMatrixViewMut::new(matrix);
    view.values_mut()[3] = 6;
}

// Rows, parts and entries that were written through loans.
fn written(rt: &impl Abort, alloc: Global) -> RowMajorMatrix<u8>
    ensures width { result.width ≡ 2 }
    ensures values { length result.values ≡ 6 }
{
    let mut matrix = RowMajorMatrix::new(bytes(rt, alloc, &[0; 6]), 2);
    writes_rows(&mut matrix);
    writes_parts(&mut matrix);
    writes_entry(&mut matrix);
    matrix
}

#[test]
fn writes_through_loans(rt: HostRuntime) {
    let alloc = rt.alloc();
    let want = RowMajorMatrix::new(bytes(&rt, alloc, &[0, 9, 7, 6, 5, 8]), 2);
    assert!(rt; written(&rt, alloc) == want);
}

#[test]
fn reads_loans(rt: HostRuntime) {
    let mut matrix = written(&rt, rt.alloc());
    let view = matrix.as_view_mut();
    is(&rt, (view.width(), view.height()), (2, 3));
    is(&rt, (view.row(1)[0], view.as_view().row(2)[1]), (7, 8));
}

#[test]
fn reads_in_another_width(rt: HostRuntime) {
    let matrix = written(&rt, rt.alloc());
    let view = RowMajorMatrixView::new(matrix.values(), 3);
    is(&rt, (view.width(), view.height()), (3, 2));
    is(&rt, (view.row(1)[2], view.values()[5]), (8, 8));
}

// Rows that are lent twice.
fn twice<'a, T>(
    view: &RowMajorMatrixView<'a, T>,
) -> (RowMajorMatrixView<'a, T>, RowMajorMatrixView<'a, T>)
    ensures { result ≡ (view.now, view.now) }
{
    (view.as_view(), view.as_view())
}

// Whether a row begins with this entry, by the rows one after another.
fn has_row_from(view: &RowMajorMatrixView<'_, u8>, first: u8) -> bool {
    for row in view.row_slices() {
        if row[0] == first {
            return true;
        }
    }
    false
}

fn rows_counted<T>(matrix: &RowMajorMatrix<T>) -> usize
    ensures { result ≡ height matrix.now }
{
    matrix.row_slices().count()
}

#[test]
fn rows_one_after_another(rt: HostRuntime) {
    let matrix = written(&rt, rt.alloc());
    let view = matrix.as_view();
    is(
        &rt,
        (has_row_from(&view, 7), has_row_from(&view, 9)),
        (true, false),
    );
    is(&rt, rows_counted(&matrix), 3);
}

#[test]
fn lends_once_more_and_compares(rt: HostRuntime) {
    let matrix = written(&rt, rt.alloc());
    let (first, second) = twice(&matrix.as_view());
    assert!(rt; first != RowMajorMatrixView::new(matrix.values(), 3));
    is(&rt, first, second);
}
