// Shapes and rows.

use super::{bytes, is};
use p3_matrix::RowMajorMatrix;

#[test]
fn shapes_and_rows_are_as_given(rt: HostRuntime) {
    let alloc = rt.alloc();
    let pairs = RowMajorMatrix::new(bytes(&rt, alloc, &[1, 2, 3, 4, 5, 6]), 2);
    is(&rt, (pairs.width(), pairs.height()), (2, 3));
    is(&rt, (pairs.row(1)[0], pairs.row(2)[1]), (3, 6));
    let triples = RowMajorMatrix::new(bytes(&rt, alloc, &[1, 2, 3, 4, 5, 6]), 3);
    assert!(rt; pairs != triples);
    assert!(rt; pairs == pairs.try_clone().expect(&rt, "memory"));
}

#[test]
fn one_column_and_one_row_are_matrices(rt: HostRuntime) {
    let alloc = rt.alloc();
    let pairs = RowMajorMatrix::new(bytes(&rt, alloc, &[1, 2, 3, 4, 5, 6]), 2);
    let mut sums = Vec::new(*pairs.allocator());
    sums.push(pairs.row(0)[0] + pairs.row(0)[1])
        .expect(&rt, "memory");
    is(&rt, RowMajorMatrix::new_col(sums).row(0)[0], 3);
    is(
        &rt,
        RowMajorMatrix::new_col(pairs.into_values()).height(),
        6,
    );
    let triples = bytes(&rt, alloc, &[1, 2, 3, 4, 5, 6]);
    is(&rt, RowMajorMatrix::new_row(triples).height(), 1);
}
