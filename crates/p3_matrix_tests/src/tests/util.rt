// Logarithms, and rows that change places.

use super::{bytes, is};
use p3_matrix::{RowMajorMatrix, log2_strict_usize, swap_rows};

#[test]
fn takes_logarithms(rt: HostRuntime) {
    is(&rt, log2_strict_usize(1), 0);
    is(&rt, log2_strict_usize(8), 3);
    is(&rt, log2_strict_usize(9223372036854775808), 63);
}

#[test]
fn swaps_rows(rt: HostRuntime) {
    let alloc = rt.alloc();
    let mut rows = RowMajorMatrix::new(bytes(&rt, alloc, &[1, 2, 3, 4, 5, 6]), 2);
    swap_rows(&mut rows.as_view_mut(), 2, 0);
    assert!(rt; rows == RowMajorMatrix::new(bytes(&rt, alloc, &[5, 6, 3, 4, 1, 2]), 2));
}

#[test]
fn swaps_a_row_with_itself(rt: HostRuntime) {
    let alloc = rt.alloc();
    let mut pair = RowMajorMatrix::new(bytes(&rt, alloc, &[1, 2, 3, 4]), 2);
    swap_rows(&mut pair.as_view_mut(), 1, 1);
    swap_rows(&mut pair.as_view_mut(), 0, 1);
    assert!(rt; pair == RowMajorMatrix::new(bytes(&rt, alloc, &[3, 4, 1, 2]), 2));
}
