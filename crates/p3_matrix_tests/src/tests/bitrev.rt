// Digits, places and rows in reversed order.

ghost use Rattle.std.specs.Prelude.{◌≡◌, ◌^◌, ℕ, length};

use super::bytes;
use p3_matrix::{
    RowMajorMatrix, reverse_bits_len, reverse_matrix_index_bits, reverse_slice_index_bits,
};
use std::alloc::Global;
use std::process::Abort;

#[test]
fn reverses_digits(rt: HostRuntime) {
    for (x, bits, want) in [(1, 3, 4), (6, 3, 3), (0, 0, 0), (1, 63, 1usize << 62)] {
        assert_eq!(rt; reverse_bits_len(x, bits), want, "{bits} digits of {x}");
    }
}

// The bytes in bit reversed order.
fn reversed(rt: &impl Abort, alloc: Global, entries: &[u8]) -> Vec<u8>
    requires { (n : ℕ) × (length entries.now ≡ 2 ^ n) }
{
    let mut places = bytes(rt, alloc, entries);
    reverse_slice_index_bits(places.as_mut_slice());
    places
}

#[test]
fn reverses_places(rt: HostRuntime) {
    let alloc = rt.alloc();
    let places = reversed(&rt, alloc, &[0, 1, 2, 3, 4, 5, 6, 7]);
    assert!(rt; places == bytes(&rt, alloc, &[0, 4, 2, 6, 1, 5, 3, 7]));
    assert!(rt; reversed(&rt, alloc, &[9]) == bytes(&rt, alloc, &[9]));
}

#[test]
fn reverses_rows(rt: HostRuntime) {
    let alloc = rt.alloc();
    let mut rows = RowMajorMatrix::new(bytes(&rt, alloc, &[10, 11, 20, 21, 30, 31, 40, 41]), 2);
    reverse_matrix_index_bits(&mut rows.as_view_mut());
    let want = RowMajorMatrix::new(bytes(&rt, alloc, &[10, 11, 30, 31, 20, 21, 40, 41]), 2);
    assert!(rt; rows == want);
    let mut none = RowMajorMatrix::new(Vec::<u8>::new(alloc), 3);
    reverse_matrix_index_bits(&mut none.as_view_mut());
    assert!(rt; none.height() == 0);
}
