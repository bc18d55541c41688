// Matrices and elements by their numbers, and what stops a test.

use p3_dft::{CanonicalField, RowMajorMatrix, TwoAdicField};
use std::alloc::Global;
use std::process::Abort;

// The elements with these numbers.
pub(crate) fn elements<F: CanonicalField>(
    rt: &impl Abort,
    alloc: Global,
    numbers: &[u64],
) -> Vec<F> {
    let mut elements = Vec::new(alloc);
    for number in numbers {
        let element = F::new(*number).expect(rt, "a number below the modulus");
        elements.push(element).expect(rt, "memory");
    }
    elements
}

// The matrix of these entries, row after row.
pub(crate) fn matrix_of<F: Drop>(
    rt: &impl Abort,
    entries: Vec<F>,
    width: usize,
) -> RowMajorMatrix<F> {
    assert!(rt; width != 0 && entries.len() % width == 0);
    RowMajorMatrix::new(entries, width)
}

// The matrix of the elements with these numbers, row after row.
pub(crate) fn matrix<F: CanonicalField>(
    rt: &impl Abort,
    alloc: Global,
    numbers: &[u64],
    width: usize,
) -> RowMajorMatrix<F> {
    matrix_of(rt, elements(rt, alloc, numbers), width)
}

// Entries that look like any others, and are others for another seed.
pub(crate) fn sample<F: TwoAdicField>(
    rt: &impl Abort,
    alloc: Global,
    height: usize,
    width: usize,
    seed: u8,
) -> RowMajorMatrix<F> {
    let count = height.checked_mul(width).expect(rt, "so many entries");
    let factor = F::from_usize(1664525);
    let mut entry = F::from_u8(seed);
    let mut entries = Vec::new(alloc);
    for _n in 0..count {
        entry = entry * factor + F::ONE;
        entries.push(entry).expect(rt, "memory");
    }
    matrix_of(rt, entries, width)
}

// Stops the test where a matrix is not that of these numbers.
pub(crate) fn assert_rows<F: CanonicalField>(
    rt: &impl Abort,
    found: &RowMajorMatrix<F>,
    numbers: &[u64],
    width: usize,
) {
    let height = found.height();
    let expected: RowMajorMatrix<F> = matrix(rt, *found.allocator(), numbers, width);
    assert!(rt; *found == expected, "height {height}, width {width}");
}

// Where elements are not those with these numbers.
pub(crate) fn assert_elements<F: CanonicalField>(rt: &impl Abort, found: Vec<F>, numbers: &[u64]) {
    let expected: Vec<F> = elements(rt, *found.allocator(), numbers);
    assert!(rt; found == expected);
}
