// Matrices and elements by their numbers, and what stops a test.

use p3_dft::{CanonicalField, RowMajorMatrix, TwoAdicField};
use std::alloc::Global;
use std::process::Abort;

// The elements with these numbers.
pub(crate) fn elements<F: CanonicalField>(
    rt: &impl Abort,
    alloc: Global,
    numbers: &[u64],
) -> Vec<F> {
    let mut elements = Vec::new(alloc);
    for number in numbers {
        let element = F::new(*number).expect(rt, "a number below the modulus");
        elements.push(element).expect(rt, "memory");
    }
    elements
}

// The matrix of these entries, row after row.
pub(crate) fn matrix_of<F: Drop>(
    rt: &impl Abort,
    entries: Vec<F>,
    width: usize,
) -> RowMajorMatrix<F> {
    assert!(rt; width != 0 && entries.len() % width == 0);
    RowMajorMatrix::new(entries, width)
}

// The matrix of the elements with these numbers, row after row.
pub(crate) fn matrix<F: CanonicalField>(
    rt: &impl Abort,
    alloc: Global,
    numbers: &[u64],
    width: usize,
) -> RowMajorMatrix<F> {
    matrix_of(rt, elements(rt, alloc, numbers), width)
}

// Entries that look like any others, and are others for another seed.
pub(crate) fn sample<F: TwoAdicField>(
    rt: &impl Abort,
    alloc: Global,
    height: usize,
    width: usize,
    seed: u8,
) -> RowMajorMatrix<F> {
    let count = height.checked_mul(width).expect(rt, "so many entries");
    let factor = F::from_usize(1664525);
    let mut entry = F::from_u8(seed);
    let mut entries = Vec::new(alloc);
    for _n in 0..count {
        entry = entry * factor + F::ONE;
        entries.push(entry).expect(rt, "memory");
    }
    matrix_of(rt, entries, width)
}

// The numbers from one on, row after row.
pub(crate) fn counting<F: TwoAdicField>(
    rt: &impl Abort,
    alloc: Global,
    height: usize,
    width: usize,
) -> RowMajorMatrix<F> {
    let count = height.checked_mul(width).expect(rt, "so many entries");
    let mut entries = Vec::new(alloc);
    for i in 0..count {
        entries.push(F::from_usize(i + 1)).expect(rt, "memory");
    }
    matrix_of(rt, entries, width)
}

// A column that begins with one number, and has another in all places after it.
pub(crate) fn column<F: TwoAdicField>(
    rt: &impl Abort,
    alloc: Global,
    height: usize,
    first: u8,
    later: u8,
) -> RowMajorMatrix<F> {
    let mut entries = Vec::new(alloc);
    for i in 0..height {
        let entry = F::from_u8(if i == 0 { first } else { later });
        entries.push(entry).expect(rt, "memory");
    }
    matrix_of(rt, entries, 1)
}

// `a * x + b * y`, entry by entry.
pub(crate) fn combined<F: TwoAdicField>(
    rt: &impl Abort,
    alloc: Global,
    (a, x): (F, &RowMajorMatrix<F>),
    (b, y): (F, &RowMajorMatrix<F>),
) -> RowMajorMatrix<F> {
    let mut entries = Vec::new(alloc);
    for (p, q) in x.values().iter().zip(y.values()) {
        entries.push(a * *p + b * *q).expect(rt, "memory");
    }
    matrix_of(rt, entries, x.width())
}

// Column j of a matrix, which has it.
pub(crate) fn column_of<F: TwoAdicField>(
    rt: &impl Abort,
    mat: &RowMajorMatrix<F>,
    j: usize,
) -> RowMajorMatrix<F> {
    let mut entries = Vec::new(*mat.allocator());
    for i in 0..mat.height() {
        let row = mat.row(i);
        assert!(rt; j < row.len());
        entries.push(row[j]).expect(rt, "memory");
    }
    matrix_of(rt, entries, 1)
}

// The matrix with zeros after its entries, up to so many.
pub(crate) fn with_zeros<F: TwoAdicField>(
    rt: &impl Abort,
    mat: RowMajorMatrix<F>,
    count: usize,
) -> RowMajorMatrix<F> {
    let width = mat.width();
    let mut entries = mat.into_values();
    for _n in entries.len()..count {
        entries.push(F::ZERO).expect(rt, "memory");
    }
    matrix_of(rt, entries, width)
}

// Stops the test where two matrices differ.
pub(crate) fn assert_same<F: TwoAdicField>(
    rt: &impl Abort,
    one: &RowMajorMatrix<F>,
    other: &RowMajorMatrix<F>,
) {
    let height = one.height();
    let width = one.width();
    assert!(rt; *one == *other, "height {height}, width {width}");
}

// Where a matrix is not that of these numbers.
pub(crate) fn assert_rows<F: CanonicalField>(
    rt: &impl Abort,
    found: &RowMajorMatrix<F>,
    numbers: &[u64],
    width: usize,
) {
    assert_same(rt, found, &matrix(rt, *found.allocator(), numbers, width));
}

// Where elements are not those with these numbers.
pub(crate) fn assert_elements<F: CanonicalField>(rt: &impl Abort, found: Vec<F>, numbers: &[u64]) {
    let expected: Vec<F> = elements(rt, *found.allocator(), numbers);
    assert!(rt; found == expected);
}
