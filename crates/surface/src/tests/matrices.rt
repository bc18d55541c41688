// Matrices, their views, and the orders of rows.

ghost use Rattle.std.specs.Prelude.{◌≡◌, ◌*◌, ◌/◌, ◌^◌, ◌<◌, ◌≤◌, ◌⊎◌, ℕ, length};
ghost use Rattle.p3_matrix.specs.RowMajor.{height};

use p3_dft::{
    BitReversedMatrixView, DftError, Evaluations, IntoRowMajorMatrix, Packable, Products,
    RowMajorMatrix, RowMajorMatrixView, RowMajorMatrixViewMut, log2_strict_usize, reverse_bits_len,
    reverse_matrix_index_bits, reverse_slice_index_bits, split_rows_mut, swap_rows,
};
use std::alloc::Global;
use std::process::Abort;

fn new<T>(values: Vec<T>, width: usize) -> RowMajorMatrix<T>
    requires width { 1 ≤ width }
    requires full { (length values.items / width) * width ≡ length values.items }
{
    RowMajorMatrix::new(values, width)
}

fn new_col<T>(values: Vec<T>) -> RowMajorMatrix<T> {
    RowMajorMatrix::new_col(values)
}

fn new_row<T>(values: Vec<T>) -> RowMajorMatrix<T>
    requires { 1 ≤ length values.items }
{
    RowMajorMatrix::new_row(values)
}

fn shape<T>(mat: &RowMajorMatrix<T>) -> (usize, usize) {
    (mat.width(), mat.height())
}

fn values<T>(mat: &RowMajorMatrix<T>) -> &[T] {
    mat.values()
}

fn into_values<T>(mat: RowMajorMatrix<T>) -> Vec<T> {
    mat.into_values()
}

fn as_view<T>(mat: &RowMajorMatrix<T>) -> RowMajorMatrixView<'_, T> {
    mat.as_view()
}

fn as_view_mut<T>(mat: &mut RowMajorMatrix<T>) -> RowMajorMatrixViewMut<'_, T> {
    mat.as_view_mut()
}

fn try_clone<T: Copy>(mat: &RowMajorMatrix<T>) -> Result<RowMajorMatrix<T>, DftError> {
    mat.try_clone()
}

fn equal<T: PartialEq>(one: &RowMajorMatrix<T>, other: &RowMajorMatrix<T>) -> bool {
    one == other
}

fn scale<F: Packable>(mat: &mut RowMajorMatrix<F>, t: F, products: &mut Products) {
    mat.scale(t, products);
}

fn bit_reverse_rows<T>(mat: RowMajorMatrix<T>) -> BitReversedMatrixView<RowMajorMatrix<T>>
    requires { (k : ℕ) × (height mat ≡ 2 ^ k) }
{
    mat.bit_reverse_rows()
}

// Views for reading.

fn view_of<T>(values: &[T], width: usize) -> RowMajorMatrixView<'_, T>
    requires width { 1 ≤ width }
    requires full { (length values.now / width) * width ≡ length values.now }
{
    RowMajorMatrixView::new(values, width)
}

fn view_shape<T>(view: &RowMajorMatrixView<'_, T>) -> (usize, usize) {
    (view.width(), view.height())
}

fn view_values<'a, T>(view: &RowMajorMatrixView<'a, T>) -> &'a [T] {
    view.values()
}

fn view_row<'a, T>(view: &RowMajorMatrixView<'a, T>, i: usize) -> &'a [T]
    requires { i < height view.now }
{
    view.row(i)
}

// Views for writing.

fn view_mut_of<T>(mat: &mut RowMajorMatrix<T>) -> RowMajorMatrixViewMut<'_, T> {
    RowMajorMatrixViewMut::new(mat)
}

fn view_mut_shape<T>(view: &RowMajorMatrixViewMut<'_, T>) -> (usize, usize) {
    (view.width(), view.height())
}

fn view_mut_values<'a, T>(view: &'a RowMajorMatrixViewMut<'_, T>) -> &'a [T] {
    view.values()
}

fn view_mut_row<'a, T>(view: &'a RowMajorMatrixViewMut<'_, T>, i: usize) -> &'a [T]
    requires { i < height view.now.matrix.now }
{
    view.row(i)
}

fn view_mut_as_view<'a, T>(view: &'a RowMajorMatrixViewMut<'_, T>) -> RowMajorMatrixView<'a, T> {
    view.as_view()
}

fn write<T: Copy>(view: &mut RowMajorMatrixViewMut<'_, T>, i: usize, entry: T)
    requires { i < height view.old.matrix.now }
{
    if let Some(first) = view.row_mut(i).first_mut() {
        *first = entry;
    }
}

fn view_scale<F: Packable>(view: &mut RowMajorMatrixViewMut<'_, F>, t: F, products: &mut Products) {
    view.scale(t, products);
}

// Of the entries of a matrix.
fn split<T>(values: &mut [T], width: usize, rows: usize) -> (&mut [T], &mut [T])
    requires { rows * width ≤ length values.old }
{
    split_rows_mut(values, width, rows)
}

// What can be handed over as a matrix.
fn stored<T, N: IntoRowMajorMatrix<T>>(mat: N) -> RowMajorMatrix<T> {
    mat.into_row_major_matrix()
}

// Rows in reversed order.

fn reversed_shape<T>(view: &BitReversedMatrixView<RowMajorMatrix<T>>) -> (usize, usize) {
    (view.width(), view.height())
}

fn inner<T>(view: &BitReversedMatrixView<RowMajorMatrix<T>>) -> &RowMajorMatrix<T> {
    view.inner()
}

fn physical<T>(view: BitReversedMatrixView<RowMajorMatrix<T>>) -> RowMajorMatrix<T> {
    view.bit_reverse_rows()
}

fn to_row_major_matrix<F, E: Evaluations<F>>(values: E) -> RowMajorMatrix<F> {
    values.to_row_major_matrix()
}

fn into_bit_reversed<F, E: Evaluations<F>>(values: E) -> BitReversedMatrixView<RowMajorMatrix<F>>
    requires { (k : ℕ) × (height (E.natural values) ≡ 2 ^ k) }
{
    values.into_bit_reversed()
}

fn reverse_matrix<T>(view: &mut RowMajorMatrixViewMut<'_, T>)
    requires { ((n : ℕ) × height view.old.matrix.now ≡ 2 ^ n) ⊎ (height view.old.matrix.now ≡ 0) }
{
    reverse_matrix_index_bits(view);
}

fn reverse_slice<T>(values: &mut [T])
    requires { ((n : ℕ) × length values.old ≡ 2 ^ n) ⊎ (length values.old ≡ 0) }
{
    reverse_slice_index_bits(values);
}

fn reverse_number(x: usize, bits: usize) -> usize
    requires below { x < 2 ^ bits }
    requires bits { bits ≤ 63 }
{
    reverse_bits_len(x, bits)
}

fn log2(n: usize) -> usize
    requires { (k : ℕ) × n ≡ 2 ^ k }
{
    log2_strict_usize(n)
}

fn swap<T>(view: &mut RowMajorMatrixViewMut<'_, T>, i: usize, j: usize)
    requires i_in_bounds { i < height view.old.matrix.now }
    requires j_in_bounds { j < height view.old.matrix.now }
{
    swap_rows(view, i, j);
}

// Evaluations of a user's own.
#[derive(Drop)]
struct Kept<F> {
    mat: RowMajorMatrix<F>,
}

impl<F: Drop> Evaluations<F> for Kept<F> {
    ghost natural = { λ kept. kept.mat };

    fn to_row_major_matrix(self) -> RowMajorMatrix<F> {
        let Kept { mat } = self;
        mat
    }

    fn into_bit_reversed(self) -> BitReversedMatrixView<RowMajorMatrix<F>> {
        self.to_row_major_matrix().into_bit_reversed()
    }
}

// Four rows of one number.
fn four(rt: &impl Abort, alloc: Global) -> RowMajorMatrix<u8>
    ensures height { height result ≡ 4 }
    ensures power { (k : ℕ) × (height result ≡ 2 ^ k) }
{
    let mut numbers = Vec::new(alloc);
    numbers
        .extend_from_slice(&[10u8, 20, 30, 40])
        .expect(rt, "memory");
    RowMajorMatrix::new_col(numbers)
}

#[test]
fn rows_change_their_order(rt: HostRuntime) {
    let alloc = rt.alloc();
    let mut mat = four(&rt, alloc);
    reverse_matrix(&mut mat.as_view_mut());
    assert!(rt; values(&mat) == [10u8, 30, 20, 40].as_slice() && mat.height() == 4);
    swap(&mut mat.as_view_mut(), 1, 2);
    assert!(rt; equal(&mat, &four(&rt, alloc)) && shape(&mat) == (1, 4));
}

#[test]
fn rows_are_seen_in_reversed_order(rt: HostRuntime) {
    let alloc = rt.alloc();
    let seen = bit_reverse_rows(four(&rt, alloc));
    assert!(rt; inner(&seen).values() == [10u8, 20, 30, 40].as_slice());
    assert!(rt; reversed_shape(&seen) == (1, 4));
    assert!(rt; to_row_major_matrix(seen).values() == [10u8, 30, 20, 40].as_slice());
    let kept = Kept {
        mat: four(&rt, alloc),
    };
    assert!(rt; physical(into_bit_reversed(kept)).values() == [10u8, 30, 20, 40].as_slice());
}

#[test]
fn rows_are_written(rt: HostRuntime) {
    let mut mat = four(&rt, rt.alloc());
    {
        let mut view = mat.as_view_mut();
        write(&mut view, 3, 70);
        assert!(rt; view_mut_shape(&view) == (1, 4));
        assert!(rt; view_mut_as_view(&view).values() == view_mut_values(&view));
    }
    assert!(rt; as_view(&mat).values() == [10u8, 20, 30, 70].as_slice());
    assert!(rt; view_shape(&view_of(&[1u8, 2, 3, 4], 2)) == (2, 2));
}

#[test]
fn digits_are_reversed(rt: HostRuntime) {
    assert!(rt; reverse_number(1, 3) == 4 && reverse_number(6, 3) == 3);
    assert!(rt; reverse_number(0, 0) == 0);
    assert!(rt; log2(1024) == 10);
    let mut numbers = [1u8, 2, 3, 4];
    reverse_slice(&mut numbers);
    assert!(rt; numbers == [1, 3, 2, 4]);
}
