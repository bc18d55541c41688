//! Small helpers: logarithms, rows that change places, and the degree that coefficients have.

ghost use Rattle.std.specs.Prelude.{◌≡◌, ◌↔◌, ◌+◌, ◌*◌, ◌/◌, ◌^◌, ◌<◌, ◌≤◌, ◌⊎◌, ℕ, All, IsTrue, length};
ghost use Rattle.p3_matrix.specs.RowMajor.{height, HasShapeOf};
ghost use Rattle.p3_matrix.specs.Matrix.{matrix, row_exchange, Same};
ghost use Rattle.p3_matrix.specs.Cosets.{values_of};
ghost use Rattle.p3_matrix.specs.Exchange.{IsExchange};

use crate::dense::RowMajorMatrix;
use crate::views::RowMajorMatrixViewMut;
use p3_field::Field;

/// The logarithm of a power of two.
pub fn log2_strict_usize(n: usize) -> usize
    requires { (k : ℕ) × n ≡ 2 ^ k }
    ensures power { n ≡ 2 ^ result }
    ensures fits_u64 { result ≤ 63 }
{
    n.ilog2() as usize
}

/// Whether the polynomials with these coefficients, one in each column, have degrees below `bound`: the
/// rows from row `bound` on are zero.
pub fn has_degree_below<F: Field>(coefficients: &RowMajorMatrix<F>, bound: usize) -> bool
    ensures { IsTrue result ↔ ((i j : ℕ) → bound ≤ i → i < height coefficients.now → j < coefficients.now.width
        → (values_of F.Valued.own coefficients.now).entry i j ≡ F.ring.zero) }
{
    let first = bound.min(coefficients.height());
    let values = coefficients.values();
    are_zeros(&values[first * coefficients.width()..])
}

// Whether all are zero.
fn are_zeros<F: Field>(elements: &[F]) -> bool
    ensures { IsTrue result ↔ All (λ x. F.value x ≡ F.ring.zero) elements.now }
{
    elements.iter().all(|x| x.is_zero())
}

/// Rows i and j, which are below the height, change places.
pub fn swap_rows<T>(view: &mut RowMajorMatrixViewMut<'_, T>, i: usize, j: usize)
    requires i_in_bounds { i < height view.old.matrix.now }
    requires j_in_bounds { j < height view.old.matrix.now }
    ensures same_reference { view.new.matrix.ghost_name ≡ view.old.matrix.ghost_name }
    ensures shape { HasShapeOf view.new.matrix.now view.old.matrix.now }
    ensures size { length view.new.matrix.now.values ≡ length view.old.matrix.now.values }
    ensures rows { (d : T) → Same (matrix d view.new.matrix.now) (row_exchange i j (matrix d view.old.matrix.now)) }
{
    let width = view.width();
    if i != j {
        exchange(view.values_mut(), i * width, j * width, width);
    }
}

// The `count` elements from `first` on, and those from `second` on, change places.
pub(crate) fn exchange<T>(values: &mut [T], first: usize, second: usize, count: usize)
    requires apart { (first + count ≤ second) ⊎ (second + count ≤ first) }
    requires first { first + count ≤ length values.old }
    requires second { second + count ≤ length values.old }
    ensures { IsExchange values.old values.new first second count }
{
    // In a column the call for two slices costs more than the exchange itself.
    if count == 1 {
        values.swap(first, second);
    } else if first < second {
        exchange_slices(values, first, second, count);
    } else {
        exchange_slices(values, second, first, count);
    }
}

// Exchanges two chunks of one slice, of which the first lies before the second.
fn exchange_slices<T>(values: &mut [T], first: usize, second: usize, count: usize)
    requires apart { first + count ≤ second }
    requires within { second + count ≤ length values.old }
    ensures { IsExchange values.old values.new first second count }
{
    let (front, back) = values.split_at_mut(second);
    let part = &mut front[first..first + count];
    part.swap_with_slice(&mut back[..count]);
}
