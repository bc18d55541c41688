// The network of both halves, on a matrix.

ghost use Rattle.std.specs.Prelude.{◌≡◌, ℕ, ◌+◌, ◌*◌, ◌/◌, ◌^◌, ◌<◌, ◌≤◌};
ghost use Rattle.p3_field.specs.Ring.{AreRoots, power};
ghost use Rattle.p3_matrix.specs.BitOrder.{rev};
ghost use Rattle.p3_matrix.specs.Cosets.{point, values_of};
ghost use Rattle.p3_matrix.specs.Polynomials.{poly};
ghost use Rattle.p3_networks.specs.Halves.{AreHighTwiddles, AreLowTwiddles};
ghost use Rattle.p3_networks.specs.Twiddles.{factor, scale_cost};
ghost use Rattle.p3_dft.specs.Stored.{HasEntriesOf, HasTwoPowerRows};

use p3_field::{Products, TwoAdicField};
use p3_matrix::{RowMajorMatrix, reverse_rows};
use p3_networks::halves::{first_half, second_half};
use p3_networks::layouts::LayerTwiddles;

// From coefficients in natural order, their values on a coset, in bit reversed order. The first half has
// `mid` layers and the second `left`. With a scale, the values are multiplied by it.
pub(crate) fn network_to_reversed<F: TwoAdicField, L: LayerTwiddles<F>, H: LayerTwiddles<F>>(
    low: L,
    high: H,
    scale: Option<F>,
    mat: &mut RowMajorMatrix<F>,
    mid: usize,
    left: usize,
    products: &mut Products,
)
    requires rows { HasTwoPowerRows mat.old (mid + left) }
    requires low { (l : ℕ) → l < mid → L.has low l }
    requires high { (l : ℕ) → mid ≤ l → l < mid + left → H.has high l }
    ensures same { HasEntriesOf mat.new mat.old }
    ensures values { (g : ℕ → F.Element) (s : F.Element) → AreRoots F.ring (mid + left) g
        → AreLowTwiddles F.Valued.own g (power F.ring s (2 ^ left)) mid (L.at low)
        → AreHighTwiddles F.Valued.own g s mid (mid + left) (H.at high)
        → (r j : ℕ) → r < 2 ^ (mid + left) → j < mat.old.width → (values_of F.Valued.own mat.new).entry r j
        ≡ poly F.ring (2 ^ (mid + left))
        (λ q. F.ring.mul ((values_of F.Valued.own mat.old).entry q j) (factor F.Valued.own scale))
        (point F.ring g (mid + left) s (rev (mid + left) r)) }
    ensures grows { products.old ≤ products.new }
    ensures cost { products.new ≤ products.old
        + (2 ^ left * (mat.old.width * (mid * 2 ^ mid / 2))
        + 2 ^ mid * (mat.old.width * (left * 2 ^ left / 2) + scale_cost scale * (2 ^ left * mat.old.width))) }
{
    first_of_matrix(low, mat, mid, left, products);
    second_of_matrix(high, scale, mat, mid, left, products);
}

// The rows are reversed, then the first half.
fn first_of_matrix<F: TwoAdicField, T: LayerTwiddles<F>>(
    table: T,
    mat: &mut RowMajorMatrix<F>,
    mid: usize,
    left: usize,
    products: &mut Products,
)
    requires rows { HasTwoPowerRows mat.old (mid + left) }
    requires table { (l : ℕ) → l < mid → T.has table l }
    ensures same { HasEntriesOf mat.new mat.old }
    ensures values { (g : ℕ → F.Element) (s : F.Element) → AreRoots F.ring mid g
        → AreLowTwiddles F.Valued.own g s mid (T.at table)
        → (a t j : ℕ) → a < 2 ^ left → t < 2 ^ mid → j < mat.old.width
        → (values_of F.Valued.own mat.new).entry (a * 2 ^ mid + t) j
        ≡ poly F.ring (2 ^ mid) (λ q. (values_of F.Valued.own mat.old).entry (q * 2 ^ left + rev left a) j)
        (point F.ring g mid s t) }
    ensures grows { products.old ≤ products.new }
    ensures cost { products.new ≤ products.old + 2 ^ left * (mat.old.width * (mid * 2 ^ mid / 2)) }
{
    let width = mat.width();
    reverse_rows(mat);
    first_half(
        table,
        None,
        mat.values_mut(),
        width,
        mid + left,
        mid,
        products,
    );
}

// The rows are reversed, then the second half.
fn second_of_matrix<F: TwoAdicField, T: LayerTwiddles<F>>(
    table: T,
    scale: Option<F>,
    mat: &mut RowMajorMatrix<F>,
    mid: usize,
    left: usize,
    products: &mut Products,
)
    requires rows { HasTwoPowerRows mat.old (mid + left) }
    requires table { (l : ℕ) → mid ≤ l → l < mid + left → T.has table l }
    ensures same { HasEntriesOf mat.new mat.old }
    ensures values { (g : ℕ → F.Element) (s : F.Element) → AreRoots F.ring (mid + left) g
        → AreHighTwiddles F.Valued.own g s mid (mid + left) (T.at table)
        → (a t j : ℕ) → a < 2 ^ mid → t < 2 ^ left → j < mat.old.width
        → (values_of F.Valued.own mat.new).entry (a * 2 ^ left + t) j
        ≡ poly F.ring (2 ^ left)
        (λ q. F.ring.mul ((values_of F.Valued.own mat.old).entry (rev left q * 2 ^ mid + rev mid a) j)
        (factor F.Valued.own scale))
        (point F.ring g left (point F.ring g (mid + left) s (rev mid a)) (rev left t)) }
    ensures grows { products.old ≤ products.new }
    ensures cost { products.new ≤ products.old
        + 2 ^ mid * (mat.old.width * (left * 2 ^ left / 2) + scale_cost scale * (2 ^ left * mat.old.width)) }
{
    let width = mat.width();
    reverse_rows(mat);
    second_half(table, scale, mat.values_mut(), width, mid, left, products);
}
