//! Scalars side by side, each in a lane of its own.

ghost use Rattle.std.specs.Prelude.{◌≡◌, length};

use crate::fields::Field;
use crate::packed::{PackedField, Products};
use std::alloc::AllocError;

/// `N` scalars of a field, which each operation handles one after another by the field's own
/// operation.
pub struct Lanes<F, const N: usize> {
    lanes: [F; N],
    ghost long: { length lanes ≡ N },
}

impl<F: Copy, const N: usize> Copy for Lanes<F, N> {}

impl<F: Copy, const N: usize> Clone for Lanes<F, N> {
    ghost use Rattle.std.specs.Prelude.{◌≡◌, ⊤};

    ghost is_clone = { λ x y. y ≡ x };

    ghost is_infallible = { λ _. ⊤ };

    fn clone(&self) -> Result<Lanes<F, N>, AllocError> {
        Ok(*self)
    }
}

impl<F: Field, const N: usize> PackedField for Lanes<F, N> {
    type Scalar = F;

    const WIDTH: usize = N;

    ghost WIDTH = { N };

    ghost lanes = { λ x. x.lanes };

    #[inline(always)]
    fn load(from: &[F]) -> Lanes<F, N> {
        let mut lanes = [F::ZERO; N];
        for i in 0..N {
            lanes[i] = from[i];
        }
        Lanes { lanes }
    }

    #[inline(always)]
    fn store(self, to: &mut [F]) {
        for i in 0..N {
            to[i] = self.lanes[i];
        }
    }

    #[inline(always)]
    fn load_pairs(from: &[F]) -> (Lanes<F, N>, Lanes<F, N>) {
        let mut first = [F::ZERO; N];
        let mut second = [F::ZERO; N];
        for i in 0..N {
            first[i] = from[2 * i];
            second[i] = from[2 * i + 1];
        }
        (Lanes { lanes: first }, Lanes { lanes: second })
    }

    #[inline(always)]
    fn store_pairs(self, second: Lanes<F, N>, to: &mut [F]) {
        for i in 0..N {
            to[2 * i] = self.lanes[i];
            to[2 * i + 1] = second.lanes[i];
        }
    }

    #[inline(always)]
    fn broadcast(scalar: F) -> Lanes<F, N> {
        Lanes { lanes: [scalar; N] }
    }

    #[inline(always)]
    fn add(self, other: Lanes<F, N>) -> Lanes<F, N> {
        let mut lanes = self.lanes;
        for i in 0..N {
            lanes[i] = lanes[i] + other.lanes[i];
        }
        Lanes { lanes }
    }

    #[inline(always)]
    fn sub(self, other: Lanes<F, N>) -> Lanes<F, N> {
        let mut lanes = self.lanes;
        for i in 0..N {
            lanes[i] = lanes[i] - other.lanes[i];
        }
        Lanes { lanes }
    }

    #[inline(always)]
    fn scaled(self, t: F, products: &mut Products) -> Lanes<F, N> {
        products.rise(N);
        let mut lanes = self.lanes;
        for i in 0..N {
            lanes[i] = lanes[i] * t;
        }
        Lanes { lanes }
    }

    #[inline(always)]
    fn multiplied(self, other: Lanes<F, N>, products: &mut Products) -> Lanes<F, N> {
        products.rise(N);
        let mut lanes = self.lanes;
        for i in 0..N {
            lanes[i] = lanes[i] * other.lanes[i];
        }
        Lanes { lanes }
    }

    ghost width_law = { λ x. x.long };
}
