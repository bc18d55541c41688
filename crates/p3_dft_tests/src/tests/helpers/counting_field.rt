// A field whose products and sums are counted in shared cells: that is how a test counts those of an engine without
// asking the engine.

ghost use Rattle.std.specs.Prelude.{◌≤◌};

use p3_dft::{
    CanonicalField, Field, Lanes, Packable, PackedField, Products, TwoAdicField, Valued, scaled,
};
use std::alloc::AllocError;
use std::cell::Cell;
use std::ops::{Add, Mul, Neg, Sub};

// What counts products and sums.
pub(crate) trait Meter: Copy {
    // Counts one product.
    fn count_product(self);

    // Counts one sum or difference.
    fn count_sum(self);
}

// How many elements of a field that a meter counts with go in a pack, and whether its lanes go one after another.
pub(crate) trait Packs<T: Field>: Meter {
    type Packing: PackedField<Scalar = T>;

    const ONE_BY_ONE: bool;

    ghost some: { 1 ≤ Self.Packing.WIDTH };
}

// Counts in two cells, for elements that go in packs of `LANES`.
#[derive(Clone, Copy)]
pub(crate) struct InPacks<'a, const LANES: usize> {
    products: &'a Cell<usize>,
    sums: &'a Cell<usize>,
}

impl<'a, const LANES: usize> InPacks<'a, LANES> {
    pub(crate) fn of(products: &'a Cell<usize>, sums: &'a Cell<usize>) -> InPacks<'a, LANES> {
        InPacks { products, sums }
    }
}

impl<'a, const LANES: usize> Meter for InPacks<'a, LANES> {
    fn count_product(self) {
        self.products.set(self.products.get().saturating_add(1));
    }

    fn count_sum(self) {
        self.sums.set(self.sums.get().saturating_add(1));
    }
}

impl<'a, T: Field> Packs<T> for InPacks<'a, 1> {
    ghost use Rattle.std.proofs.Common.{lit≤};

    type Packing = Lanes<T, 1>;

    const ONE_BY_ONE: bool = false;

    ghost some = { lit≤ tt };
}

// As Goldilocks.
impl<'a, T: Field> Packs<T> for InPacks<'a, 4> {
    ghost use Rattle.std.proofs.Common.{lit≤};

    type Packing = Lanes<T, 4>;

    const ONE_BY_ONE: bool = true;

    ghost some = { lit≤ tt };
}

impl<'a, T: Field> Packs<T> for InPacks<'a, 8> {
    ghost use Rattle.std.proofs.Common.{lit≤};

    type Packing = Lanes<T, 8>;

    const ONE_BY_ONE: bool = false;

    ghost some = { lit≤ tt };
}

// An element that may carry a mark. Every operation passes it on, and each product, sum and difference with a marked
// operand is counted by the mark. Its value is that of the element alone.
#[derive_where(PartialEq, Eq, PartialOrd, Ord; F)]
pub(crate) struct Tally<F, M> {
    element: F,
    #[derive_where(skip(EqHashOrd))]
    mark: Option<M>,
}

impl<F: Copy, M: Copy> Copy for Tally<F, M> {}

impl<F: Copy, M: Copy> Clone for Tally<F, M> {
    fn clone(&self) -> Result<Tally<F, M>, AllocError> {
        Ok(*self)
    }
}

// The mark of what comes of two elements.
fn mark_of<M: Copy>(one: Option<M>, other: Option<M>) -> Option<M> {
    match one {
        Some(mark) => Some(mark),
        None => other,
    }
}

// Counts one product.
fn count_product<M: Meter>(mark: Option<M>) {
    if let Some(meter) = mark {
        meter.count_product();
    }
}

// Counts one sum or difference.
fn count_sum<M: Meter>(mark: Option<M>) {
    if let Some(meter) = mark {
        meter.count_sum();
    }
}

impl<F: Field, M: Meter> Add for Tally<F, M> {
    type Output = Tally<F, M>;

    ghost add_gives = { λ a b r. F.add_gives a.element b.element r.element };

    fn add(self, other: Tally<F, M>) -> Tally<F, M> {
        let mark = mark_of(self.mark, other.mark);
        count_sum(mark);
        Tally {
            element: self.element + other.element,
            mark,
        }
    }
}

impl<F: Field, M: Meter> Sub for Tally<F, M> {
    type Output = Tally<F, M>;

    ghost sub_gives = { λ a b r. F.sub_gives a.element b.element r.element };

    fn sub(self, other: Tally<F, M>) -> Tally<F, M> {
        let mark = mark_of(self.mark, other.mark);
        count_sum(mark);
        Tally {
            element: self.element - other.element,
            mark,
        }
    }
}

impl<F: Field, M: Meter> Mul for Tally<F, M> {
    type Output = Tally<F, M>;

    ghost mul_gives = { λ a b r. F.mul_gives a.element b.element r.element };

    fn mul(self, other: Tally<F, M>) -> Tally<F, M> {
        let mark = mark_of(self.mark, other.mark);
        count_product(mark);
        Tally {
            element: self.element * other.element,
            mark,
        }
    }
}

impl<F: Field, M: Meter> Neg for Tally<F, M> {
    type Output = Tally<F, M>;

    ghost neg_gives = { λ a r. F.neg_gives a.element r.element };

    fn neg(self) -> Tally<F, M> {
        Tally {
            element: -self.element,
            mark: self.mark,
        }
    }
}

impl<F: Field, M: Meter> Valued for Tally<F, M> {
    ghost use Rattle.std.specs.Prelude.{None};

    ghost Element = { F.Element };

    ghost ring = { F.ring };

    ghost number = { F.number };

    ghost value = { λ x. F.value x.element };

    ghost zero = { record { element = F.ZERO; mark = None } };
}

impl<F: Field, M: Meter> Field for Tally<F, M> {
    ghost use Rattle.std.specs.Prelude.{None};
    ghost use Rattle.std.proofs.Common.{refl};

    const ZERO: Tally<F, M> = Tally {
        element: F::ZERO,
        mark: None,
    };

    ghost ZERO = { record { element = F.ZERO; mark = None } };

    const ONE: Tally<F, M> = Tally {
        element: F::ONE,
        mark: None,
    };

    ghost ONE = { record { element = F.ONE; mark = None } };

    const TWO: Tally<F, M> = Tally {
        element: F::TWO,
        mark: None,
    };

    ghost TWO = { record { element = F.TWO; mark = None } };

    const NEG_ONE: Tally<F, M> = Tally {
        element: F::NEG_ONE,
        mark: None,
    };

    ghost NEG_ONE = { record { element = F.NEG_ONE; mark = None } };

    const GENERATOR: Tally<F, M> = Tally {
        element: F::GENERATOR,
        mark: None,
    };

    ghost GENERATOR = { record { element = F.GENERATOR; mark = None } };

    fn halve(self) -> Tally<F, M> {
        Tally {
            element: self.element.halve(),
            mark: self.mark,
        }
    }

    fn from_usize(n: usize) -> Tally<F, M> {
        Tally {
            element: F::from_usize(n),
            mark: None,
        }
    }

    fn try_inverse(&self) -> Option<Tally<F, M>> {
        let element = self.element.try_inverse()?;
        Some(Tally {
            element,
            mark: self.mark,
        })
    }

    ghost number_law = { F.number_law };

    ghost same_zero = { refl };

    ghost zero_law = { F.zero_law };

    ghost one_law = { F.one_law };

    ghost two_law = { F.two_law };

    ghost neg_one_law = { F.neg_one_law };

    ghost generator_law = { F.generator_law };

    ghost can_add_law = { λ _ _. tt };

    ghost add_law = { λ a b r. F.add_law a.element b.element r.element };

    ghost can_sub_law = { λ _ _. tt };

    ghost sub_law = { λ a b r. F.sub_law a.element b.element r.element };

    ghost can_mul_law = { λ _ _. tt };

    ghost mul_law = { λ a b r. F.mul_law a.element b.element r.element };

    ghost can_neg_law = { λ _. tt };

    ghost neg_law = { λ a r. F.neg_law a.element r.element };

    ghost eq_law = { λ a b. F.eq_law a.element b.element };
}

impl<F: Packable, M: Meter> PackedField for Tally<F, M> {
    type Scalar = Tally<F, M>;

    ghost use Rattle.std.specs.Prelude.{[], ◌∷◌};
    ghost use Rattle.std.proofs.Common.{refl};

    const WIDTH: usize = 1;

    ghost WIDTH = { 1 };

    ghost lanes = { λ x. x ∷ [] };

    fn load(from: &[Tally<F, M>]) -> Tally<F, M> {
        from[0]
    }

    fn store(self, to: &mut [Tally<F, M>]) {
        to[0] = self;
    }

    fn load_pairs(from: &[Tally<F, M>]) -> (Tally<F, M>, Tally<F, M>) {
        (from[0], from[1])
    }

    fn store_pairs(self, second: Tally<F, M>, to: &mut [Tally<F, M>]) {
        to[0] = self;
        to[1] = second;
    }

    fn broadcast(scalar: Tally<F, M>) -> Tally<F, M> {
        scalar
    }

    fn add(self, other: Tally<F, M>) -> Tally<F, M> {
        self + other
    }

    fn sub(self, other: Tally<F, M>) -> Tally<F, M> {
        self - other
    }

    fn scaled(self, t: Tally<F, M>, products: &mut Products) -> Tally<F, M> {
        let mark = mark_of(self.mark, t.mark);
        count_product(mark);
        Tally {
            element: scaled(self.element, t.element, products),
            mark,
        }
    }

    fn multiplied(self, other: Tally<F, M>, products: &mut Products) -> Tally<F, M> {
        let mark = mark_of(self.mark, other.mark);
        count_product(mark);
        Tally {
            element: scaled(self.element, other.element, products),
            mark,
        }
    }

    ghost width_law = { λ _. refl };
}

impl<F: Packable, M: Packs<Tally<F, M>>> Packable for Tally<F, M> {
    ghost use Rattle.std.proofs.Common.{refl};

    type Packing = M::Packing;

    const ONE_BY_ONE: bool = M::ONE_BY_ONE;

    ghost lane_law = { λ _. refl };

    ghost one_lane_law = { refl };

    ghost packing_law = { M.some };
}

impl<F: TwoAdicField, M: Packs<Tally<F, M>>> TwoAdicField for Tally<F, M> {
    ghost use Rattle.std.specs.Prelude.{None};

    const TWO_ADICITY: usize = F::TWO_ADICITY;

    ghost TWO_ADICITY = { F.TWO_ADICITY };

    ghost generator = { λ bits. record { element = F.generator bits; mark = None } };

    fn two_adic_generator(bits: usize) -> Tally<F, M> {
        Tally {
            element: F::two_adic_generator(bits),
            mark: None,
        }
    }

    ghost two_adicity_law = { F.two_adicity_law };

    ghost roots_law = { F.roots_law };
}

impl<F: CanonicalField, M: Packs<Tally<F, M>>> CanonicalField for Tally<F, M> {
    const ORDER_U64: u64 = F::ORDER_U64;

    ghost ORDER_U64 = { F.ORDER_U64 };

    fn new(number: u64) -> Option<Tally<F, M>> {
        let element = F::new(number)?;
        Some(Tally {
            element,
            mark: None,
        })
    }

    fn as_canonical_u64(&self) -> u64 {
        self.element.as_canonical_u64()
    }

    ghost order_law = { λ a b. F.order_law a.element b.element };

    ghost number_below_law = { λ x. F.number_below_law x.element };

    ghost count_law = { F.count_law };
}

// A field whose products and sums a mark counts. Tests are over one such field, so that they do not show of each `Tally` anew
// what is known of it.
pub(crate) trait Metered: CanonicalField {
    type Mark: Copy;

    // The element of this number, with a mark.
    fn marked(number: usize, mark: Self::Mark) -> Self;
}

impl<F: CanonicalField, M: Packs<Tally<F, M>>> Metered for Tally<F, M> {
    type Mark = M;

    fn marked(number: usize, mark: M) -> Tally<F, M> {
        Tally {
            element: F::from_usize(number),
            mark: Some(mark),
        }
    }
}
