//! Packed values: several scalars that one operation handles together, and the counter of products.

ghost use Rattle.std.specs.Prelude.{◌≡◌, ◌<◌, ◌≤◌, ◌+◌, ◌*◌, ℕ, List, [], ◌∷◌, length, map, replicate, get_or};
ghost use Rattle.p3_field.specs.Ring.{minus};
ghost use Rattle.p3_field.specs.Lanes.{by_lanes};

use crate::fields::{Field, Valued};
use growth::Count;
use std::marker::Model;

/// `WIDTH` scalars, which one operation handles lane by lane.
pub trait PackedField: Copy {
    /// The type of a lane: a field, where `Packable` or a caller says so.
    type Scalar: Valued;

    /// How many lanes there are.
    const WIDTH: usize;

    ghost WIDTH: { ℕ };

    // The lanes, in order.
    ghost lanes: { Self → List Self.Scalar };

    /// Takes its lanes from a slice of `WIDTH` scalars.
    fn load(from: &[Self::Scalar]) -> Self
        requires { length from.now ≡ WIDTH }
        ensures { map Self.Scalar.value (lanes result) ≡ map Self.Scalar.value from.now };

    /// Writes its lanes to a slice of `WIDTH` scalars.
    fn store(self, to: &mut [Self::Scalar])
        requires { length to.old ≡ WIDTH }
        ensures { map Self.Scalar.value to.new ≡ map Self.Scalar.value (lanes self) };

    /// Takes the first scalars of `WIDTH` pairs, and the second ones, from a slice of `2 * WIDTH` scalars,
    /// in which the pairs lie one after another.
    fn load_pairs(from: &[Self::Scalar]) -> (Self, Self)
        requires { length from.now ≡ 2 * WIDTH }
        ensures first { (i : ℕ) → i < WIDTH → Self.Scalar.value (get_or (lanes result.0) i Self.Scalar.zero)
            ≡ Self.Scalar.value (get_or from.now (2 * i) Self.Scalar.zero) }
        ensures second { (i : ℕ) → i < WIDTH → Self.Scalar.value (get_or (lanes result.1) i Self.Scalar.zero)
            ≡ Self.Scalar.value (get_or from.now (2 * i + 1) Self.Scalar.zero) };

    /// Writes its lanes to the first scalars of `WIDTH` pairs, and those of `second` to the second ones, in
    /// a slice of `2 * WIDTH` scalars.
    fn store_pairs(self, second: Self, to: &mut [Self::Scalar])
        requires { length to.old ≡ 2 * WIDTH }
        ensures first { (i : ℕ) → i < WIDTH → Self.Scalar.value (get_or to.new (2 * i) Self.Scalar.zero)
            ≡ Self.Scalar.value (get_or (lanes self) i Self.Scalar.zero) }
        ensures second { (i : ℕ) → i < WIDTH → Self.Scalar.value (get_or to.new (2 * i + 1) Self.Scalar.zero)
            ≡ Self.Scalar.value (get_or (lanes second) i Self.Scalar.zero) };

    /// Has the same scalar in each lane.
    fn broadcast(scalar: Self::Scalar) -> Self
        ensures { map Self.Scalar.value (lanes result) ≡ replicate WIDTH (Self.Scalar.value scalar) };

    /// Adds lane by lane.
    fn add(self, other: Self) -> Self
        ensures { map Self.Scalar.value (lanes result)
            ≡ by_lanes Self.Scalar.ring.add (map Self.Scalar.value (lanes self))
            (map Self.Scalar.value (lanes other)) };

    /// Subtracts lane by lane.
    fn sub(self, other: Self) -> Self
        ensures { map Self.Scalar.value (lanes result)
            ≡ by_lanes (minus Self.Scalar.ring) (map Self.Scalar.value (lanes self))
            (map Self.Scalar.value (lanes other)) };

    /// Multiplies each lane by `t`, and counts `WIDTH` products.
    fn scaled(self, t: Self::Scalar, products: &mut Products) -> Self
        ensures lanes { map Self.Scalar.value (lanes result)
            ≡ map (λ x. Self.Scalar.ring.mul x (Self.Scalar.value t)) (map Self.Scalar.value (lanes self)) }
        ensures count { products.new ≡ products.old + WIDTH };

    /// Multiplies the difference of each two lanes by `t`, and counts `WIDTH` products.
    fn sub_scaled(self, other: Self, t: Self::Scalar, products: &mut Products) -> Self
        ensures lanes { map Self.Scalar.value (lanes result)
            ≡ map (λ x. Self.Scalar.ring.mul x (Self.Scalar.value t)) (by_lanes (minus Self.Scalar.ring)
            (map Self.Scalar.value (lanes self)) (map Self.Scalar.value (lanes other))) }
        ensures count { products.new ≡ products.old + WIDTH }
    {
        self.sub(other).scaled(t, products)
    }

    /// Multiplies lane by lane, and counts `WIDTH` products.
    fn multiplied(self, other: Self, products: &mut Products) -> Self
        ensures lanes { map Self.Scalar.value (lanes result)
            ≡ by_lanes Self.Scalar.ring.mul (map Self.Scalar.value (lanes self)) (map Self.Scalar.value (lanes other)) }
        ensures count { products.new ≡ products.old + WIDTH };

    ghost width_law: { (x : Self) → length (lanes x) ≡ WIDTH };
}

/// A field whose elements are packed values of one lane, and which has a packing of its own.
pub trait Packable: Field + PackedField<Scalar = Self> {
    /// The packed values of this field.
    type Packing: PackedField<Scalar = Self>;

    /// Whether the lanes of a pack that lies in a slice are better taken one after another than all at once.
    const ONE_BY_ONE: bool = false;

    // An element is the one lane of itself.
    ghost lane_law: { (x : Self) → Self.lanes x ≡ x ∷ [] };

    ghost one_lane_law: { Self.WIDTH ≡ 1 };

    ghost packing_law: { 1 ≤ Self.Packing.WIDTH };
}

/// How many products were made. It takes no bytes, and no running program can read it.
#[derive(Drop)]
pub struct Products {
    so_far: Count,
}

impl Model for Products {
    ghost Value = { ℕ };

    ghost view = { λ p. p.so_far.number };
}

impl Default for Products {
    ghost use Rattle.std.specs.Prelude.{◌≡◌};

    ghost is_default = { λ p. p ≡ 0 };

    fn default() -> Products {
        Products::new()
    }
}

impl Products {
    /// No product yet.
    pub fn new() -> Products
        ensures { result ≡ 0 }
    {
        Products {
            so_far: Count::of(&0),
        }
    }

    /// Adds what another counter counted.
    pub fn add(&mut self, other: Products)
        ensures { self.new ≡ self.old + other }
    {
        let Products { so_far } = other;
        self.so_far = Count::both(&self.so_far, &so_far);
    }

    // Only the counted products of fields and packed values call this.
    pub(crate) fn rise(&mut self, by: usize)
        ensures { self.new ≡ self.old + by }
    {
        self.so_far = Count::both(&self.so_far, &Count::of(&by));
    }
}

/// The product of one element and `t`, which `products` counts.
pub fn scaled<F: Packable>(x: F, t: F, products: &mut Products) -> F
    ensures value { F.value result ≡ F.ring.mul (F.value x) (F.value t) }
    ensures count { products.new ≡ products.old + 1 }
{
    x.scaled(t, products)
}
