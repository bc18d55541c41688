//! Vector spaces over a field, whose elements are given by coordinates.

ghost use Rattle.std.specs.Prelude.{◌≡◌, ◌+◌, ◌++◌, ◌<◌, ◌≤◌, ℕ, List, OnOk, OnErr, IsOk, length, get_or, vec_len};
ghost use Rattle.std.specs.Prelude.{vec_capacity};
ghost use Rattle.std.specs.Mem.{type_size};
ghost use Rattle.growth.specs.Refusals.{WasRefused};

use crate::fields::Field;
use growth::Refused;
use std::alloc::AllocError;

/// A vector space over F with a basis. Its elements are the lists of `DIMENSION` elements of F,
/// their coordinates.
pub trait BasedVectorSpace<F>: Drop {
    /// How many coordinates an element has.
    const DIMENSION: usize;

    ghost DIMENSION: { ℕ };

    // The coordinates of an element, in order.
    ghost coordinates: { Self → List F };

    /// Coordinate i, which is below `DIMENSION`. Takes no memory.
    fn coordinate(&self, i: usize) -> F
        requires { i < DIMENSION }
        ensures { (d : F) → result ≡ get_or (coordinates self.now) i d };

    /// The element with these coordinates, of which there are `DIMENSION`. Takes no memory.
    fn from_coordinates(from: &[F]) -> Self
        requires { length from.now ≡ DIMENSION }
        ensures { coordinates result ≡ from.now };

    /// Adds the coordinates at the end of a list. It takes no memory where there is room for them; where
    /// memory is refused, the list stays as it was.
    fn push_coordinates(&self, to: &mut Vec<F>) -> Result<(), Refused>
        ensures items { OnOk result (to.new.items ≡ to.old.items ++ coordinates self.now) }
        ensures room { vec_len to.old + DIMENSION ≤ vec_capacity to.old → IsOk result }
        ensures refused { OnErr result (to.new.items ≡ to.old.items) }
        ensures asked { OnErr result (WasRefused (type_size F.row) (vec_len to.old + DIMENSION)) }
    {
        growth::reserve(to, Self::DIMENSION)?;
        for i in 0..Self::DIMENSION {
            to.push_reserved(self.coordinate(i));
        }
        Ok(())
    }

    ghost dimension_law: { (x : Self) → length (coordinates x) ≡ DIMENSION };

    // An element has no more than its coordinates.
    ghost coordinates_law: { (x y : Self) → coordinates x ≡ coordinates y → x ≡ y };
}

/// A field is a vector space of dimension one over itself.
impl<F: Field> BasedVectorSpace<F> for F {
    ghost use Rattle.std.specs.Prelude.{[], ◌∷◌, refl};
    ghost use Rattle.std.proofs.Common.{rules};

    const DIMENSION: usize = 1;

    ghost DIMENSION = { 1 };

    ghost coordinates = { λ x. x ∷ [] };

    fn coordinate(&self, _i: usize) -> F {
        *self
    }

    fn from_coordinates(from: &[F]) -> F {
        from[0]
    }

    ghost dimension_law = { λ x. refl };

    ghost coordinates_law = { λ x y same. Prim.search rules };
}

/// The vector space of all lists of `D` elements of a field.
#[derive(Debug, PartialEq, Eq)]
pub struct Coordinates<F, const D: usize> {
    entries: [F; D],
    ghost long: { length entries ≡ D },
}

impl<F: Copy, const D: usize> Copy for Coordinates<F, D> {}

impl<F: Copy, const D: usize> Clone for Coordinates<F, D> {
    ghost use Rattle.std.specs.Prelude.{◌≡◌, ⊤};

    ghost is_clone = { λ x y. y ≡ x };

    ghost is_infallible = { λ _. ⊤ };

    fn clone(&self) -> Result<Coordinates<F, D>, AllocError> {
        Ok(*self)
    }
}

impl<F, const D: usize> Coordinates<F, D> {
    /// The element with these coordinates.
    pub fn new(entries: [F; D]) -> Coordinates<F, D>
        ensures { result.entries ≡ entries }
    {
        Coordinates { entries }
    }
}

impl<F: Field, const D: usize> BasedVectorSpace<F> for Coordinates<F, D> {
    ghost use Rattle.p3_field.specs.CoordinateLaws.{made_of_list-eq};

    const DIMENSION: usize = D;

    ghost DIMENSION = { D };

    ghost coordinates = { λ x. x.entries };

    fn coordinate(&self, i: usize) -> F {
        self.entries[i]
    }

    fn from_coordinates(from: &[F]) -> Coordinates<F, D> {
        let mut entries = [F::ZERO; D];
        entries.copy_from_slice(from);
        Coordinates { entries }
    }

    fn push_coordinates(&self, to: &mut Vec<F>) -> Result<(), Refused> {
        growth::extend_from_slice(to, &self.entries)
    }

    ghost dimension_law = { λ x. x.long };

    ghost coordinates_law = { λ x y same.
        made_of_list-eq (λ entries long. record { entries = entries; long = long }) x.entries y.entries x.long y.long
        same };
}
