//! The rules of layers: which butterfly meets where. Twiddles are borrowed: they go by the place in a
//! block or by the number of the block. A rule by block takes the butterflies of any `Decimation`, which is
//! all that a new one has to be.

ghost use Rattle.std.specs.Prelude.{◌≡◌, ℕ, ◌+◌, ◌*◌, ◌<◌, ◌≤◌, List, length, get_or};
ghost use Rattle.p3_field.specs.Ring.{Ring};
ghost use Rattle.p3_matrix.specs.Butterflies.{dit_near, dit_far};

use crate::butterfly_layers::Rule;
use crate::layouts::LayerTwiddles;
use p3_field::{Products, TwoAdicField};
use p3_matrix::{
    Butterfly, DifButterfly, DitButterfly, ScaledDitButterfly, TwiddleFreeButterfly,
    apply_dit_by_place,
};

/// Butterflies of one formula, one for each twiddle.
///
/// Contracts name what stands in the near and in the far row by the twiddle and the entries that meet, over
/// any ring.
pub trait Decimation<F: TwoAdicField>: Copy {
    ghost near: { (A : Type 0) → Ring A → (F → A) → Self → A → A → A → A };

    ghost far: { (A : Type 0) → Ring A → (F → A) → Self → A → A → A → A };

    // A pair of entries takes at most so many products.
    ghost cost: { ℕ };

    // What is asked of twiddle 0.
    ghost asks: { (A : Type 0) → Ring A → A → Type 0 };

    /// Takes two rows of one length to the near and the far row in their places, by twiddle `number`.
    fn meet(
        self,
        number: usize,
        twiddle: F,
        row_1: &mut [F],
        row_2: &mut [F],
        products: &mut Products,
    )
        requires first { number ≡ 0 → asks F.Element F.ring (F.value twiddle) }
        requires size { length row_1.old ≡ length row_2.old }
        ensures near { (j : ℕ) → j < length row_1.old → F.value (get_or row_1.new j F.zero)
            ≡ near F.Element F.ring F.value self (F.value twiddle) (F.value (get_or row_1.old j F.zero))
            (F.value (get_or row_2.old j F.zero)) }
        ensures far { (j : ℕ) → j < length row_1.old → F.value (get_or row_2.new j F.zero)
            ≡ far F.Element F.ring F.value self (F.value twiddle) (F.value (get_or row_1.old j F.zero))
            (F.value (get_or row_2.old j F.zero)) }
        ensures grows { products.old ≤ products.new }
        ensures cost { products.new ≤ products.old + cost * length row_1.old };
}

/// Decimation in time. If `FREE`, twiddle 0 is one, and its pairs are not multiplied.
#[derive(Clone, Copy)]
pub struct Dit<const FREE: bool>;

impl<F: TwoAdicField, const FREE: bool> Decimation<F> for Dit<FREE> {
    ghost use Rattle.std.specs.Prelude.{◌≡◌, IsTrue};
    ghost use Rattle.p3_matrix.specs.Butterflies.{dit_near, dit_far};

    ghost near = { λ A ring v d. dit_near ring };

    ghost far = { λ A ring v d. dit_far ring };

    ghost cost = { 1 };

    ghost asks = { λ A ring t. IsTrue FREE → t ≡ ring.one };

    #[inline(always)]
    fn meet(
        self,
        number: usize,
        twiddle: F,
        row_1: &mut [F],
        row_2: &mut [F],
        products: &mut Products,
    ) {
        if FREE && number == 0 {
            meet_rows(TwiddleFreeButterfly, row_1, row_2, products);
        } else {
            meet_rows(DitButterfly(twiddle), row_1, row_2, products);
        }
    }
}

/// Decimation in time, and both values times a scale.
#[derive(Clone, Copy)]
pub struct ScaledDit<F> {
    /// What both new entries of a pair are multiplied by.
    pub scale: F,
}

impl<F: TwoAdicField> Decimation<F> for ScaledDit<F> {
    ghost use Rattle.std.specs.Prelude.{⊤};
    ghost use Rattle.p3_matrix.specs.Butterflies.{scaled_dit_near, scaled_dit_far};

    ghost near = { λ A ring v d t. scaled_dit_near ring t (v d.scale) };

    ghost far = { λ A ring v d t. scaled_dit_far ring t (v d.scale) };

    ghost cost = { 2 };

    ghost asks = { λ A ring t. ⊤ };

    #[inline(always)]
    fn meet(
        self,
        _number: usize,
        twiddle: F,
        row_1: &mut [F],
        row_2: &mut [F],
        products: &mut Products,
    ) {
        let butterfly = ScaledDitButterfly::new(twiddle, self.scale);
        meet_rows(butterfly, row_1, row_2, products);
    }
}

/// Decimation in frequency. Twiddle 0 is one, and its pairs are not multiplied.
#[derive(Clone, Copy)]
pub struct Dif;

impl<F: TwoAdicField> Decimation<F> for Dif {
    ghost use Rattle.std.specs.Prelude.{◌≡◌};
    ghost use Rattle.p3_matrix.specs.Butterflies.{dif_near, dif_far};

    ghost near = { λ A ring v d. dif_near ring };

    ghost far = { λ A ring v d. dif_far ring };

    ghost cost = { 1 };

    ghost asks = { λ A ring t. t ≡ ring.one };

    #[inline(always)]
    fn meet(
        self,
        number: usize,
        twiddle: F,
        row_1: &mut [F],
        row_2: &mut [F],
        products: &mut Products,
    ) {
        if number == 0 {
            meet_rows(TwiddleFreeButterfly, row_1, row_2, products);
        } else {
            meet_rows(DifButterfly(twiddle), row_1, row_2, products);
        }
    }
}

/// Pair t of every block has twiddle t of a layer of a table, by decimation in time.
#[derive(Clone, Copy)]
pub struct ByPlaceOfLayer<T, D> {
    /// It has the twiddles of the layer.
    pub table: T,
    /// The number of the layer.
    pub layer: usize,
    /// Which butterflies meet row by row.
    pub decimation: D,
}

impl<F: TwoAdicField, T: LayerTwiddles<F>, const FREE: bool> Rule<F>
    for ByPlaceOfLayer<T, Dit<FREE>> {
    ghost use Rattle.std.specs.Prelude.{◌≡◌, ◌^◌, ◌<◌, false, IsTrue};
    ghost use Rattle.p3_matrix.specs.Butterflies.{dit_near, dit_far};

    ghost near = { λ A ring v r b t. dit_near ring (v (T.at r.table r.layer t)) };

    ghost far = { λ A ring v r b t. dit_far ring (v (T.at r.table r.layer t)) };

    ghost by_block = { false };

    ghost cost = { 1 };

    ghost has = { λ r b t. T.has r.table r.layer × (t < 2 ^ r.layer)
        × (IsTrue FREE → F.value (T.at r.table r.layer 0) ≡ F.ring.one) };

    #[inline(always)]
    fn goes_by_block(self) -> bool {
        false
    }

    #[inline(always)]
    fn meet(
        self,
        _block: usize,
        place: usize,
        row_1: &mut [F],
        row_2: &mut [F],
        products: &mut Products,
    ) {
        let twiddle = self.table.get(self.layer, place);
        self.decimation.meet(place, twiddle, row_1, row_2, products);
    }

    #[inline(always)]
    fn by_place(&self, _block: usize) -> Option<&[F]> {
        self.table.in_order(self.layer)
    }
}

/// Every pair of block b has twiddle b of a layer of a table.
#[derive(Clone, Copy)]
pub struct ByBlockOfLayer<T, D> {
    /// It has the twiddles of the layer.
    pub table: T,
    /// The number of the layer.
    pub layer: usize,
    /// Which butterflies meet.
    pub decimation: D,
}

impl<F: TwoAdicField, T: LayerTwiddles<F>, D: Decimation<F>> Rule<F> for ByBlockOfLayer<T, D> {
    ghost use Rattle.std.specs.Prelude.{◌^◌, ◌<◌, true};

    ghost near = { λ A ring v r b t. D.near A ring v r.decimation (v (T.at r.table r.layer b)) };

    ghost far = { λ A ring v r b t. D.far A ring v r.decimation (v (T.at r.table r.layer b)) };

    ghost by_block = { true };

    ghost cost = { D.cost };

    ghost has = { λ r b t. T.has r.table r.layer × (b < 2 ^ r.layer)
        × D.asks F.Element F.ring (F.value (T.at r.table r.layer 0)) };

    #[inline(always)]
    fn goes_by_block(self) -> bool {
        true
    }

    #[inline(always)]
    fn meet(
        self,
        block: usize,
        _place: usize,
        row_1: &mut [F],
        row_2: &mut [F],
        products: &mut Products,
    ) {
        let twiddle = self.table.get(self.layer, block);
        self.decimation.meet(block, twiddle, row_1, row_2, products);
    }
}

/// Every pair of block b has twiddle b.
#[derive(Clone, Copy)]
pub struct ByBlock<'a, F, D> {
    /// That of block b stands in place b.
    pub twiddles: &'a [F],
    /// Which butterflies meet.
    pub decimation: D,
}

impl<F: TwoAdicField, D: Decimation<F>> Rule<F> for ByBlock<'_, F, D> {
    ghost use Rattle.std.specs.Prelude.{◌<◌, length, get_or, true};

    ghost near = { λ A ring v r b t. D.near A ring v r.decimation (v (get_or r.twiddles.now b F.zero)) };

    ghost far = { λ A ring v r b t. D.far A ring v r.decimation (v (get_or r.twiddles.now b F.zero)) };

    ghost by_block = { true };

    ghost cost = { D.cost };

    ghost has = { λ r b t. (b < length r.twiddles.now)
        × D.asks F.Element F.ring (F.value (get_or r.twiddles.now 0 F.zero)) };

    #[inline(always)]
    fn goes_by_block(self) -> bool {
        true
    }

    #[inline(always)]
    fn meet(
        self,
        block: usize,
        _place: usize,
        row_1: &mut [F],
        row_2: &mut [F],
        products: &mut Products,
    ) {
        self.decimation
            .meet(block, self.twiddles[block], row_1, row_2, products);
    }
}

// A butterfly on two rows, with a contract that speaks of entries.
#[inline(always)]
pub(crate) fn meet_rows<F: TwoAdicField, B: Butterfly<F>>(
    butterfly: B,
    row_1: &mut [F],
    row_2: &mut [F],
    products: &mut Products,
)
    requires { length row_1.old ≡ length row_2.old }
    ensures near { (j : ℕ) → j < length row_1.old → F.value (get_or row_1.new j F.zero)
        ≡ B.near F.Element F.ring F.value butterfly (F.value (get_or row_1.old j F.zero))
        (F.value (get_or row_2.old j F.zero)) }
    ensures far { (j : ℕ) → j < length row_1.old → F.value (get_or row_2.new j F.zero)
        ≡ B.far F.Element F.ring F.value butterfly (F.value (get_or row_1.old j F.zero))
        (F.value (get_or row_2.old j F.zero)) }
    ensures count { products.new ≡ products.old + B.cost * length row_1.old }
{
    butterfly.apply_to_rows(row_1, row_2, products);
}

// Decimation in time on two halves of a column: the entries at place t meet with twiddle t.
pub(crate) fn meet_by_place<F: TwoAdicField>(
    twiddles: &[F],
    low: &mut [F],
    high: &mut [F],
    products: &mut Products,
)
    requires size { length low.old ≡ length high.old }
    requires enough { length low.old ≤ length twiddles.now }
    ensures near { let cell = λ (xs : List F) (n : ℕ). F.value (get_or xs n F.zero) in
        (t : ℕ) → t < length low.old → cell low.new t
        ≡ dit_near F.ring (cell twiddles.now t) (cell low.old t) (cell high.old t) }
    ensures far { let cell = λ (xs : List F) (n : ℕ). F.value (get_or xs n F.zero) in
        (t : ℕ) → t < length low.old → cell high.new t
        ≡ dit_far F.ring (cell twiddles.now t) (cell low.old t) (cell high.old t) }
    ensures count { products.new ≡ products.old + length low.old }
{
    apply_dit_by_place(&twiddles[0..low.len()], low, high, products);
}
