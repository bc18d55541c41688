//! Layers of the networks, on rows that lie one after the other in a slice.

ghost use Rattle.std.specs.Prelude.{◌≡◌, ◌↔◌, ◌⊎◌, ℕ, ◌+◌, ◌-◌, ◌*◌, ◌/◌, ◌^◌, ◌<◌, ◌≤◌};
ghost use Rattle.std.specs.Prelude.{Bool, IfSome, IsTrue, List, length, get_or};
ghost use Rattle.p3_field.specs.Ring.{Ring};
ghost use Rattle.p3_matrix.specs.Butterflies.{dit_near, dit_far};
ghost use Rattle.p3_networks.specs.Chunks.{chunk_of};
ghost use Rattle.p3_networks.specs.Layers.{IsLayer, MeetHalves};

pub mod rules;

use crate::butterfly_layers::rules::meet_by_place;
use crate::chunks::{ChunkWork, chunk, on_each_chunk};
use p3_field::{PackedField, Products, TwoAdicField};
use p3_matrix::Butterfly;

/// Which butterfly meets a pair of rows: that of place t in block b.
///
/// Contracts name what stands in the near and in the far row by the number of the block, the place in
/// it and the entries that meet, over any ring.
pub trait Rule<F: TwoAdicField>: Copy {
    ghost near: { (A : Type 0) → Ring A → (F → A) → Self → ℕ → ℕ → A → A → A };

    ghost far: { (A : Type 0) → Ring A → (F → A) → Self → ℕ → ℕ → A → A → A };

    // A pair of entries takes at most so many products.
    ghost cost: { ℕ };

    // Whether the rule has a butterfly for the pair.
    ghost has: { Self → ℕ → ℕ → Type 0 };

    // Whether every pair of a block has one butterfly.
    ghost by_block: { Bool };

    /// Whether every pair of a block has one butterfly: the halves of a block then meet as two long rows.
    fn goes_by_block(self) -> bool
        ensures told { result ≡ by_block }
        ensures same { let value = F.value in IsTrue result → (b s t : ℕ)
            → (near F.Element F.ring value self b s ≡ near F.Element F.ring value self b t)
            × (far F.Element F.ring value self b s ≡ far F.Element F.ring value self b t) };

    /// Takes two rows of one length to the near and the far row in their places.
    fn meet(
        self,
        block: usize,
        place: usize,
        row_1: &mut [F],
        row_2: &mut [F],
        products: &mut Products,
    )
        requires in_table { has self block place }
        requires size { length row_1.old ≡ length row_2.old }
        ensures near { (j : ℕ) → j < length row_1.old → F.value (get_or row_1.new j F.zero)
            ≡ near F.Element F.ring F.value self block place (F.value (get_or row_1.old j F.zero))
            (F.value (get_or row_2.old j F.zero)) }
        ensures far { (j : ℕ) → j < length row_1.old → F.value (get_or row_2.new j F.zero)
            ≡ far F.Element F.ring F.value self block place (F.value (get_or row_1.old j F.zero))
            (F.value (get_or row_2.old j F.zero)) }
        ensures grows { products.old ≤ products.new }
        ensures cost { products.new ≤ products.old + cost * length row_1.old };

    /// The twiddles of a block by the places in it, where its pairs meet by decimation in time and these lie in
    /// one slice: a column meets by them lane by lane.
    #[inline(always)]
    fn by_place(&self, block: usize) -> Option<&[F]>
        requires in_table { has self.now block 0 }
        ensures { let value = F.value in IfSome result (λ ts. (1 ≤ cost) × ((t : ℕ) → has self.now block t
            → (t < length ts.now)
            × (near F.Element F.ring value self.now block t ≡ dit_near F.ring (value (get_or ts.now t F.zero)))
            × (far F.Element F.ring value self.now block t ≡ dit_far F.ring (value (get_or ts.now t F.zero))))) }
    {
        None
    }
}

/// Blocks of a layer. The rows come in blocks of two halves, of `half` rows each, and row t of the
/// first half of a block meets row t of the second as the rule says. The blocks that are handed over
/// are those from number `first_block` on.
///
/// Cell i of a half stands in row `i / width` of it. The width, `half` and the number of blocks are at least
/// one, and the rule has a butterfly for each pair.
///
/// Inlined, so that a width that the caller names is known in the loops.
#[inline(always)]
pub fn layer<F: TwoAdicField, R: Rule<F>>(
    rule: R,
    values: &mut [F],
    width: usize,
    half: usize,
    first_block: usize,
    blocks: usize,
    products: &mut Products,
)
    requires width { 1 ≤ width }
    requires nonzero { 1 ≤ half }
    requires blocks { 1 ≤ blocks }
    requires numbers { first_block + blocks < 2 ^ 64 }
    requires size { length values.old ≡ blocks * (2 * (half * width)) }
    requires in_table { (b t : ℕ) → b < blocks → t < half → R.has rule (first_block + b) t }
    ensures cells { IsLayer blocks (half * width)
        (λ b i. R.near F.Element F.ring F.value rule (first_block + b) (i / width))
        (λ b i. R.far F.Element F.ring F.value rule (first_block + b) (i / width))
        (λ n. F.value (get_or values.old n F.zero)) (λ n. F.value (get_or values.new n F.zero)) }
    ensures grows { products.old ≤ products.new }
    ensures cost { products.new ≤ products.old + R.cost * (blocks * (half * width)) }
{
    // In a column whose halves are no full packs, the loops of a block of known size are unrolled.
    if width == 1 && half == 1 {
        meet_blocks(rule, values, 1, 1, first_block, blocks, products);
    } else if width == 1 && half == 2 {
        meet_blocks(rule, values, 1, 2, first_block, blocks, products);
    } else if width == 1 && half == 4 {
        meet_blocks(rule, values, 1, 4, first_block, blocks, products);
    } else {
        meet_blocks(rule, values, width, half, first_block, blocks, products);
    }
}

// A layer, block after block.
#[inline(always)]
fn meet_blocks<F: TwoAdicField, R: Rule<F>>(
    rule: R,
    values: &mut [F],
    width: usize,
    half: usize,
    first_block: usize,
    blocks: usize,
    products: &mut Products,
)
    requires width { 1 ≤ width }
    requires nonzero { 1 ≤ half }
    requires blocks { 1 ≤ blocks }
    requires numbers { first_block + blocks < 2 ^ 64 }
    requires size { length values.old ≡ blocks * (2 * (half * width)) }
    requires in_table { (b t : ℕ) → b < blocks → t < half → R.has rule (first_block + b) t }
    ensures cells { IsLayer blocks (half * width)
        (λ b i. R.near F.Element F.ring F.value rule (first_block + b) (i / width))
        (λ b i. R.far F.Element F.ring F.value rule (first_block + b) (i / width))
        (λ n. F.value (get_or values.old n F.zero)) (λ n. F.value (get_or values.new n F.zero)) }
    ensures grows { products.old ≤ products.new }
    ensures cost { products.new ≤ products.old + R.cost * (blocks * (half * width)) }
{
    let size = 2 * (half * width);
    let meet = Blocks {
        rule,
        width,
        half,
        first_block,
    };
    on_each_chunk(meet, values, size, blocks, products);
}

// The blocks of a layer, from number `first_block` on.
#[derive(Drop)]
struct Blocks<R> {
    rule: R,
    width: usize,
    half: usize,
    first_block: usize,
}

impl<F: TwoAdicField, R: Rule<F>> ChunkWork<F> for Blocks<R> {
    ghost accepts = { λ it n size. (1 ≤ it.width) × ((1 ≤ it.half) × ((it.first_block + n < 2 ^ 64)
        × ((size ≡ 2 * (it.half * it.width))
        × ((t : ℕ) → t < it.half → R.has it.rule (it.first_block + n) t)))) };

    ghost takes = { λ it n before after. MeetHalves (it.half * it.width)
        (λ i. R.near F.Element F.ring F.value it.rule (it.first_block + n) (i / it.width))
        (λ i. R.far F.Element F.ring F.value it.rule (it.first_block + n) (i / it.width))
        (λ i. F.value (get_or before i F.zero)) (λ i. F.value (get_or after i F.zero)) };

    ghost cost = { λ it size. 2 * (R.cost * (it.half * it.width)) };

    #[inline(always)]
    fn on_chunk(&self, number: usize, chunk: &mut [F], products: &mut Products) {
        meet_block(
            self.rule,
            chunk,
            self.width,
            self.half,
            self.first_block + number,
            products,
        );
    }
}

// One block of a layer.
#[inline(always)]
fn meet_block<F: TwoAdicField, R: Rule<F>>(
    rule: R,
    values: &mut [F],
    width: usize,
    half: usize,
    block: usize,
    products: &mut Products,
)
    requires width { 1 ≤ width }
    requires nonzero { 1 ≤ half }
    requires size { length values.old ≡ 2 * (half * width) }
    requires in_table { (t : ℕ) → t < half → R.has rule block t }
    ensures cells { MeetHalves (half * width) (λ i. R.near F.Element F.ring F.value rule block (i / width))
        (λ i. R.far F.Element F.ring F.value rule block (i / width))
        (λ n. F.value (get_or values.old n F.zero)) (λ n. F.value (get_or values.new n F.zero)) }
    ensures grows { products.old ≤ products.new }
    ensures cost { products.new ≤ products.old + R.cost * (half * width) }
{
    let (low, high) = values.split_at_mut(half * width);
    if rule.goes_by_block() {
        rule.meet(block, 0, low, high, products);
        return;
    }
    if is_column_of_packs::<F>(width, half) {
        if let Some(twiddles) = rule.by_place(block) {
            meet_by_place(twiddles, low, high, products);
            return;
        }
    }
    meet_halves(rule, low, high, width, half, block, products);
}

// Whether the halves of a block are one column each that fills a pack.
fn is_column_of_packs<F: TwoAdicField>(width: usize, half: usize) -> bool
    ensures { IsTrue result ↔ ((width ≡ 1) × (F.Packing.WIDTH ≤ half)) }
{
    width == 1 && half >= F::Packing::WIDTH
}

// The rows of the two halves of a block, pair by pair.
#[inline(always)]
fn meet_halves<F: TwoAdicField, R: Rule<F>>(
    rule: R,
    low: &mut [F],
    high: &mut [F],
    width: usize,
    half: usize,
    block: usize,
    products: &mut Products,
)
    requires nonzero { 1 ≤ half }
    requires low { length low.old ≡ half * width }
    requires high { length high.old ≡ half * width }
    requires in_table { (t : ℕ) → t < half → R.has rule block t }
    ensures near { let cell = λ (xs : List F) (n : ℕ). F.value (get_or xs n F.zero) in
        (t j : ℕ) → t < half → j < width → cell low.new (t * width + j)
        ≡ R.near F.Element F.ring F.value rule block t (cell low.old (t * width + j)) (cell high.old (t * width + j)) }
    ensures far { let cell = λ (xs : List F) (n : ℕ). F.value (get_or xs n F.zero) in
        (t j : ℕ) → t < half → j < width → cell high.new (t * width + j)
        ≡ R.far F.Element F.ring F.value rule block t (cell low.old (t * width + j)) (cell high.old (t * width + j)) }
    ensures grows { products.old ≤ products.new }
    ensures cost { products.new ≤ products.old + R.cost * (half * width) }
{
    // The first pair stands apart: what a rule asks of place 0 is then known in the loop.
    meet_ranges(rule, low, high, 0, width, block, 0, products);
    for t in 1..half {
        let start = t * width;
        meet_ranges(rule, low, high, start, start + width, block, t, products);
    }
}

// The entries from `start` up to `end` of both halves, which are of one place. The others stay.
#[inline(always)]
pub(crate) fn meet_ranges<F: TwoAdicField, R: Rule<F>>(
    rule: R,
    low: &mut [F],
    high: &mut [F],
    start: usize,
    end: usize,
    block: usize,
    place: usize,
    products: &mut Products,
)
    requires ordered { start ≤ end }
    requires room { end ≤ length low.old }
    requires size { length low.old ≡ length high.old }
    requires in_table { R.has rule block place }
    ensures near { let cell = λ (xs : List F) (n : ℕ). F.value (get_or xs n F.zero) in
        (n : ℕ) → start ≤ n → n < end → cell low.new n
        ≡ R.near F.Element F.ring F.value rule block place (cell low.old n) (cell high.old n) }
    ensures far { let cell = λ (xs : List F) (n : ℕ). F.value (get_or xs n F.zero) in
        (n : ℕ) → start ≤ n → n < end → cell high.new n
        ≡ R.far F.Element F.ring F.value rule block place (cell low.old n) (cell high.old n) }
    ensures low_stays { (n : ℕ) → (n < start) ⊎ (end ≤ n) → get_or low.new n F.zero ≡ get_or low.old n F.zero }
    ensures high_stays { (n : ℕ) → (n < start) ⊎ (end ≤ n) → get_or high.new n F.zero ≡ get_or high.old n F.zero }
    ensures grows { products.old ≤ products.new }
    ensures cost { products.new ≤ products.old + R.cost * (end - start) }
{
    rule.meet(
        block,
        place,
        &mut low[start..end],
        &mut high[start..end],
        products,
    );
}

/// A layer from rows of another slice, which stay. The source and the values are blocks, at least one, of
/// two halves, of `size` entries each, and entry i of the first half of a block meets entry i of the second
/// by the one butterfly.
///
/// Inlined, so that a size that the caller names is known in the loop.
#[inline(always)]
pub(crate) fn layer_oop<F: TwoAdicField, B: Butterfly<F>>(
    butterfly: B,
    source: &[F],
    values: &mut [F],
    size: usize,
    blocks: usize,
    products: &mut Products,
)
    requires blocks { 1 ≤ blocks }
    requires source { length source.now ≡ blocks * (2 * size) }
    requires size { length values.old ≡ blocks * (2 * size) }
    ensures cells { IsLayer blocks size (λ b i. B.near F.Element F.ring F.value butterfly)
        (λ b i. B.far F.Element F.ring F.value butterfly)
        (λ n. F.value (get_or source.now n F.zero)) (λ n. F.value (get_or values.new n F.zero)) }
    ensures grows { products.old ≤ products.new }
    ensures cost { products.new ≤ products.old + B.cost * (blocks * size) }
{
    let whole = 2 * size;
    let meet = BlocksOop {
        butterfly,
        source,
        size,
    };
    on_each_chunk(meet, values, whole, blocks, products);
}

// Its blocks.
#[derive(Drop)]
struct BlocksOop<'a, F, B> {
    butterfly: B,
    source: &'a [F],
    size: usize,
}

impl<F: TwoAdicField, B: Butterfly<F>> ChunkWork<F> for BlocksOop<'_, F, B> {
    ghost accepts = { λ it n size. (size ≡ 2 * it.size) × (n * size + size ≤ length it.source.now) };

    ghost takes = { λ it n before after. MeetHalves it.size (λ i. B.near F.Element F.ring F.value it.butterfly)
        (λ i. B.far F.Element F.ring F.value it.butterfly)
        (λ i. F.value (get_or (chunk_of (length before) n it.source.now) i F.zero))
        (λ i. F.value (get_or after i F.zero)) };

    ghost cost = { λ it size. 2 * (B.cost * it.size) };

    #[inline(always)]
    fn on_chunk(&self, number: usize, values: &mut [F], products: &mut Products) {
        let source = chunk(self.source, values.len(), number);
        meet_block_oop(self.butterfly, source, values, self.size, products);
    }
}

// One block of it.
#[inline(always)]
fn meet_block_oop<F: TwoAdicField, B: Butterfly<F>>(
    butterfly: B,
    source: &[F],
    values: &mut [F],
    size: usize,
    products: &mut Products,
)
    requires source { length source.now ≡ 2 * size }
    requires size { length values.old ≡ 2 * size }
    ensures cells { MeetHalves size (λ i. B.near F.Element F.ring F.value butterfly)
        (λ i. B.far F.Element F.ring F.value butterfly)
        (λ n. F.value (get_or source.now n F.zero)) (λ n. F.value (get_or values.new n F.zero)) }
    ensures count { products.new ≡ products.old + B.cost * size }
{
    let (from_1, from_2) = source.split_at(size);
    let (low, high) = values.split_at_mut(size);
    butterfly.apply_to_rows_oop(from_1, low, from_2, high, products);
}
