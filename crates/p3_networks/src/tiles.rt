//! The networks of the engine: layers on chunks of rows that lie one after another, whose cells are taken
//! in the order in which they lie.
//!
//! Layer e of a height is that whose blocks have two halves of `2^e` rows. Chunks of `2^top` rows count from
//! the first row on. One twiddle is for a whole block, so that a layer is one of cells: contracts say
//! which cells a chunk holds before and after, for any layers that follow one another.

ghost use Rattle.std.specs.Prelude.{◌≡◌, ℕ, ◌+◌, ◌-◌, ◌*◌, ◌/◌, ◌^◌, ◌<◌, ◌≤◌, List, length, get_or};
ghost use Rattle.p3_field.specs.Ring.{AreRoots, power};
ghost use Rattle.p3_matrix.specs.BitOrder.{rev};
ghost use Rattle.p3_matrix.specs.Butterflies.{dif_far, dif_near};
ghost use Rattle.p3_networks.specs.Counts.{RisesAtMost};
ghost use Rattle.p3_networks.specs.Groups.{AreLayersInOrder, DoesLayers, IsChunk, cells_of};
ghost use Rattle.p3_networks.specs.Layers.{AreLayers, AreRows, HoldsCells, AreValuesOfRows};
ghost use Rattle.p3_matrix.specs.Polynomials.{poly};
ghost use Rattle.p3_networks.specs.Twiddles.{AreTwiddlesFromStart, backward_root, block_powers, forward_root};

use crate::butterfly_layers::layer;
use crate::butterfly_layers::rules::{ByBlock, Dif, Dit, meet_rows};
use crate::chunks::{ChunkWork, chunk, on_each_chunk};
use crate::groups::{Order, layers_in_groups};
use crate::pairs::{NetworkDecimation, on_pairs};
use p3_field::{PackedField, Products, TwoAdicField};
use p3_matrix::{DifButterfly, scale_slice_in_place, scale_slice_oop};

// In one column so many layers of the smallest blocks are done together, on a chunk of so many rows, which has
// so many of the smallest blocks.
const SHORT_LAYERS: usize = 6;

const SHORT_ROWS: usize = 1 << SHORT_LAYERS;

const SHORT_BLOCKS: usize = SHORT_ROWS / 2;

// Layer `log_half`, on chunk `number`.
#[inline(always)]
fn layer_of_chunk<F: TwoAdicField, D: NetworkDecimation<F>>(
    decimation: D,
    twiddles: &[F],
    values: &mut [F],
    width: usize,
    log_half: usize,
    top: usize,
    number: usize,
    products: &mut Products,
)
    requires below { log_half < top }
    requires chunk { IsChunk width top number (length twiddles.now) (length values.old) }
    requires first { D.asks F.Element F.ring (F.value (get_or twiddles.now 0 F.zero)) }
    ensures cells { DoesLayers F.Valued.own D.order (D.near F.Element F.ring F.value decimation)
        (D.far F.Element F.ring F.value decimation) twiddles.now width top number log_half (log_half + 1)
        values.old values.new }
    ensures cost { RisesAtMost (D.cost * length values.old) (2 * products.old) (2 * products.new) }
{
    // The pairs of a block have one twiddle, so that its half is one column, whatever the width. As a column,
    // because blocks of one column and a few entries have their size named in `layer`.
    let half = (1usize << log_half) * width;
    let blocks = 1usize << (top - 1 - log_half);
    let rule = ByBlock {
        twiddles,
        decimation,
    };
    layer(rule, values, 1, half, number * blocks, blocks, products);
}

// The layer of the smallest blocks, on short chunk `number` of one column.
#[inline(always)]
fn layer_of_pairs<F: TwoAdicField, D: NetworkDecimation<F>>(
    decimation: D,
    twiddles: &[F],
    values: &mut [F],
    number: usize,
    products: &mut Products,
)
    requires chunk { IsChunk 1 SHORT_LAYERS number (length twiddles.now) (length values.old) }
    requires first { D.asks F.Element F.ring (F.value (get_or twiddles.now 0 F.zero)) }
    ensures cells { DoesLayers F.Valued.own D.order (D.near F.Element F.ring F.value decimation)
        (D.far F.Element F.ring F.value decimation) twiddles.now 1 SHORT_LAYERS number 0 1
        values.old values.new }
    ensures cost { RisesAtMost (D.cost * length values.old) (2 * products.old) (2 * products.new) }
{
    let first = number * SHORT_BLOCKS;
    let twiddles = &twiddles[first..first + SHORT_BLOCKS];
    on_pairs(decimation, twiddles, values, products);
}

// The layers from `from` on in their order, on chunk `number`.
fn layers_of_chunk<F: TwoAdicField, D: NetworkDecimation<F>>(
    decimation: D,
    twiddles: &[F],
    values: &mut [F],
    width: usize,
    from: usize,
    top: usize,
    number: usize,
    products: &mut Products,
)
    requires below { from ≤ top }
    requires chunk { IsChunk width top number (length twiddles.now) (length values.old) }
    requires first { D.asks F.Element F.ring (F.value (get_or twiddles.now 0 F.zero)) }
    ensures cells { DoesLayers F.Valued.own D.order (D.near F.Element F.ring F.value decimation)
        (D.far F.Element F.ring F.value decimation) twiddles.now width top number from top
        values.old values.new }
    ensures cost { RisesAtMost (D.cost * ((top - from) * length values.old)) (2 * products.old) (2 * products.new) }
{
    let order = decimation.order();
    for done in 0..top - from {
        let log_half = order.layer(from, top, done);
        layer_of_chunk(
            decimation, twiddles, values, width, log_half, top, number, products,
        );
    }
}

// The layers below `log_rows` in their order, tile after tile: a tile has `2^log_rows`
// rows, which these layers do not leave.
fn layers_of_tiles<F: TwoAdicField, D: NetworkDecimation<F>>(
    decimation: D,
    twiddles: &[F],
    values: &mut [F],
    width: usize,
    log_rows: usize,
    log_h: usize,
    products: &mut Products,
)
    requires rows { AreRows log_h width (length values.old) }
    requires below { log_rows ≤ log_h }
    requires enough { 2 ^ log_h ≤ 2 * length twiddles.now }
    requires first { D.asks F.Element F.ring (F.value (get_or twiddles.now 0 F.zero)) }
    ensures cells { (cells : ℕ → ℕ → F.Element)
        → AreLayersInOrder D.order log_h width
        (λ b. D.near F.Element F.ring F.value decimation (F.value (get_or twiddles.now b F.zero)))
        (λ b. D.far F.Element F.ring F.value decimation (F.value (get_or twiddles.now b F.zero)))
        cells
        → HoldsCells F.value F.zero 0 (cells (cells_of D.order 0 log_rows 0)) values.old
        → HoldsCells F.value F.zero 0 (cells (cells_of D.order 0 log_rows (log_rows - 0))) values.new }
    ensures cost { RisesAtMost (D.cost * (log_rows * length values.old)) (2 * products.old) (2 * products.new) }
{
    let tiles = 1usize << (log_h - log_rows);
    let size = values.len() / tiles;
    let layers = TileLayers {
        decimation,
        twiddles,
        width,
        log_rows,
    };
    on_each_chunk(layers, values, size, tiles, products);
}

// The layers of tiles of `2^log_rows` rows.
#[derive(Drop)]
struct TileLayers<'a, F, D> {
    decimation: D,
    twiddles: &'a [F],
    width: usize,
    log_rows: usize,
}

impl<F: TwoAdicField, D: NetworkDecimation<F>> ChunkWork<F> for TileLayers<'_, F, D> {
    ghost accepts = { λ it n size. IsChunk it.width it.log_rows n (length it.twiddles.now) size
        × D.asks F.Element F.ring (F.value (get_or it.twiddles.now 0 F.zero)) };

    ghost takes = { λ it n. DoesLayers F.Valued.own D.order (D.near F.Element F.ring F.value it.decimation)
        (D.far F.Element F.ring F.value it.decimation) it.twiddles.now it.width it.log_rows n 0 it.log_rows };

    ghost cost = { λ it size. D.cost * (it.log_rows * size) };

    #[inline(always)]
    fn on_chunk(&self, number: usize, chunk: &mut [F], products: &mut Products) {
        layers_of_tile(
            self.decimation,
            self.twiddles,
            chunk,
            self.width,
            self.log_rows,
            number,
            products,
        );
    }
}

// The layers of one tile, chunk `number` of `2^top` rows. In one column the layers of the smallest blocks
// are done together, on one short chunk after another. The width is written as 1 in that call, so that it
// is known in the loops.
fn layers_of_tile<F: TwoAdicField, D: NetworkDecimation<F>>(
    decimation: D,
    twiddles: &[F],
    values: &mut [F],
    width: usize,
    top: usize,
    number: usize,
    products: &mut Products,
)
    requires chunk { IsChunk width top number (length twiddles.now) (length values.old) }
    requires first { D.asks F.Element F.ring (F.value (get_or twiddles.now 0 F.zero)) }
    ensures cells { DoesLayers F.Valued.own D.order (D.near F.Element F.ring F.value decimation)
        (D.far F.Element F.ring F.value decimation) twiddles.now width top number 0 top
        values.old values.new }
    ensures cost { RisesAtMost (D.cost * (top * length values.old)) (2 * products.old) (2 * products.new) }
{
    if width == 1 && top >= SHORT_LAYERS {
        let from = SHORT_LAYERS;
        match decimation.order() {
            Order::LargestFirst => {
                layers_of_chunk(decimation, twiddles, values, 1, from, top, number, products);
                layers_of_short_chunks(decimation, twiddles, values, top, number, products);
            }
            Order::SmallestFirst => {
                layers_of_short_chunks(decimation, twiddles, values, top, number, products);
                layers_of_chunk(decimation, twiddles, values, 1, from, top, number, products);
            }
        }
    } else {
        layers_of_chunk(
            decimation, twiddles, values, width, 0, top, number, products,
        );
    }
}

// The layers below `SHORT_LAYERS`, on chunk `number` of `2^top` rows of one column: one short chunk after
// another, which these layers do not leave.
fn layers_of_short_chunks<F: TwoAdicField, D: NetworkDecimation<F>>(
    decimation: D,
    twiddles: &[F],
    values: &mut [F],
    top: usize,
    number: usize,
    products: &mut Products,
)
    requires height { SHORT_LAYERS ≤ top }
    requires chunk { IsChunk 1 top number (length twiddles.now) (length values.old) }
    requires first { D.asks F.Element F.ring (F.value (get_or twiddles.now 0 F.zero)) }
    ensures cells { DoesLayers F.Valued.own D.order (D.near F.Element F.ring F.value decimation)
        (D.far F.Element F.ring F.value decimation) twiddles.now 1 top number 0 SHORT_LAYERS
        values.old values.new }
    ensures cost { RisesAtMost (D.cost * (SHORT_LAYERS * length values.old)) (2 * products.old) (2 * products.new) }
{
    let chunks = 1usize << (top - SHORT_LAYERS);
    let size = values.len() / chunks;
    let layers = ShortLayers {
        decimation,
        twiddles,
        first: number * chunks,
    };
    on_each_chunk(layers, values, size, chunks, products);
}

// The layers of short chunks, which count from `first` on.
#[derive(Drop)]
struct ShortLayers<'a, F, D> {
    decimation: D,
    twiddles: &'a [F],
    first: usize,
}

impl<F: TwoAdicField, D: NetworkDecimation<F>> ChunkWork<F> for ShortLayers<'_, F, D> {
    ghost use Rattle.p3_networks.specs.declared.tiles.TheConstants.{SHORT_LAYERS};

    ghost accepts = { λ it n size. IsChunk 1 SHORT_LAYERS (it.first + n) (length it.twiddles.now) size
        × D.asks F.Element F.ring (F.value (get_or it.twiddles.now 0 F.zero)) };

    ghost takes = { λ it n. DoesLayers F.Valued.own D.order (D.near F.Element F.ring F.value it.decimation)
        (D.far F.Element F.ring F.value it.decimation) it.twiddles.now 1 SHORT_LAYERS (it.first + n)
        0 SHORT_LAYERS };

    ghost cost = { λ it size. D.cost * (SHORT_LAYERS * size) };

    #[inline(always)]
    fn on_chunk(&self, number: usize, chunk: &mut [F], products: &mut Products) {
        let number = self.first + number;
        layers_of_short_chunk(self.decimation, self.twiddles, chunk, number, products);
    }
}

// The layers below `SHORT_LAYERS` on short chunk `number`. They are named, so that the loops of each layer are of
// known size.
fn layers_of_short_chunk<F: TwoAdicField, D: NetworkDecimation<F>>(
    decimation: D,
    twiddles: &[F],
    values: &mut [F],
    number: usize,
    products: &mut Products,
)
    requires chunk { IsChunk 1 SHORT_LAYERS number (length twiddles.now) (length values.old) }
    requires first { D.asks F.Element F.ring (F.value (get_or twiddles.now 0 F.zero)) }
    ensures cells { DoesLayers F.Valued.own D.order (D.near F.Element F.ring F.value decimation)
        (D.far F.Element F.ring F.value decimation) twiddles.now 1 SHORT_LAYERS number 0 SHORT_LAYERS
        values.old values.new }
    ensures cost { RisesAtMost (D.cost * (SHORT_LAYERS * length values.old)) (2 * products.old) (2 * products.new) }
{
    let top = SHORT_LAYERS;
    match decimation.order() {
        Order::LargestFirst => {
            layer_of_chunk(decimation, twiddles, values, 1, 5, top, number, products);
            layer_of_chunk(decimation, twiddles, values, 1, 4, top, number, products);
            layer_of_chunk(decimation, twiddles, values, 1, 3, top, number, products);
            layer_of_chunk(decimation, twiddles, values, 1, 2, top, number, products);
            layer_of_chunk(decimation, twiddles, values, 1, 1, top, number, products);
            layer_of_pairs(decimation, twiddles, values, number, products);
        }
        Order::SmallestFirst => {
            layer_of_pairs(decimation, twiddles, values, number, products);
            layer_of_chunk(decimation, twiddles, values, 1, 1, top, number, products);
            layer_of_chunk(decimation, twiddles, values, 1, 2, top, number, products);
            layer_of_chunk(decimation, twiddles, values, 1, 3, top, number, products);
            layer_of_chunk(decimation, twiddles, values, 1, 4, top, number, products);
            layer_of_chunk(decimation, twiddles, values, 1, 5, top, number, products);
        }
    }
}

// By decimation in frequency, the layers below `log_rows`, tile after tile, and all values times `scale`.
fn scaled_dif_tiles<F: TwoAdicField>(
    twiddles: &[F],
    scale: F,
    values: &mut [F],
    width: usize,
    log_rows: usize,
    log_h: usize,
    products: &mut Products,
)
    requires rows { AreRows log_h width (length values.old) }
    requires below { log_rows ≤ log_h }
    requires first { F.value (get_or twiddles.now 0 F.zero) ≡ F.ring.one }
    requires enough { 2 ^ log_h ≤ 2 * length twiddles.now }
    ensures cells { (cells : ℕ → ℕ → F.Element)
        → AreLayers log_h width (λ b. dif_near F.ring (F.value (get_or twiddles.now b F.zero)))
        (λ b. dif_far F.ring (F.value (get_or twiddles.now b F.zero)))
        cells (λ e. cells (e + 1))
        → HoldsCells F.value F.zero 0 (cells 0) values.old
        → HoldsCells F.value F.zero 0 (λ i. F.ring.mul (cells log_rows i) (F.value scale)) values.new }
    ensures cost { RisesAtMost ((log_rows + 2) * length values.old) (2 * products.old) (2 * products.new) }
{
    let tiles = 1usize << (log_h - log_rows);
    let size = values.len() / tiles;
    let layers = ScaledTileLayers {
        twiddles,
        scale,
        width,
        log_rows,
    };
    on_each_chunk(layers, values, size, tiles, products);
}

// The layers of tiles of `2^log_rows` rows, and all values times `scale`.
#[derive(Drop)]
struct ScaledTileLayers<'a, F> {
    twiddles: &'a [F],
    scale: F,
    width: usize,
    log_rows: usize,
}

impl<F: TwoAdicField> ChunkWork<F> for ScaledTileLayers<'_, F> {
    ghost accepts = { λ it n size. IsChunk it.width it.log_rows n (length it.twiddles.now) size
        × (F.value (get_or it.twiddles.now 0 F.zero) ≡ F.ring.one) };

    ghost takes = { λ it n before after. let twiddle = λ (b : ℕ). F.value (get_or it.twiddles.now b F.zero) in
        (k : ℕ) (cells : ℕ → ℕ → F.Element)
        → AreLayers k it.width (λ b. dif_near F.ring (twiddle b)) (λ b. dif_far F.ring (twiddle b))
        cells (λ e. cells (e + 1))
        → (n + 1) * 2 ^ it.log_rows ≤ 2 ^ k
        → HoldsCells F.value F.zero (n * length before) (cells 0) before
        → HoldsCells F.value F.zero (n * length before) (λ i. F.ring.mul (cells it.log_rows i) (F.value it.scale))
        after };

    ghost cost = { λ it size. (it.log_rows + 2) * size };

    // Each half by itself, then the layer that joins them. That of the first tile has the twiddle one, and would
    // save nothing.
    #[inline(always)]
    fn on_chunk(&self, number: usize, chunk: &mut [F], products: &mut Products) {
        if self.log_rows == 0 || number == 0 {
            layers_then_scale(
                self.twiddles,
                self.scale,
                chunk,
                self.width,
                self.log_rows,
                number,
                products,
            );
            return;
        }
        let half = chunk.len() / 2;
        let (low, high) = chunk.split_at_mut(half);
        let below = self.log_rows - 1;
        layers_of_tile(
            Dif,
            self.twiddles,
            low,
            self.width,
            below,
            2 * number,
            products,
        );
        layers_of_tile(
            Dif,
            self.twiddles,
            high,
            self.width,
            below,
            2 * number + 1,
            products,
        );
        join_scaled(self.twiddles[number], self.scale, low, high, products);
    }
}

// The layers of one tile, chunk `number` of `2^top` rows, by decimation in frequency, and all values times `scale`.
#[inline(always)]
fn layers_then_scale<F: TwoAdicField>(
    twiddles: &[F],
    scale: F,
    values: &mut [F],
    width: usize,
    top: usize,
    number: usize,
    products: &mut Products,
)
    requires chunk { IsChunk width top number (length twiddles.now) (length values.old) }
    requires first { F.value (get_or twiddles.now 0 F.zero) ≡ F.ring.one }
    ensures cells { let twiddle = λ (b : ℕ). F.value (get_or twiddles.now b F.zero) in
        (k : ℕ) (cells : ℕ → ℕ → F.Element)
        → AreLayers k width (λ b. dif_near F.ring (twiddle b)) (λ b. dif_far F.ring (twiddle b))
        cells (λ e. cells (e + 1))
        → (number + 1) * 2 ^ top ≤ 2 ^ k
        → HoldsCells F.value F.zero (number * length values.old) (cells 0) values.old
        → HoldsCells F.value F.zero (number * length values.old) (λ i. F.ring.mul (cells top i) (F.value scale))
        values.new }
    ensures cost { RisesAtMost ((top + 2) * length values.old) (2 * products.old) (2 * products.new) }
{
    layers_of_tile(Dif, twiddles, values, width, top, number, products);
    scale_slice_in_place(values, scale, products);
}

// A layer of one block, by decimation in frequency, and all values times `scale`: differences by the twiddle times the
// scale, at once, and sums afterwards.
#[inline(always)]
fn join_scaled<F: TwoAdicField>(
    twiddle: F,
    scale: F,
    low: &mut [F],
    high: &mut [F],
    products: &mut Products,
)
    requires { length low.old ≡ length high.old }
    ensures near { let cell = λ (xs : List F) (n : ℕ). F.value (get_or xs n F.zero) in
        (j : ℕ) → j < length low.old → cell low.new j
        ≡ F.ring.mul (dif_near F.ring (F.value twiddle) (cell low.old j) (cell high.old j)) (F.value scale) }
    ensures far { let cell = λ (xs : List F) (n : ℕ). F.value (get_or xs n F.zero) in
        (j : ℕ) → j < length low.old → cell high.new j
        ≡ F.ring.mul (dif_far F.ring (F.value twiddle) (cell low.old j) (cell high.old j)) (F.value scale) }
    ensures count { products.new ≡ products.old + 2 * length low.old }
{
    meet_rows(DifButterfly(twiddle * scale), low, high, products);
    scale_slice_in_place(low, scale, products);
}

/// From rows in natural order to their values at the powers of the root that `twiddles` are made of, in
/// bit reversed order: the layers whose blocks are larger than a tile on the whole, in groups, then the
/// others tile by tile. A tile has `2^log_rows` rows, at most all. A piece has `piece` entries of each part
/// of a block, at least one. The first twiddle is one.
pub fn dit_network_to_reversed<F: TwoAdicField>(
    twiddles: &[F],
    values: &mut [F],
    width: usize,
    log_rows: usize,
    log_h: usize,
    piece: usize,
    products: &mut Products,
)
    requires width { 1 ≤ width }
    requires below { log_rows ≤ log_h }
    requires fits_u64 { log_h < 64 }
    requires piece { 1 ≤ piece }
    requires size { length values.old ≡ 2 ^ log_h * width }
    requires first { F.value (get_or twiddles.now 0 F.zero) ≡ F.ring.one }
    requires enough { 2 ^ log_h ≤ 2 * length twiddles.now }
    ensures values { (bits : ℕ) (root : ℕ → F.Element) → AreRoots F.ring bits root → log_h ≤ bits
        → AreTwiddlesFromStart F.Valued.own log_h (block_powers F.Valued.own root) twiddles.now
        → AreValuesOfRows F.Valued.own width (2 ^ log_h) (λ q. q)
        (λ r. power F.ring (root log_h) (rev log_h r)) values.old values.new }
    ensures grows { products.old ≤ products.new }
    ensures cost { products.new ≤ products.old + width * (log_h * 2 ^ log_h / 2) }
{
    layers_in_groups(
        ByBlock {
            twiddles,
            decimation: Dit::<true>,
        },
        Order::LargestFirst,
        values,
        width,
        log_rows,
        log_h,
        piece,
        products,
    );
    layers_of_tiles(
        Dit::<true>,
        twiddles,
        values,
        width,
        log_rows,
        log_h,
        products,
    );
}

/// From rows in bit reversed order to their values at the powers of the root that `twiddles` are made of,
/// in natural order: the layers whose blocks fit into a tile tile by tile, then the others on the whole,
/// in groups. Tiles, pieces and the first twiddle are as for `dit_network_to_reversed`.
pub fn dif_network<F: TwoAdicField>(
    twiddles: &[F],
    values: &mut [F],
    width: usize,
    log_rows: usize,
    log_h: usize,
    piece: usize,
    products: &mut Products,
)
    requires width { 1 ≤ width }
    requires below { log_rows ≤ log_h }
    requires fits_u64 { log_h < 64 }
    requires piece { 1 ≤ piece }
    requires size { length values.old ≡ 2 ^ log_h * width }
    requires first { F.value (get_or twiddles.now 0 F.zero) ≡ F.ring.one }
    requires enough { 2 ^ log_h ≤ 2 * length twiddles.now }
    ensures values { (bits : ℕ) (root : ℕ → F.Element) → AreRoots F.ring bits root → log_h ≤ bits
        → AreTwiddlesFromStart F.Valued.own log_h (block_powers F.Valued.own root) twiddles.now
        → AreValuesOfRows F.Valued.own width (2 ^ log_h) (rev log_h) (power F.ring (root log_h)) values.old values.new }
    ensures grows { products.old ≤ products.new }
    ensures cost { products.new ≤ products.old + width * (log_h * 2 ^ log_h / 2) }
{
    layers_of_tiles(Dif, twiddles, values, width, log_rows, log_h, products);
    layers_in_groups(
        ByBlock {
            twiddles,
            decimation: Dif,
        },
        Order::SmallestFirst,
        values,
        width,
        log_rows,
        log_h,
        piece,
        products,
    );
}

/// From rows in bit reversed order, each entry times `scale`, to their values at the powers of the
/// inverse of the generator, in natural order: the layers whose blocks fit into a tile tile by tile,
/// then the others on the whole, in groups. There are two rows or more; `twiddles` are the powers of that
/// inverse, and tiles and pieces are as for `dit_network_to_reversed`.
pub fn scaled_dif_network<F: TwoAdicField>(
    twiddles: &[F],
    scale: F,
    values: &mut [F],
    width: usize,
    log_rows: usize,
    log_h: usize,
    piece: usize,
    products: &mut Products,
)
    requires width { 1 ≤ width }
    requires below { log_rows ≤ log_h }
    requires nonzero { 1 ≤ log_h }
    requires fits_u64 { log_h < 64 }
    requires piece { 1 ≤ piece }
    requires within { log_h ≤ F.TWO_ADICITY }
    requires size { length values.old ≡ 2 ^ log_h * width }
    requires twiddles { AreTwiddlesFromStart F.Valued.own log_h
        (block_powers F.Valued.own (backward_root F.Valued.own F.generator)) twiddles.now }
    ensures values { (r j : ℕ) → r < 2 ^ log_h → j < width → F.value (get_or values.new (r * width + j) F.zero)
        ≡ poly F.ring (2 ^ log_h) (λ q. F.ring.mul (F.value (get_or values.old (rev log_h q * width + j) F.zero))
        (F.value scale))
        (power F.ring (backward_root F.Valued.own F.generator log_h) r) }
    ensures grows { products.old ≤ products.new }
    ensures cost { products.new ≤ products.old + width * (log_h * 2 ^ log_h / 2) + 2 ^ log_h * width }
{
    scaled_dif_tiles(twiddles, scale, values, width, log_rows, log_h, products);
    layers_in_groups(
        ByBlock {
            twiddles,
            decimation: Dif,
        },
        Order::SmallestFirst,
        values,
        width,
        log_rows,
        log_h,
        piece,
        products,
    );
}

// Row t of `values` becomes `row` times `first` and the t-th power of `step`.
fn multiples_of_row<F: TwoAdicField>(
    first: F,
    step: F,
    row: &[F],
    values: &mut [F],
    count: usize,
    products: &mut Products,
)
    requires { length values.old ≡ count * length row.now }
    ensures values { (t j : ℕ) → t < count → j < length row.now
        → F.value (get_or values.new (t * length row.now + j) F.zero)
        ≡ F.ring.mul (F.value (get_or row.now j F.zero)) (F.ring.mul (F.value first) (power F.ring (F.value step) t)) }
    ensures grows { products.old ≤ products.new }
    ensures cost { products.new ≤ products.old + count * length row.now }
{
    // Shorter than two packs, and so many that doubling saves calls.
    if row.len() / 2 < F::Packing::WIDTH && count > 2 {
        multiples_by_doubling(first, step, row, values, count, products);
    } else {
        multiples_one_by_one(first, step, row, values, count, products);
    }
}

// Writes the multiples of a row one after another: each costs a call and waits for its factor.
fn multiples_one_by_one<F: TwoAdicField>(
    first: F,
    step: F,
    row: &[F],
    values: &mut [F],
    count: usize,
    products: &mut Products,
)
    requires { length values.old ≡ count * length row.now }
    ensures values { (t j : ℕ) → t < count → j < length row.now
        → F.value (get_or values.new (t * length row.now + j) F.zero)
        ≡ F.ring.mul (F.value (get_or row.now j F.zero)) (F.ring.mul (F.value first) (power F.ring (F.value step) t)) }
    ensures count { products.new ≡ products.old + count * length row.now }
{
    let width = row.len();
    let mut factor = first;
    for t in 0..count {
        let start = t * width;
        let multiple = &mut values[start..start + width];
        scale_slice_oop(row, multiple, factor, products);
        factor = factor * step;
    }
}

// Writes the multiples of a short row by doubling: all rows that are done, times one factor, are as many more.
fn multiples_by_doubling<F: TwoAdicField>(
    first: F,
    step: F,
    row: &[F],
    values: &mut [F],
    count: usize,
    products: &mut Products,
)
    requires { length values.old ≡ count * length row.now }
    ensures values { (t j : ℕ) → t < count → j < length row.now
        → F.value (get_or values.new (t * length row.now + j) F.zero)
        ≡ F.ring.mul (F.value (get_or row.now j F.zero)) (F.ring.mul (F.value first) (power F.ring (F.value step) t)) }
    ensures grows { products.old ≤ products.new }
    ensures cost { products.new ≤ products.old + count * length row.now }
{
    if count == 0 {
        return;
    }
    let width = row.len();
    let head = &mut values[0..width];
    head.copy_from_slice(row);
    scale_slice_in_place(head, first, products);
    let mut done = 1;
    let mut factor = step;
    while done < count {
        let more = done.min(count - done);
        scale_behind(values, done * width, more * width, factor, products);
        factor = factor * factor;
        done += more;
    }
}

// Entries behind the first `size`, so many, become the first ones times the factor. They are copies where the factor is
// one, as every factor of the first row is, whose root is one.
fn scale_behind<F: TwoAdicField>(
    values: &mut [F],
    size: usize,
    count: usize,
    factor: F,
    products: &mut Products,
)
    requires in_table { count ≤ size }
    requires room { size + count ≤ length values.old }
    ensures kept { (n : ℕ) → n < size → get_or values.new n F.zero ≡ get_or values.old n F.zero }
    ensures scaled { (n : ℕ) → n < count → F.value (get_or values.new (size + n) F.zero)
        ≡ F.ring.mul (F.value (get_or values.old n F.zero)) (F.value factor) }
    ensures grows { products.old ≤ products.new }
    ensures cost { products.new ≤ products.old + count }
{
    let (first, behind) = values.split_at_mut(size);
    let from = &first[0..count];
    let part = &mut behind[0..count];
    if factor == F::ONE {
        part.copy_from_slice(from);
    } else {
        scale_slice_oop(from, part, factor, products);
    }
}

// Rows of coefficients in bit reversed order, from number `first` on, each spread over a chunk of `copies` rows:
// row t of these is it times its weight and the t-th power of its root, so that of coefficient j is
// the j-th power of the t-th point. That is what the first layers make of rows of zeros.
#[derive(Drop)]
struct SpreadRows<'a, F> {
    twiddles: &'a [F],
    weights: &'a [F],
    rows: &'a [F],
    width: usize,
    copies: usize,
    first: usize,
}

impl<F: TwoAdicField> ChunkWork<F> for SpreadRows<'_, F> {
    ghost accepts = { λ it n size. (1 ≤ it.copies) × (size ≡ it.copies * it.width)
        × ((it.first + n) * it.width + it.width ≤ length it.rows.now) × (it.first + n < length it.weights.now)
        × ((it.first + n) * it.copies + it.copies ≤ 2 * length it.twiddles.now) };

    ghost takes = { λ it n before after. let cell = λ (xs : List F) (i : ℕ). F.value (get_or xs i F.zero) in
        let number = it.first + n in
        (t j : ℕ) → t < it.copies → j < it.width → cell after (t * it.width + j)
        ≡ F.ring.mul (cell it.rows.now (number * it.width + j)) (F.ring.mul (cell it.weights.now number)
        (power F.ring (cell it.twiddles.now (number * (it.copies / 2))) t)) };

    ghost cost = { λ it size. 2 * size };

    #[inline(always)]
    fn on_chunk(&self, number: usize, values: &mut [F], products: &mut Products) {
        let number = self.first + number;
        let row = chunk(self.rows, self.width, number);
        let root = self.twiddles[number * (self.copies / 2)];
        multiples_of_row(
            self.weights[number],
            root,
            row,
            values,
            self.copies,
            products,
        );
    }
}

/// Rows of coefficients, in bit reversed order, for `2^added_bits` times as many points.
#[derive(Clone, Copy)]
pub struct WeightedRows<'a, F> {
    /// The rows, one after another.
    pub rows: &'a [F],
    /// What each row is multiplied by.
    pub weights: &'a [F],
    /// The logarithm of how many points there are for a row.
    pub added_bits: usize,
}

// Rows of coefficients, spread, and by decimation in frequency the layers from
// `added_bits` up to `log_rows`, tile after tile.
fn spread_tiles<F: TwoAdicField>(
    twiddles: &[F],
    coefficients: WeightedRows<'_, F>,
    values: &mut [F],
    width: usize,
    log_rows: usize,
    log_h: usize,
    products: &mut Products,
)
    requires shape { AreRows log_h width (length values.old) }
    requires added { coefficients.added_bits ≤ log_rows }
    requires below { log_rows ≤ log_h }
    requires rows { length coefficients.rows.now ≡ 2 ^ (log_h - coefficients.added_bits) * width }
    requires weights { length coefficients.weights.now ≡ 2 ^ (log_h - coefficients.added_bits) }
    requires first { F.value (get_or twiddles.now 0 F.zero) ≡ F.ring.one }
    requires enough { 2 ^ log_h ≤ 2 * length twiddles.now }
    ensures cells { (cells : ℕ → ℕ → F.Element)
        → AreLayers log_h width (λ b. dif_near F.ring (F.value (get_or twiddles.now b F.zero)))
        (λ b. dif_far F.ring (F.value (get_or twiddles.now b F.zero)))
        cells (λ e. cells (e + 1))
        → ((q t j : ℕ) → q < 2 ^ (log_h - coefficients.entry.added_bits) → t < 2 ^ coefficients.entry.added_bits
        → j < width
        → cells coefficients.entry.added_bits ((q * 2 ^ coefficients.entry.added_bits + t) * width + j)
        ≡ F.ring.mul (F.value (get_or coefficients.entry.rows.now (q * width + j) F.zero))
        (F.ring.mul (F.value (get_or coefficients.entry.weights.now q F.zero))
        (power F.ring (F.value (get_or twiddles.now (q * (2 ^ coefficients.entry.added_bits / 2)) F.zero)) t)))
        → HoldsCells F.value F.zero 0 (cells log_rows) values.new }
    ensures cost { RisesAtMost ((log_rows - coefficients.entry.added_bits + 2) * length values.old)
        (2 * products.old) (2 * products.new) }
{
    let tiles = 1usize << (log_h - log_rows);
    let size = values.len() / tiles;
    let layers = SpreadTileLayers {
        twiddles,
        coefficients,
        width,
        log_rows,
    };
    on_each_chunk(layers, values, size, tiles, products);
}

// Rows of coefficients, spread over tiles of `2^log_rows` rows, and the layers of each tile from `added_bits` on.
#[derive(Drop)]
struct SpreadTileLayers<'a, F> {
    twiddles: &'a [F],
    coefficients: WeightedRows<'a, F>,
    width: usize,
    log_rows: usize,
}

impl<F: TwoAdicField> ChunkWork<F> for SpreadTileLayers<'_, F> {
    ghost accepts = { λ it n size. let count = 2 ^ (it.log_rows - it.coefficients.added_bits) in
        IsChunk it.width it.log_rows n (length it.twiddles.now) size × ((it.coefficients.added_bits ≤ it.log_rows)
        × (((n * count + count) * it.width ≤ length it.coefficients.rows.now)
        × ((n * count + count ≤ length it.coefficients.weights.now)
        × (F.value (get_or it.twiddles.now 0 F.zero) ≡ F.ring.one)))) };

    ghost takes = { λ it n before after. let count = 2 ^ (it.log_rows - it.coefficients.added_bits) in
        let twiddle = λ (b : ℕ). F.value (get_or it.twiddles.now b F.zero) in
        (k : ℕ) (cells : ℕ → ℕ → F.Element)
        → AreLayers k it.width (λ b. dif_near F.ring (twiddle b)) (λ b. dif_far F.ring (twiddle b))
        cells (λ e. cells (e + 1))
        → (n + 1) * 2 ^ it.log_rows ≤ 2 ^ k
        → ((q t j : ℕ) → q < n * count + count → t < 2 ^ it.coefficients.added_bits → j < it.width
        → cells it.coefficients.added_bits ((q * 2 ^ it.coefficients.added_bits + t) * it.width + j)
        ≡ F.ring.mul (F.value (get_or it.coefficients.rows.now (q * it.width + j) F.zero))
        (F.ring.mul (F.value (get_or it.coefficients.weights.now q F.zero))
        (power F.ring (twiddle (q * (2 ^ it.coefficients.added_bits / 2))) t)))
        → HoldsCells F.value F.zero (n * length before) (cells it.log_rows) after };

    ghost cost = { λ it size. (it.log_rows - it.coefficients.added_bits + 2) * size };

    #[inline(always)]
    fn on_chunk(&self, number: usize, chunk: &mut [F], products: &mut Products) {
        let copies = 1usize << self.coefficients.added_bits;
        let count = 1usize << (self.log_rows - self.coefficients.added_bits);
        let size = chunk.len() / count;
        let spread = SpreadRows {
            twiddles: self.twiddles,
            weights: self.coefficients.weights,
            rows: self.coefficients.rows,
            width: self.width,
            copies,
            first: number * count,
        };
        on_each_chunk(spread, chunk, size, count, products);
        layers_of_chunk(
            Dif,
            self.twiddles,
            chunk,
            self.width,
            self.coefficients.added_bits,
            self.log_rows,
            number,
            products,
        );
    }
}

/// From rows in bit reversed order, each times its weight, to their values at `2^added_bits` times as
/// many points, `2^log_h`, in natural order. No row of zeros is met: those of a longer polynomial are known
/// after the first layers. There are two points or more; `twiddles` are the powers of their generator, tiles
/// and pieces are as for `dit_network_to_reversed`, and a tile has at least `2^added_bits` rows.
pub fn extending_network<F: TwoAdicField>(
    twiddles: &[F],
    coefficients: WeightedRows<'_, F>,
    values: &mut [F],
    width: usize,
    log_rows: usize,
    log_h: usize,
    piece: usize,
    products: &mut Products,
)
    requires width { 1 ≤ width }
    requires added { coefficients.added_bits ≤ log_rows }
    requires below { log_rows ≤ log_h }
    requires nonzero { 1 ≤ log_h }
    requires fits_u64 { log_h < 64 }
    requires piece { 1 ≤ piece }
    requires within { log_h ≤ F.TWO_ADICITY }
    requires size { length values.old ≡ 2 ^ log_h * width }
    requires rows { length coefficients.rows.now ≡ 2 ^ (log_h - coefficients.added_bits) * width }
    requires weights { length coefficients.weights.now ≡ 2 ^ (log_h - coefficients.added_bits) }
    requires twiddles { AreTwiddlesFromStart F.Valued.own log_h
        (block_powers F.Valued.own (forward_root F.Valued.own F.generator)) twiddles.now }
    ensures values { (r j : ℕ) → r < 2 ^ log_h → j < width → F.value (get_or values.new (r * width + j) F.zero)
        ≡ poly F.ring (2 ^ (log_h - coefficients.entry.added_bits)) (λ q. F.ring.mul
        (F.value
        (get_or coefficients.entry.rows.now (rev (log_h - coefficients.entry.added_bits) q * width + j) F.zero))
        (F.value (get_or coefficients.entry.weights.now (rev (log_h - coefficients.entry.added_bits) q) F.zero)))
        (power F.ring (F.value (F.generator log_h)) r) }
    ensures grows { products.old ≤ products.new }
    ensures cost { 2 * products.new
        ≤ 2 * products.old + (log_h - coefficients.entry.added_bits + 2) * length values.old }
{
    spread_tiles(
        twiddles,
        coefficients,
        values,
        width,
        log_rows,
        log_h,
        products,
    );
    layers_in_groups(
        ByBlock {
            twiddles,
            decimation: Dif,
        },
        Order::SmallestFirst,
        values,
        width,
        log_rows,
        log_h,
        piece,
        products,
    );
}
