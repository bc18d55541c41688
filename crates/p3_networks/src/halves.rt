//! The two halves of the network. Each goes over the matrix chunk by chunk, and does all of its layers on one
//! chunk before the next, so that a chunk that fits the cache stays there.

ghost use Rattle.std.specs.Prelude.{◌≡◌, ℕ, ◌+◌, ◌-◌, ◌*◌, ◌/◌, ◌^◌, ◌<◌, ◌≤◌, IfSome, length, get_or};
ghost use Rattle.p3_matrix.specs.Butterflies.{dit_near, dit_far};
ghost use Rattle.p3_networks.specs.Chunks.{chunk_of_source, source_of};
ghost use Rattle.p3_networks.specs.Counts.{RisesAtMost};
ghost use Rattle.p3_networks.specs.Halves.{IsHighChunk, IsHighHalf, IsHighNetwork, IsLowHalf, IsLowNetwork};
ghost use Rattle.p3_networks.specs.Layers.{AreRows, IsLayer};
ghost use Rattle.p3_networks.specs.Twiddles.{factor, scale_cost};

use crate::butterfly_layers::rules::{ByBlockOfLayer, ByPlaceOfLayer, Dit, ScaledDit};
use crate::butterfly_layers::{layer, layer_oop};
use crate::chunks::{ChunkWork, chunk, on_each_chunk};
use crate::layouts::LayerTwiddles;
use p3_field::{Products, TwoAdicField};
use p3_matrix::{DitButterfly, TwiddleFreeButterfly, scale_slice_in_place};

/// The first half, on rows in bit reversed order: each chunk of `2^mid` rows has the coefficients of
/// polynomials, in bit reversed order, and becomes their values on a coset, in natural order. Where there is a
/// source, of as many rows, the coefficients lie there, and stay. `mid` is at most `log_h`, and the table has the
/// twiddles of as many layers.
pub fn first_half<'a, F: TwoAdicField, T: LayerTwiddles<F>>(
    table: T,
    source: Option<&'a [F]>,
    values: &'a mut [F],
    width: usize,
    log_h: usize,
    mid: usize,
    products: &mut Products,
)
    requires rows { AreRows log_h width (length values.old) }
    requires source { IfSome source (λ rows. length rows.now ≡ length values.old) }
    requires parts { mid ≤ log_h }
    requires table { (l : ℕ) → l < mid → T.has table l }
    ensures values { IsLowHalf F.Valued.own (2 ^ (log_h - mid)) mid width (T.at table)
        (source_of source.entry values.old) values.new }
    ensures cost { RisesAtMost (2 ^ (log_h - mid) * (width * (mid * 2 ^ mid / 2))) products.old products.new }
{
    let chunks = 1usize << (log_h - mid);
    let size = values.len() / chunks;
    let layers = LowLayers {
        table,
        source,
        width,
        mid,
    };
    on_each_chunk(layers, values, size, chunks, products);
}

// The layers of the first half.
#[derive(Drop)]
struct LowLayers<'a, F, T> {
    table: T,
    source: Option<&'a [F]>,
    width: usize,
    mid: usize,
}

impl<F: TwoAdicField, T: LayerTwiddles<F>> ChunkWork<F> for LowLayers<'_, F, T> {
    ghost accepts = { λ it n size. AreRows it.mid it.width size × ((l : ℕ) → l < it.mid → T.has it.table l)
        × IfSome it.source (λ rows. n * size + size ≤ length rows.now) };

    ghost takes = { λ it n before. IsLowNetwork F.Valued.own it.mid it.width (T.at it.table)
        (chunk_of_source it.source n before) };

    ghost cost = { λ it size. 2 * (it.width * (it.mid * 2 ^ it.mid / 2)) };

    #[inline(always)]
    fn on_chunk(&self, number: usize, values: &mut [F], products: &mut Products) {
        // One column is made apart: where the width is known, no loop along a row is left.
        let width = self.width;
        if let Some(rows) = self.source {
            let source = chunk(rows, values.len(), number);
            if width == 1 {
                low_network_oop(self.table, source, values, 1, self.mid, products);
            } else {
                low_network_oop(self.table, source, values, width, self.mid, products);
            }
        } else if width == 1 {
            low_network(self.table, values, 1, self.mid, products);
        } else {
            low_network(self.table, values, width, self.mid, products);
        }
    }
}

/// The second half, on rows in natural order: each chunk of `2^left` rows has the coefficients of
/// polynomials, and becomes their values on a coset of its own, in bit reversed order. With a scale, the
/// coefficients are multiplied by it first. The table has the twiddles of all layers.
pub fn second_half<F: TwoAdicField, T: LayerTwiddles<F>>(
    table: T,
    scale: Option<F>,
    values: &mut [F],
    width: usize,
    mid: usize,
    left: usize,
    products: &mut Products,
)
    requires rows { AreRows (mid + left) width (length values.old) }
    requires table { (l : ℕ) → mid ≤ l → l < mid + left → T.has table l }
    ensures values { IsHighHalf F.Valued.own (2 ^ mid) mid left width (T.at table)
        (λ a q j. F.ring.mul (F.value (get_or values.old ((a * 2 ^ left + q) * width + j) F.zero))
        (factor F.Valued.own scale)) values.new }
    ensures cost { RisesAtMost (2 ^ mid * (width * (left * 2 ^ left / 2) + scale_cost scale * (2 ^ left * width)))
        products.old products.new }
{
    let chunks = 1usize << mid;
    let size = values.len() / chunks;
    let layers = HighLayers {
        table,
        scale,
        width,
        mid,
        left,
    };
    on_each_chunk(layers, values, size, chunks, products);
}

// The layers of the second half, and the scale before them.
#[derive(Drop)]
pub(crate) struct HighLayers<F, T> {
    pub(crate) table: T,
    pub(crate) scale: Option<F>,
    pub(crate) width: usize,
    pub(crate) mid: usize,
    pub(crate) left: usize,
}

impl<F: TwoAdicField, T: LayerTwiddles<F>> ChunkWork<F> for HighLayers<F, T> {
    ghost accepts = { λ it n. IsHighChunk it.mid it.left it.width n (T.has it.table) };

    ghost takes = { λ it n before. IsHighNetwork F.Valued.own it.mid it.left it.width n (T.at it.table)
        (λ q j. F.ring.mul (F.value (get_or before (q * it.width + j) F.zero)) (factor F.Valued.own it.scale)) };

    ghost cost = { λ it size. 2 * (it.width * (it.left * 2 ^ it.left / 2)
        + scale_cost it.scale * (2 ^ it.left * it.width)) };

    #[inline(always)]
    fn on_chunk(&self, number: usize, chunk: &mut [F], products: &mut Products) {
        if self.left == 0 {
            scale_entries(self.scale, chunk, products);
        } else if self.width == 1 {
            high_network(
                self.table, self.scale, chunk, 1, self.mid, self.left, number, products,
            );
        } else {
            high_network(
                self.table, self.scale, chunk, self.width, self.mid, self.left, number, products,
            );
        }
    }
}

// Multiplies all entries by the scale, if there is one.
fn scale_entries<F: TwoAdicField>(scale: Option<F>, values: &mut [F], products: &mut Products)
    ensures values { (n : ℕ) → n < length values.old → F.value (get_or values.new n F.zero)
        ≡ F.ring.mul (F.value (get_or values.old n F.zero)) (factor F.Valued.own scale) }
    ensures cost { RisesAtMost (scale_cost scale * length values.old) products.old products.new }
{
    match scale {
        Some(scale) => scale_slice_in_place(values, scale, products),
        None => {}
    }
}

// All layers, on rows that lie in bit reversed order. Layer l has `2^(log_h - 1 - l)` blocks of two
// halves of `2^l` rows, and row t of a block meets by twiddle t of the layer.
#[inline(always)]
fn low_network<F: TwoAdicField, T: LayerTwiddles<F>>(
    table: T,
    values: &mut [F],
    width: usize,
    log_h: usize,
    products: &mut Products,
)
    requires rows { AreRows log_h width (length values.old) }
    requires table { (l : ℕ) → l < log_h → T.has table l }
    ensures values { IsLowNetwork F.Valued.own log_h width (T.at table) values.old values.new }
    ensures cost { RisesAtMost (width * (log_h * 2 ^ log_h / 2)) products.old products.new }
{
    for l in 0..log_h {
        one_low_layer(table, values, width, log_h, l, products);
    }
}

// All layers on rows of another slice, which stay: the first one goes from them into the values, the others
// follow in place. Where there is no layer, the rows are copied.
#[inline(always)]
fn low_network_oop<F: TwoAdicField, T: LayerTwiddles<F>>(
    table: T,
    source: &[F],
    values: &mut [F],
    width: usize,
    log_h: usize,
    products: &mut Products,
)
    requires rows { AreRows log_h width (length values.old) }
    requires source { length source.now ≡ length values.old }
    requires table { (l : ℕ) → l < log_h → T.has table l }
    ensures values { IsLowNetwork F.Valued.own log_h width (T.at table) source.now values.new }
    ensures cost { RisesAtMost (width * (log_h * 2 ^ log_h / 2)) products.old products.new }
{
    if log_h == 0 {
        values.copy_from_slice(source);
    } else {
        let pairs = 1usize << (log_h - 1);
        first_layer_oop(table, source, values, width, pairs, products);
        for l in 1..log_h {
            one_low_layer(table, values, width, log_h, l, products);
        }
    }
}

// Layer l of those of `low_network`, by decimation in time: row t of a block meets by twiddle t of the layer. Where
// twiddle 0 is one, its rows are not multiplied.
#[inline(always)]
pub(crate) fn one_low_layer<F: TwoAdicField, T: LayerTwiddles<F>>(
    table: T,
    values: &mut [F],
    width: usize,
    log_h: usize,
    l: usize,
    products: &mut Products,
)
    requires rows { AreRows log_h width (length values.old) }
    requires below { l < log_h }
    requires table { T.has table l }
    ensures cells { IsLayer (2 ^ (log_h - 1 - l)) (2 ^ l * width)
        (λ b i. dit_near F.ring (F.value (T.at table l (i / width))))
        (λ b i. dit_far F.ring (F.value (T.at table l (i / width))))
        (λ n. F.value (get_or values.old n F.zero)) (λ n. F.value (get_or values.new n F.zero)) }
    ensures cost { RisesAtMost (1 * (2 ^ (log_h - 1 - l) * (2 ^ l * width))) products.old products.new }
{
    let half = 1usize << l;
    let blocks = 1usize << (log_h - 1 - l);
    if table.get(l, 0) == F::ONE {
        let rule = ByPlaceOfLayer {
            table,
            layer: l,
            decimation: Dit::<true>,
        };
        layer(rule, values, width, half, 0, blocks, products);
    } else {
        let rule = ByPlaceOfLayer {
            table,
            layer: l,
            decimation: Dit::<false>,
        };
        layer(rule, values, width, half, 0, blocks, products);
    }
}

// All layers of one chunk, on rows in natural order: those from layer mid on of the whole matrix, in which
// blocks are counted over the whole matrix. With `done` of `left` layers done there are `2^done` blocks
// of two halves of `2^(left - 1 - done)` rows.
#[inline(always)]
pub(crate) fn high_network<F: TwoAdicField, T: LayerTwiddles<F>>(
    table: T,
    scale: Option<F>,
    values: &mut [F],
    width: usize,
    mid: usize,
    left: usize,
    chunk: usize,
    products: &mut Products,
)
    requires nonzero { 1 ≤ left }
    requires chunk { IsHighChunk mid left width chunk (T.has table) (length values.old) }
    ensures values { IsHighNetwork F.Valued.own mid left width chunk (T.at table)
        (λ q j. F.ring.mul (F.value (get_or values.old (q * width + j) F.zero)) (factor F.Valued.own scale)) values.new }
    ensures cost { RisesAtMost (width * (left * 2 ^ left / 2) + scale_cost scale * (2 ^ left * width))
        products.old products.new }
{
    let half = 1usize << (left - 1);
    scaled_layer(table, mid, scale, values, width, half, chunk, products);
    for done in 1..left {
        let half = 1usize << (left - 1 - done);
        let blocks = 1usize << done;
        layer_by_block(
            table,
            mid + done,
            values,
            width,
            half,
            chunk * blocks,
            blocks,
            products,
        );
    }
}

// The first layer, from rows of another slice: its blocks are pairs of rows, which all have twiddle 0.
#[inline(always)]
fn first_layer_oop<F: TwoAdicField, T: LayerTwiddles<F>>(
    table: T,
    source: &[F],
    values: &mut [F],
    width: usize,
    pairs: usize,
    products: &mut Products,
)
    requires blocks { 1 ≤ pairs }
    requires source { length source.now ≡ pairs * (2 * width) }
    requires size { length values.old ≡ pairs * (2 * width) }
    requires table { T.has table 0 }
    ensures cells { IsLayer pairs width
        (λ b i. dit_near F.ring (F.value (T.at table 0 0))) (λ b i. dit_far F.ring (F.value (T.at table 0 0)))
        (λ n. F.value (get_or source.now n F.zero)) (λ n. F.value (get_or values.new n F.zero)) }
    ensures cost { RisesAtMost (1 * (pairs * width)) products.old products.new }
{
    let first = table.get(0, 0);
    if first == F::ONE {
        layer_oop(TwiddleFreeButterfly, source, values, width, pairs, products);
    } else {
        layer_oop(DitButterfly(first), source, values, width, pairs, products);
    }
}

// A layer by decimation in time in which all rows of block b have twiddle b. Where twiddle 0 is one, the
// rows of block 0 are not multiplied.
#[inline(always)]
fn layer_by_block<F: TwoAdicField, T: LayerTwiddles<F>>(
    table: T,
    l: usize,
    values: &mut [F],
    width: usize,
    half: usize,
    first_block: usize,
    blocks: usize,
    products: &mut Products,
)
    requires width { 1 ≤ width }
    requires nonzero { 1 ≤ half }
    requires blocks { 1 ≤ blocks }
    requires size { length values.old ≡ blocks * (2 * (half * width)) }
    requires fits_u64 { l < 64 }
    requires in_table { T.has table l }
    requires table { first_block + blocks ≤ 2 ^ l }
    ensures cells { IsLayer blocks (half * width) (λ b i. dit_near F.ring (F.value (T.at table l (first_block + b))))
        (λ b i. dit_far F.ring (F.value (T.at table l (first_block + b))))
        (λ n. F.value (get_or values.old n F.zero)) (λ n. F.value (get_or values.new n F.zero)) }
    ensures cost { RisesAtMost (1 * (blocks * (half * width))) products.old products.new }
{
    if table.get(l, 0) == F::ONE {
        let rule = ByBlockOfLayer {
            table,
            layer: l,
            decimation: Dit::<true>,
        };
        layer(rule, values, width, half, first_block, blocks, products);
    } else {
        let rule = ByBlockOfLayer {
            table,
            layer: l,
            decimation: Dit::<false>,
        };
        layer(rule, values, width, half, first_block, blocks, products);
    }
}

// A layer of one block, whose rows are first multiplied by the scale, if there is one.
#[inline(always)]
fn scaled_layer<F: TwoAdicField, T: LayerTwiddles<F>>(
    table: T,
    l: usize,
    scale: Option<F>,
    values: &mut [F],
    width: usize,
    half: usize,
    block: usize,
    products: &mut Products,
)
    requires width { 1 ≤ width }
    requires nonzero { 1 ≤ half }
    requires size { length values.old ≡ 1 * (2 * (half * width)) }
    requires fits_u64 { l < 64 }
    requires in_table { T.has table l }
    requires table { block + 1 ≤ 2 ^ l }
    ensures cells { IsLayer 1 (half * width) (λ b i. dit_near F.ring (F.value (T.at table l (block + b))))
        (λ b i. dit_far F.ring (F.value (T.at table l (block + b))))
        (λ n. F.ring.mul (F.value (get_or values.old n F.zero)) (factor F.Valued.own scale))
        (λ n. F.value (get_or values.new n F.zero)) }
    ensures cost { RisesAtMost ((1 + scale_cost scale) * (1 * (half * width))) products.old products.new }
{
    match scale {
        Some(scale) => {
            let rule = ByBlockOfLayer {
                table,
                layer: l,
                decimation: ScaledDit { scale },
            };
            layer(rule, values, width, half, block, 1, products);
        }
        None => layer_by_block(table, l, values, width, half, block, 1, products),
    }
}
