//! The layers of the network by decimation in time.

ghost use Rattle.std.specs.Prelude.{◌≡◌, ℕ, ◌+◌, ◌*◌, ◌/◌, ◌^◌, ◌<◌, ◌≤◌, length, false};
ghost use Rattle.p3_field.specs.Ring.{power};
ghost use Rattle.p3_matrix.specs.BitOrder.{rev};
ghost use Rattle.p3_networks.specs.Layers.{AreValuesOfRows};
ghost use Rattle.p3_networks.specs.Twiddles.{root_powers};

use crate::halves::{first_half, one_low_layer};
use crate::layouts::LayerTwiddles;
use p3_field::{Products, TwoAdicField};

// Rows of at most so many elements are taken to stay in the second cache of a core, and go layer after
// layer: 256 KiB over a field of 32 bits. With limits of 2^14 to 2^18 elements large transforms took the
// same time within a few percent.
const CACHED: usize = 65_536;

/// All layers, from rows in bit reversed order to their values at the powers of the generator, in natural
/// order. Layer l has `2^(log_h - 1 - l)` blocks of two halves of `2^l` rows. The table has the twiddles of all
/// layers.
///
/// Where the rows do not fit into the cache, each half of them, which is a network of its own, goes through
/// all of its layers before the one that joins the two.
pub fn dit_network_to_natural<F: TwoAdicField, T: LayerTwiddles<F>>(
    table: T,
    values: &mut [F],
    width: usize,
    log_h: usize,
    products: &mut Products,
)
    requires width { 1 ≤ width }
    requires fits_u64 { log_h < 64 }
    requires within { log_h ≤ F.TWO_ADICITY }
    requires size { length values.old ≡ 2 ^ log_h * width }
    requires table { (l : ℕ) → l < log_h → T.has table l }
    requires twiddles { (l t : ℕ) → l < log_h → t < 2 ^ l
        → F.value (T.at table l t) ≡ root_powers F.Valued.own F.generator false l t }
    ensures values { AreValuesOfRows F.Valued.own width (2 ^ log_h) (rev log_h)
        (λ r. power F.ring (F.value (F.generator log_h)) r) values.old values.new }
    ensures grows { products.old ≤ products.new }
    ensures cost { products.new ≤ products.old + width * (log_h * 2 ^ log_h / 2) }
{
    if log_h > 0 && values.len() > CACHED {
        let log_half = log_h - 1;
        let (low, high) = values.split_at_mut(values.len() / 2);
        dit_network_to_natural(table, low, width, log_half, products);
        dit_network_to_natural(table, high, width, log_half, products);
        one_low_layer(table, values, width, log_h, log_half, products);
    } else {
        network_in_cache(table, values, width, log_h, products);
    }
}

// One layer after another on all rows, where these fit into the cache or are one. It is a function of its own
// since a goal of the recursion above reads both calls of itself.
fn network_in_cache<F: TwoAdicField, T: LayerTwiddles<F>>(
    table: T,
    values: &mut [F],
    width: usize,
    log_h: usize,
    products: &mut Products,
)
    requires width { 1 ≤ width }
    requires fits_u64 { log_h < 64 }
    requires within { log_h ≤ F.TWO_ADICITY }
    requires size { length values.old ≡ 2 ^ log_h * width }
    requires table { (l : ℕ) → l < log_h → T.has table l }
    requires twiddles { (l t : ℕ) → l < log_h → t < 2 ^ l
        → F.value (T.at table l t) ≡ root_powers F.Valued.own F.generator false l t }
    ensures values { AreValuesOfRows F.Valued.own width (2 ^ log_h) (rev log_h)
        (λ r. power F.ring (F.value (F.generator log_h)) r) values.old values.new }
    ensures grows { products.old ≤ products.new }
    ensures cost { products.new ≤ products.old + width * (log_h * 2 ^ log_h / 2) }
{
    first_half(table, None, values, width, log_h, log_h, products);
}
