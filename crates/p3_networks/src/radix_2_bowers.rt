//! The networks of Bowers: network G and G transposed. Their layers go by tiles and groups, as those of
//! `radix_2_small_batch` do.

ghost use Rattle.std.specs.Prelude.{◌≡◌, ◌+◌, ◌*◌, ◌/◌, ◌-◌, ◌^◌, ◌<◌, ◌≤◌, length};
ghost use Rattle.p3_field.specs.Ring.{power};
ghost use Rattle.p3_matrix.specs.BitOrder.{rev};
ghost use Rattle.p3_networks.specs.Layers.{AreValuesOfRows};
ghost use Rattle.p3_networks.specs.Twiddles.{AreTwiddles};

use crate::groups::{DEFAULT_TILE, log_tile_rows, piece_size};
use crate::tiles::{dif_network, dit_network_to_reversed};
use p3_field::{Products, TwoAdicField};

/// Network G, from rows in bit reversed order to their values at the powers of the generator, in natural
/// order: in layer l, blocks of two halves of `2^l` rows meet by decimation in frequency, block b with
/// twiddle b. Block 0 has no product. There are two rows or more, and half as many twiddles: the powers of
/// the generator, in bit reversed order.
pub fn network_g<F: TwoAdicField>(
    twiddles: &[F],
    values: &mut [F],
    width: usize,
    log_h: usize,
    products: &mut Products,
)
    requires width { 1 ≤ width }
    requires nonzero { 1 ≤ log_h }
    requires fits_u64 { log_h < 64 }
    requires within { log_h ≤ F.TWO_ADICITY }
    requires size { length values.old ≡ 2 ^ log_h * width }
    requires twiddles { AreTwiddles F.Valued.own (2 ^ (log_h - 1))
        (λ b. power F.ring (F.value (F.generator log_h)) (rev (log_h - 1) b)) twiddles.now }
    ensures values { AreValuesOfRows F.Valued.own width (2 ^ log_h) (rev log_h)
        (λ r. power F.ring (F.value (F.generator log_h)) r) values.old values.new }
    ensures grows { products.old ≤ products.new }
    ensures cost { products.new ≤ products.old + width * (log_h * 2 ^ log_h / 2) }
{
    let log_rows = log_tile_rows(DEFAULT_TILE, width, log_h);
    let piece = piece_size(DEFAULT_TILE);
    dif_network(twiddles, values, width, log_rows, log_h, piece, products);
}

/// Network G transposed, from rows in natural order to their values at the powers of the inverse of the
/// generator, in bit reversed order: the layers of G in opposite order, by decimation in time. Block 0 has
/// no product. There are two rows or more, and half as many twiddles: the powers of that inverse, in bit
/// reversed order.
pub fn network_g_transposed<F: TwoAdicField>(
    twiddles: &[F],
    values: &mut [F],
    width: usize,
    log_h: usize,
    products: &mut Products,
)
    requires width { 1 ≤ width }
    requires nonzero { 1 ≤ log_h }
    requires fits_u64 { log_h < 64 }
    requires within { log_h ≤ F.TWO_ADICITY }
    requires size { length values.old ≡ 2 ^ log_h * width }
    requires twiddles { AreTwiddles F.Valued.own (2 ^ (log_h - 1))
        (λ b. power F.ring (power F.ring (F.value (F.generator log_h)) (2 ^ log_h - 1)) (rev (log_h - 1) b))
        twiddles.now }
    ensures values { AreValuesOfRows F.Valued.own width (2 ^ log_h) (λ q. q)
        (λ r. power F.ring (power F.ring (F.value (F.generator log_h)) (2 ^ log_h - 1)) (rev log_h r)) values.old
        values.new }
    ensures grows { products.old ≤ products.new }
    ensures cost { products.new ≤ products.old + width * (log_h * 2 ^ log_h / 2) }
{
    let log_rows = log_tile_rows(DEFAULT_TILE, width, log_h);
    let piece = piece_size(DEFAULT_TILE);
    dit_network_to_reversed(twiddles, values, width, log_rows, log_h, piece, products);
}
