//! The powers of the roots that the engine keeps until it ends.

ghost use Rattle.std.specs.Prelude.{◌≡◌, ◌⊎◌, ◌+◌, ◌-◌, ◌^◌, ◌/◌, ◌≤◌, ◌<◌, IfErr, IsOk, OnOk, OnErr, length};
ghost use Rattle.std.specs.Mem.{type_size};
ghost use Rattle.p3_matrix.specs.Room.{IsWithin};
ghost use Rattle.p3_networks.specs.Twiddles.{AreTwiddlesFromStart, AreTwiddlesOfLayers, block_powers, root_of};
ghost use Rattle.p3_matrix.specs.BitOrder.{mid_of};
ghost use Rattle.p3_networks.specs.Twiddles.{root_powers};

use crate::root_tables::RootTables;
use crate::twiddles::{held, twiddles_of_layers};
use p3_field::TwoAdicField;
use p3_matrix::DftError;
use std::alloc::Global;
use std::marker::Model;

/// The powers of the generators and those of their inverses, for all heights up to one.
///
/// The second half takes them in bit reversed order, of which each height has the first ones. The first
/// half takes them in natural order, layer after layer; it has no more layers than half the digits of
/// the height, so that these tables are small.
///
/// Contracts see the logarithm of that height.
#[derive(Drop)]
pub struct Tables<F: TwoAdicField> {
    forward: Option<Vec<F>>,
    backward: Option<Vec<F>>,
    high: RootTables<F>,
}

impl<F: TwoAdicField> Model for Tables<F> {
    ghost use Rattle.std.specs.Prelude.{◌≡◌, ℕ, ◌+◌, ◌-◌, ◌^◌, ◌/◌, ◌≤◌, length, true, false};
    ghost use Rattle.p3_matrix.specs.BitOrder.{mid_of};
    ghost use Rattle.p3_networks.specs.Twiddles.{AreTwiddlesOfLayers, items_if_any, root_powers};

    ghost Value = { ℕ };

    ghost view = { λ t. t.high };

    ghost invariant = { λ t.
        (length (items_if_any t.forward) ≡ 2 ^ mid_of t.high - 1)
        × (length (items_if_any t.backward) ≡ 2 ^ mid_of t.high - 1)
        × AreTwiddlesOfLayers F.Valued (mid_of t.high) (root_powers F.Valued F.generator false)
        (items_if_any t.forward)
        × AreTwiddlesOfLayers F.Valued (mid_of t.high) (root_powers F.Valued F.generator true)
        (items_if_any t.backward)
        × (t.high ≤ F.TWO_ADICITY) };
}

impl<F: TwoAdicField> Tables<F> {
    /// Those of height one. They take no memory.
    pub fn new() -> Self
        ensures { result ≡ 0 }
    {
        Tables {
            forward: None,
            backward: None,
            high: RootTables::new(),
        }
    }

    /// The logarithm of the largest height whose tables are there.
    pub fn log_h(&self) -> usize
        ensures { result ≡ self.now }
    {
        self.high.log_h()
    }

    /// Makes the tables for height `2^log_h`, unless they are there: then no memory is taken. The logarithm
    /// is at most `TWO_ADICITY` and below 64. Where memory is refused, what is there stays.
    pub fn make(&mut self, alloc: Global, log_h: usize) -> Result<(), DftError>
        requires within { log_h ≤ F.TWO_ADICITY }
        requires fits_u64 { log_h < 64 }
        ensures made { OnOk result (log_h ≤ self.new) }
        ensures succeeds { log_h ≤ self.old → IsOk result }
        ensures keeps { self.old ≤ self.new }
        ensures only { (self.new ≡ self.old) ⊎ (self.new ≡ log_h) }
        ensures refused { OnErr result (self.new ≡ self.old) }
        ensures room { IfErr result (IsWithin (type_size F.row) (2 ^ log_h)) }
    {
        if log_h <= self.log_h() {
            return Ok(());
        }
        let layers = (log_h + 1) / 2;
        let forward = twiddles_of_layers(alloc, false, layers)?;
        let backward = twiddles_of_layers(alloc, true, layers)?;
        self.high.make(alloc, log_h)?;
        self.forward = Some(forward);
        self.backward = Some(backward);
        Ok(())
    }

    /// The powers of the generators, or of their inverses, for the first half.
    pub fn low(&self, inverse: bool) -> &[F]
        ensures size { length result.now ≡ 2 ^ mid_of self.now - 1 }
        ensures table { AreTwiddlesOfLayers F.Valued.own (mid_of self.now)
            (root_powers F.Valued.own F.generator inverse) result.now }
    {
        if inverse {
            held(&self.backward)
        } else {
            held(&self.forward)
        }
    }

    /// The powers of the generators, or of their inverses, in bit reversed order, for the second half.
    pub fn high(&self, inverse: bool) -> &[F]
        ensures within { self.now ≤ F.TWO_ADICITY }
        ensures size { length result.now ≡ 2 ^ self.now / 2 }
        ensures table { AreTwiddlesFromStart F.Valued.own self.now
            (block_powers F.Valued.own (root_of F.Valued.own F.generator inverse)) result.now }
    {
        if inverse {
            self.high.backward()
        } else {
            self.high.forward()
        }
    }
}
