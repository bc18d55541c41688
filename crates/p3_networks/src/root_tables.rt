//! The powers of the roots, for both directions and all heights up to one, in bit reversed order.

ghost use Rattle.std.specs.Prelude.{◌≡◌, ◌⊎◌, ℕ, ◌+◌, ◌-◌, ◌*◌, ◌^◌, ◌/◌, ◌<◌, ◌≤◌, IsOk, IfErr, IfOk, OnOk, OnErr, length};
ghost use Rattle.std.specs.Mem.{type_size};
ghost use Rattle.p3_matrix.specs.Room.{IsWithin};
ghost use Rattle.p3_networks.specs.Twiddles.{AreTwiddles, AreTwiddlesFromStart, backward_root, block_powers};
ghost use Rattle.p3_networks.specs.Twiddles.{forward_root};

use crate::twiddles::{held, reversed_powers};
use p3_field::TwoAdicField;
use p3_matrix::DftError;
use std::alloc::Global;
use std::marker::Model;

/// Two tables, which an engine keeps until it ends: the powers of the generator of the largest height
/// that they are for, and those of its inverse, both in bit reversed order. A layer of `2^l` blocks has
/// the first `2^l` entries, at each height, so that heights and layers share them.
///
/// Contracts see the logarithm of that height.
#[derive(Drop)]
pub struct RootTables<F: TwoAdicField> {
    log_h: usize,
    forward: Option<Vec<F>>,
    backward: Option<Vec<F>>,
}

impl<F: TwoAdicField> Model for RootTables<F> {
    ghost use Rattle.std.specs.Prelude.{◌≡◌, ℕ, ◌^◌, ◌/◌, length};
    ghost use Rattle.p3_networks.specs.Twiddles.{AreTwiddlesFromStart, backward_root, block_powers, forward_root};
    ghost use Rattle.p3_networks.specs.Twiddles.{items_if_any};

    ghost Value = { ℕ };

    ghost view = { λ t. t.log_h };

    ghost invariant = { λ t.
        (length (items_if_any t.forward) ≡ 2 ^ t.log_h / 2)
        × (length (items_if_any t.backward) ≡ 2 ^ t.log_h / 2)
        × AreTwiddlesFromStart F.Valued t.log_h (block_powers F.Valued (forward_root F.Valued F.generator))
        (items_if_any t.forward)
        × AreTwiddlesFromStart F.Valued t.log_h (block_powers F.Valued (backward_root F.Valued F.generator))
        (items_if_any t.backward) };
}

impl<F: TwoAdicField> RootTables<F> {
    /// Those of height one, which has no layer. They take no memory.
    pub fn new() -> Self
        ensures { result ≡ 0 }
    {
        RootTables {
            log_h: 0,
            forward: None,
            backward: None,
        }
    }

    /// The logarithm of the largest height that the tables are for.
    pub fn log_h(&self) -> usize
        ensures { result ≡ self.now }
    {
        self.log_h
    }

    /// Makes both tables for height `2^log_h`, unless they are there: then no memory is taken. The
    /// logarithm is at most `TWO_ADICITY` and below 64. Where memory is refused, what is there stays.
    pub fn make(&mut self, alloc: Global, log_h: usize) -> Result<(), DftError>
        requires within { log_h ≤ F.TWO_ADICITY }
        requires fits_u64 { log_h < 64 }
        ensures made { OnOk result (log_h ≤ self.new) }
        ensures succeeds { log_h ≤ self.old → IsOk result }
        ensures keeps { self.old ≤ self.new }
        ensures only { (self.new ≡ self.old) ⊎ (self.new ≡ log_h) }
        ensures refused { OnErr result (self.new ≡ self.old) }
        ensures room { IfErr result (IsWithin (type_size F.row) (2 ^ log_h)) }
    {
        if log_h <= self.log_h {
            return Ok(());
        }
        let generator = F::two_adic_generator(log_h);
        let forward = reversed_powers(alloc, F::ONE, generator, log_h - 1)?;
        let backward = inverse_powers(alloc, forward.as_slice(), log_h)?;
        self.forward = Some(forward);
        self.backward = Some(backward);
        self.log_h = log_h;
        Ok(())
    }

    /// The powers of the generators: half as many as the height, and none for height one.
    pub fn forward(&self) -> &[F]
        ensures size { length result.now ≡ 2 ^ self.now / 2 }
        ensures table { AreTwiddlesFromStart F.Valued.own self.now
            (block_powers F.Valued.own (forward_root F.Valued.own F.generator)) result.now }
    {
        held(&self.forward)
    }

    /// The powers of their inverses, as many.
    pub fn backward(&self) -> &[F]
        ensures size { length result.now ≡ 2 ^ self.now / 2 }
        ensures table { AreTwiddlesFromStart F.Valued.own self.now
            (block_powers F.Valued.own (backward_root F.Valued.own F.generator)) result.now }
    {
        held(&self.backward)
    }
}

// From half the powers of a generator, in bit reversed order, those of its inverse, in that order. The
// first stays. The j-th power of the inverse is the negative of power `2^(log_h - 1) - j`, so each
// chunk of `2^l` entries from place `2^l` on is negated and reversed: no product is made.
fn inverse_powers<F: TwoAdicField>(
    alloc: Global,
    powers: &[F],
    log_h: usize,
) -> Result<Vec<F>, DftError>
    requires nonzero { 1 ≤ log_h }
    requires fits_u64 { log_h < 64 }
    requires within { log_h ≤ F.TWO_ADICITY }
    requires powers { AreTwiddles F.Valued.own (2 ^ (log_h - 1))
        (block_powers F.Valued.own (forward_root F.Valued.own F.generator) (log_h - 1)) powers.now }
    ensures powers { IfOk result (λ v. AreTwiddles F.Valued.own (2 ^ (log_h - 1))
        (block_powers F.Valued.own (backward_root F.Valued.own F.generator) (log_h - 1)) v.items) }
    ensures room { IfErr result (IsWithin (type_size F.row) (length powers.now)) }
{
    let mut inverse = growth::with_capacity(alloc, powers.len())?;
    growth::push(&mut inverse, F::ONE)?;
    for l in 0..log_h - 1 {
        let chunk = 1usize << l;
        for b in chunk..2 * chunk {
            growth::push(&mut inverse, -powers[3 * chunk - 1 - b])?;
        }
    }
    Ok(inverse)
}
