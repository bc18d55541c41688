//! Twiddles: powers of the generators, made once for all layers up to a height, and powers of other
//! elements, in natural order or in bit reversed order.

ghost use Rattle.std.specs.Prelude.{◌≡◌, ◌⊎◌, ℕ, ◌+◌, ◌-◌, ◌*◌, ◌^◌, ◌<◌, ◌≤◌, IsOk, IfOk, OnOk, OnErr, length, get_or};
ghost use Rattle.std.specs.Prelude.{IfErr, take, drop, false};
ghost use Rattle.p3_field.specs.Ring.{power};
ghost use Rattle.std.specs.Mem.{type_size};
ghost use Rattle.p3_matrix.specs.BitOrder.{rev};
ghost use Rattle.p3_matrix.specs.Room.{IsWithin};
ghost use Rattle.p3_networks.specs.Twiddles.{AreTwiddles, AreTwiddlesOfLayers, items_if_any, layer_place, root_of};
ghost use Rattle.p3_networks.specs.Twiddles.{root_powers};

use p3_field::{Field, TwoAdicField};
use p3_matrix::DftError;
use std::alloc::Global;
use std::marker::Model;

/// The twiddles of an engine, which are kept until it ends: those of layer l begin at place
/// `2^l - 1`. A layer has the same twiddles at each height, so that heights share them.
///
/// Contracts see the logarithm of the largest height whose twiddles are there.
#[derive(Drop)]
pub struct Twiddles<F: TwoAdicField> {
    log_h: usize,
    powers: Option<Vec<F>>,
}

impl<F: TwoAdicField> Model for Twiddles<F> {
    ghost use Rattle.std.specs.Prelude.{◌≡◌, ℕ, ◌-◌, ◌^◌, length, false};
    ghost use Rattle.p3_networks.specs.Twiddles.{AreTwiddlesOfLayers, items_if_any, root_powers};

    ghost Value = { ℕ };

    ghost view = { λ t. t.log_h };

    ghost invariant = { λ t.
        (length (items_if_any t.powers) ≡ 2 ^ t.log_h - 1)
        × AreTwiddlesOfLayers F.Valued t.log_h (root_powers F.Valued F.generator false) (items_if_any t.powers) };
}

impl<F: TwoAdicField> Twiddles<F> {
    /// Those of height one, which has no layer. It takes no memory.
    pub fn new() -> Self
        ensures { result ≡ 0 }
    {
        Twiddles {
            log_h: 0,
            powers: None,
        }
    }

    /// The logarithm of the largest height whose twiddles are there.
    pub fn log_h(&self) -> usize
        ensures { result ≡ self.now }
    {
        self.log_h
    }

    /// Makes the twiddles for height `2^log_h`, unless they are there: then no memory is taken. The
    /// logarithm is at most `TWO_ADICITY` and below 64. Where memory is refused, what is there stays.
    pub fn make(&mut self, alloc: Global, log_h: usize) -> Result<(), DftError>
        requires within { log_h ≤ F.TWO_ADICITY }
        requires fits_u64 { log_h < 64 }
        ensures made { OnOk result (log_h ≤ self.new) }
        ensures succeeds { log_h ≤ self.old → IsOk result }
        ensures keeps { self.old ≤ self.new }
        ensures only { (self.new ≡ self.old) ⊎ (self.new ≡ log_h) }
        ensures refused { OnErr result (self.new ≡ self.old) }
        ensures room { IfErr result (IsWithin (type_size F.row) (2 ^ log_h - 1)) }
    {
        if log_h <= self.log_h {
            return Ok(());
        }
        let powers = twiddles_of_layers(alloc, false, log_h)?;
        self.powers = Some(powers);
        self.log_h = log_h;
        Ok(())
    }

    /// The twiddles of all layers that are there, and no more.
    pub fn as_slice(&self) -> &[F]
        ensures size { length result.now ≡ 2 ^ self.now - 1 }
        ensures table { AreTwiddlesOfLayers F.Valued.own self.now (root_powers F.Valued.own F.generator false)
            result.now }
    {
        held(&self.powers)
    }
}

/// The entries of a table, of which there are none before it was made.
pub(crate) fn held<T>(items: &Option<Vec<T>>) -> &[T]
    ensures { result.now ≡ items_if_any items.now }
{
    match items {
        Some(items) => items.as_slice(),
        None => &[],
    }
}

// The generator of order `2^bits`, or its inverse.
fn root<F: TwoAdicField>(inverse: bool, bits: usize) -> F
    requires { bits ≤ F.TWO_ADICITY }
    ensures { F.value result ≡ root_of F.Valued.own F.generator inverse bits }
{
    let generator = F::two_adic_generator(bits);
    if inverse {
        generator.inverse()
    } else {
        generator
    }
}

/// The powers of the generators, or of their inverses, for the layers 0 to `layers - 1`, in natural order:
/// those of layer l begin at place `2^l - 1`. There are at most `TWO_ADICITY` layers, and fewer than 64.
pub fn twiddles_of_layers<F: TwoAdicField>(
    alloc: Global,
    inverse: bool,
    layers: usize,
) -> Result<Vec<F>, DftError>
    requires within { layers ≤ F.TWO_ADICITY }
    requires fits_u64 { layers < 64 }
    ensures size { IfOk result (λ v. length v.items ≡ 2 ^ layers - 1) }
    ensures table { IfOk result (λ v. AreTwiddlesOfLayers F.Valued.own layers
        (root_powers F.Valued.own F.generator inverse) v.items) }
    ensures room { IfErr result (IsWithin (type_size F.row) (2 ^ layers - 1)) }
{
    let mut powers = growth::with_capacity(alloc, (1 << layers) - 1)?;
    for l in 0..layers {
        push_layer(&mut powers, F::ONE, root::<F>(inverse, l + 1), l, false)?;
    }
    Ok(powers)
}

/// The first `2^bits` powers of `base`, each times `first`, in bit reversed order. `bits` is below 64.
pub fn reversed_powers<F: TwoAdicField>(
    alloc: Global,
    first: F,
    base: F,
    bits: usize,
) -> Result<Vec<F>, DftError>
    requires { bits < 64 }
    ensures powers { IfOk result (λ v. AreTwiddles F.Valued.own (2 ^ bits)
        (λ b. F.ring.mul (F.value first) (power F.ring (F.value base) (rev bits b))) v.items) }
    ensures room { IfErr result (IsWithin (type_size F.row) (2 ^ bits)) }
{
    let mut powers = growth::with_capacity(alloc, 1 << bits)?;
    push_layer(&mut powers, first, base, bits, true)?;
    Ok(powers)
}

/// Adds the first `2^bits` powers of `base`, each times `first`, at the end: in natural order or in bit
/// reversed order. In either, twice as many are the same again and each of them times one factor. `bits`
/// is below 64. Where memory is refused, some of them may stand at the end, and no clause says what does.
pub fn push_layer<F: TwoAdicField>(
    twiddles: &mut Vec<F>,
    first: F,
    base: F,
    bits: usize,
    reversed: bool,
) -> Result<(), DftError>
    requires { bits < 64 }
    ensures size { OnOk result (length twiddles.new.items ≡ length twiddles.old.items + 2 ^ bits) }
    ensures before { OnOk result ((n : ℕ) → n < length twiddles.old.items
        → get_or twiddles.new.items n F.zero ≡ get_or twiddles.old.items n F.zero) }
    ensures entries { OnOk result ((e : ℕ) → e < 2 ^ bits
        → F.value (get_or twiddles.new.items (length twiddles.old.items + e) F.zero)
        ≡ F.ring.mul (F.value first) (power F.ring (F.value base) (layer_place reversed bits e))) }
    ensures room { IfErr result (IsWithin (type_size F.row) (length twiddles.old.items + 2 ^ bits)) }
{
    let start = twiddles.len();
    growth::push(twiddles, first)?;
    for l in 0..bits {
        let factor = base.exp_power_of_2(if reversed { bits - 1 - l } else { l });
        push_multiples(twiddles, start, factor)?;
    }
    Ok(())
}

// Adds each element from place `from` on, times `factor`, at the end.
fn push_multiples<F: Field>(elements: &mut Vec<F>, from: usize, factor: F) -> Result<(), DftError>
    requires { from ≤ length elements.old.items }
    ensures size { OnOk result (length elements.new.items + from ≡ 2 * length elements.old.items) }
    ensures before { OnOk result ((n : ℕ) → n < length elements.old.items
        → get_or elements.new.items n F.zero ≡ get_or elements.old.items n F.zero) }
    ensures after { OnOk result ((n : ℕ) → from + n < length elements.old.items
        → F.value (get_or elements.new.items (length elements.old.items + n) F.zero)
        ≡ F.ring.mul (F.value (get_or elements.old.items (from + n) F.zero)) (F.value factor)) }
    ensures room { IfErr result (IsWithin (type_size F.row) (2 * length elements.old.items - from)) }
{
    for i in from..elements.len() {
        let multiple = elements[i] * factor;
        growth::push(elements, multiple)?;
    }
    Ok(())
}
