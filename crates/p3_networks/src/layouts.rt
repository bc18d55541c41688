//! Layouts of twiddles: how a table holds those of each layer, as the two halves of a network borrow them. A
//! new layout is one more impl of `LayerTwiddles`.

ghost use Rattle.std.specs.Prelude.{◌≡◌, ℕ, ◌^◌, ◌<◌, ◌≤◌, IfSome, length, get_or};

use p3_field::TwoAdicField;

/// The twiddles of the layers of a network: layer l has `2^l` of them. In the low half they are in the order of
/// the pairs of a block, in the high half in that of the blocks.
pub trait LayerTwiddles<F: TwoAdicField>: Copy {
    // Whether it has those of layer l.
    ghost has: { Self → ℕ → Type 0 };

    // Twiddle t of layer l.
    ghost at: { Self → ℕ → ℕ → F };

    /// Twiddle t of layer l.
    fn get(self, l: usize, t: usize) -> F
        requires in_table { has self l }
        requires below { t < 2 ^ l }
        ensures { result ≡ at self l t };

    /// The twiddles of layer l in one slice, if they lie so: a column meets by them lane by lane.
    #[inline(always)]
    fn in_order(&self, l: usize) -> Option<&[F]>
        requires in_table { has self.now l }
        ensures { IfSome result (λ ts. (2 ^ l ≤ length ts.now)
            × ((t : ℕ) → t < 2 ^ l → get_or ts.now t F.zero ≡ at self.now l t)) }
    {
        None
    }
}

/// Layer after layer: the twiddles of layer l begin at place `2^l - 1`.
#[derive(Clone, Copy)]
pub struct ByLayer<'a, F> {
    /// Those of all layers.
    pub twiddles: &'a [F],
}

impl<F: TwoAdicField> LayerTwiddles<F> for ByLayer<'_, F> {
    ghost use Rattle.std.specs.Prelude.{◌-◌, ◌*◌, ◌^◌, ◌<◌, ◌≤◌, length};
    ghost use Rattle.p3_networks.specs.Twiddles.{by_layer};

    ghost has = { λ it l. (l < 63) × (2 * 2 ^ l - 1 ≤ length it.twiddles.now) };

    ghost at = { λ it. by_layer F.zero it.twiddles.now };

    #[inline(always)]
    fn get(self, l: usize, t: usize) -> F {
        self.twiddles[(1 << l) - 1 + t]
    }

    #[inline(always)]
    fn in_order(&self, l: usize) -> Option<&[F]> {
        let count = 1usize << l;
        Some(&self.twiddles[count - 1..2 * count - 1])
    }
}

/// One table for all layers: those of layer l are its first `2^l` entries.
#[derive(Clone, Copy)]
pub struct FromStart<'a, F> {
    /// Those of the last layer.
    pub twiddles: &'a [F],
}

impl<F: TwoAdicField> LayerTwiddles<F> for FromStart<'_, F> {
    ghost use Rattle.std.specs.Prelude.{◌^◌, ◌≤◌, length};
    ghost use Rattle.p3_networks.specs.Twiddles.{from_start};

    ghost has = { λ it l. 2 ^ l ≤ length it.twiddles.now };

    ghost at = { λ it. from_start F.zero it.twiddles.now };

    #[inline(always)]
    fn get(self, _l: usize, t: usize) -> F {
        self.twiddles[t]
    }
}
