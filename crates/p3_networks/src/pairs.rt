//! The layer of blocks of two entries in one column, by lanes: the first entries of some blocks are loaded
//! into one packed value, the second ones into another.

ghost use Rattle.std.specs.Prelude.{◌≡◌, ℕ, ◌+◌, ◌*◌, ◌≤◌, length};
ghost use Rattle.p3_networks.specs.Chunks.{chunk_of};
ghost use Rattle.p3_networks.specs.Counts.{RisesAtMost};
ghost use Rattle.p3_networks.specs.Layers.{MeetByTwiddles};
ghost use Rattle.p3_networks.specs.declared.groups.Order.{Order};

use crate::butterfly_layers::rules::{Decimation, Dif, Dit};
use crate::chunks::{ChunkWork, chunk, on_each_chunk};
use crate::groups::Order;
use p3_field::{PackedField, Products, TwoAdicField};
use p3_matrix::packs::full_packs;
use std::marker::PhantomData;

/// A decimation of networks: the order of the layers, and what becomes of pairs of entries that lie one after
/// another.
pub(crate) trait NetworkDecimation<F: TwoAdicField>: Decimation<F> {
    ghost order: { Order };

    /// Which layers of its networks come first.
    fn order(self) -> Order
        ensures { result ≡ order };

    /// One pack of pairs, each with a twiddle of its own.
    fn on_pack<P: PackedField<Scalar = F>>(
        self,
        twiddles: &[F],
        values: &mut [F],
        products: &mut Products,
    )
        requires twiddles { length twiddles.now ≡ P.WIDTH }
        requires size { length values.old ≡ 2 * P.WIDTH }
        ensures pairs { MeetByTwiddles F.Valued.own (Self.near F.Element F.ring F.value self)
            (Self.far F.Element F.ring F.value self) P.WIDTH twiddles.now values.old values.new }
        ensures count { products.new ≡ products.old + P.WIDTH };

    ghost cost_law: { 1 ≤ Self.cost };
}

impl<F: TwoAdicField, const FREE: bool> NetworkDecimation<F> for Dit<FREE> {
    ghost use Rattle.std.proofs.Common.{lit≤};
    ghost use Rattle.p3_networks.specs.declared.groups.Order.TheVariants.{LargestFirst};

    ghost order = { LargestFirst };

    #[inline(always)]
    fn order(self) -> Order {
        Order::LargestFirst
    }

    #[inline(always)]
    fn on_pack<P: PackedField<Scalar = F>>(
        self,
        twiddles: &[F],
        values: &mut [F],
        products: &mut Products,
    ) {
        let (first, second) = P::load_pairs(values);
        let multiples = second.multiplied(P::load(twiddles), products);
        first
            .add(multiples)
            .store_pairs(first.sub(multiples), values);
    }

    ghost cost_law = { lit≤ tt };
}

impl<F: TwoAdicField> NetworkDecimation<F> for Dif {
    ghost use Rattle.std.proofs.Common.{lit≤};
    ghost use Rattle.p3_networks.specs.declared.groups.Order.TheVariants.{SmallestFirst};

    ghost order = { SmallestFirst };

    #[inline(always)]
    fn order(self) -> Order {
        Order::SmallestFirst
    }

    #[inline(always)]
    fn on_pack<P: PackedField<Scalar = F>>(
        self,
        twiddles: &[F],
        values: &mut [F],
        products: &mut Products,
    ) {
        let (first, second) = P::load_pairs(values);
        let multiples = first.sub(second).multiplied(P::load(twiddles), products);
        first.add(second).store_pairs(multiples, values);
    }

    ghost cost_law = { lit≤ tt };
}

/// A decimation on pairs of entries that lie one after another: those of pair i meet by twiddle i.
pub(crate) fn on_pairs<F: TwoAdicField, D: NetworkDecimation<F>>(
    decimation: D,
    twiddles: &[F],
    values: &mut [F],
    products: &mut Products,
)
    requires { length values.old ≡ 2 * length twiddles.now }
    ensures pairs { MeetByTwiddles F.Valued.own (D.near F.Element F.ring F.value decimation)
        (D.far F.Element F.ring F.value decimation) (length twiddles.now) twiddles.now values.old values.new }
    ensures cost { RisesAtMost (length twiddles.now) products.old products.new }
{
    let full = full_packs(twiddles.len(), F::Packing::WIDTH);
    let (packed, others) = twiddles.split_at(full);
    let (packed_pairs, other_pairs) = values.split_at_mut(2 * full);
    on_packs::<F, F::Packing, D>(decimation, packed, packed_pairs, products);
    on_packs::<F, F, D>(decimation, others, other_pairs, products);
}

// On pairs that fill packs.
fn on_packs<F: TwoAdicField, P: PackedField<Scalar = F>, D: NetworkDecimation<F>>(
    decimation: D,
    twiddles: &[F],
    values: &mut [F],
    products: &mut Products,
)
    requires width { 1 ≤ P.WIDTH }
    requires whole { (k : ℕ) × length twiddles.now ≡ k * P.WIDTH }
    requires size { length values.old ≡ 2 * length twiddles.now }
    ensures pairs { MeetByTwiddles F.Valued.own (D.near F.Element F.ring F.value decimation)
        (D.far F.Element F.ring F.value decimation) (length twiddles.now) twiddles.now values.old values.new }
    ensures cost { RisesAtMost (length twiddles.now) products.old products.new }
{
    let width = P::WIDTH;
    let count = twiddles.len() / width;
    if count > 0 {
        let packs = Packs::<F, P, D> {
            decimation,
            twiddles,
            of: PhantomData,
        };
        on_each_chunk(packs, values, 2 * width, count, products);
    }
}

// Packs of pairs, with as many twiddles.
#[derive(Drop)]
struct Packs<'a, F, P, D> {
    decimation: D,
    twiddles: &'a [F],
    of: PhantomData<P>,
}

impl<F: TwoAdicField, P: PackedField<Scalar = F>, D: NetworkDecimation<F>> ChunkWork<F>
    for Packs<'_, F, P, D> {
    ghost accepts = { λ it n size. (size ≡ 2 * P.WIDTH) × (n * P.WIDTH + P.WIDTH ≤ length it.twiddles.now) };

    ghost takes = { λ it n. MeetByTwiddles F.Valued.own (D.near F.Element F.ring F.value it.decimation)
        (D.far F.Element F.ring F.value it.decimation) P.WIDTH (chunk_of P.WIDTH n it.twiddles.now) };

    ghost cost = { λ it size. size };

    #[inline(always)]
    fn on_chunk(&self, number: usize, values: &mut [F], products: &mut Products) {
        let twiddles = chunk(self.twiddles, P::WIDTH, number);
        self.decimation.on_pack::<P>(twiddles, values, products);
    }
}
