//! What the transform of an extension makes of the coefficients, as data.

ghost use Rattle.p3_matrix.specs.RowMajor.{HasShapeOf};

use p3_dft::{Field, Layout, RowMajorMatrix};

#[derive(Clone, Copy, PartialEq, Eq)]
pub enum Change {
    /// They stay.
    Nothing,
    /// Each is doubled.
    Doubled,
    /// The entry with number 1 stays, and the others are zero.
    EntryOneAlone,
    /// Each coefficient times its number plus two, as the layout tells which it is.
    Weighted,
    /// The entries come in reverse order.
    Reversed,
}

// The number whose binary digits are those of a row's number in reverse, of a power of two of rows.
fn reversed(row: usize, height: usize) -> usize {
    let unused = usize::BITS.saturating_sub(height.trailing_zeros());
    row.reverse_bits().checked_shr(unused).unwrap_or(0)
}

// The number of the coefficient in a row, plus two.
fn weight<F: Field>(layout: Layout, row: usize, height: usize) -> F {
    let coefficient = match layout {
        Layout::Natural => row,
        Layout::BitReversed => reversed(row, height),
    };
    F::from_usize(coefficient) + F::TWO
}

impl Change {
    // What becomes of the entry with number i, of a row of so many.
    fn entry<F: Field>(self, entry: F, i: usize, row: usize, height: usize, layout: Layout) -> F {
        match self {
            Change::Nothing | Change::Reversed => entry,
            Change::Doubled => entry.double(),
            Change::EntryOneAlone => { if i == 1 { entry } else { F::ZERO } }
            Change::Weighted => entry * weight(layout, row, height),
        }
    }

    // Each entry in its place.
    fn in_place<F: Field>(self, mat: RowMajorMatrix<F>, layout: Layout) -> RowMajorMatrix<F>
        ensures { HasShapeOf result mat }
    {
        let width = mat.width();
        let height = mat.height();
        let mut entries = mat.into_values();
        for i in 0..entries.len() {
            entries[i] = self.entry(entries[i], i, i / width, height, layout);
        }
        RowMajorMatrix::new(entries, width)
    }

    /// The changed coefficients.
    pub fn of<F: Field>(self, mat: RowMajorMatrix<F>, layout: Layout) -> RowMajorMatrix<F>
        ensures { HasShapeOf result mat }
    {
        match self {
            Change::Nothing => mat,
            Change::Reversed => reversed_entries(mat),
            _ => self.in_place(mat, layout),
        }
    }
}

// The entries in reverse order.
fn reversed_entries<F: Field>(mat: RowMajorMatrix<F>) -> RowMajorMatrix<F>
    ensures { HasShapeOf result mat }
{
    let width = mat.width();
    let mut entries = mat.into_values();
    entries.reverse();
    RowMajorMatrix::new(entries, width)
}
