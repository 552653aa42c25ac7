// The matrix of second derivatives: as many rows as columns.
ghost use Rattle.std.specs.Prelude.{◌*◌, ◌≤◌, length};

// n rows of n entries, lent one row after the other in a list that may go on past them.
#[derive(Drop)]
pub struct SquareMatrix<'m> {
    pub n: usize,
    pub entries: &'m mut [f64],
    ghost room: { n * n ≤ length entries.now },
}

impl SquareMatrix<'_> {
    ghost use Rattle.std.specs.Prelude.{◌≡◌, ◌<◌, IfSome};
    ghost use Rattle.floats.specs.Ops.{◌⊕◌};
    ghost use Rattle.second_derivatives.specs.Parts.{place_of, placed_in, before};
    ghost use Rattle.second_derivatives.specs.Matrix.{Scattered};

    // Where a row and a column stand among the entries; none where there is no such row or column.
    fn place(&self, row: usize, col: usize) -> Option<usize>
        ensures value { result ≡ place_of self.now.n row col }
        ensures inside { IfSome result (λ k. k < length self.now.entries.now) }
    {
        let n = self.n;
        if row < n && col < n {
            Some(row * n + col)
        } else {
            None
        }
    }

    // A value more in a row and a column, where there are such.
    pub(crate) fn add(&mut self, row: usize, col: usize, x: f64)
        ensures { Scattered ◌⊕◌ (placed_in self.old.n row col x) self.old self.new }
    {
        if let Some(k) = self.place(row, col) {
            self.entries[k] += x;
        }
    }

    // A value before what a row and a column hold, where there are such.
    pub(crate) fn put_before(&mut self, row: usize, col: usize, x: f64)
        ensures { Scattered before (placed_in self.old.n row col x) self.old self.new }
    {
        if let Some(k) = self.place(row, col) {
            self.entries[k] = (0.0 + x) + self.entries[k];
        }
    }
}
