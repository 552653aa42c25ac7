// A lattice of a lawful size, and its vertices: their number, and each by its coordinates.
ghost use Rattle.std.specs.Prelude.{◌≡◌, true};
ghost use Rattle.foliation.specs.Lattice.{vertex_count, is_lawful, vertex, coords_of};

use crate::Lattice;

// The coordinates of a vertex, or of the cell that starts at it.
#[derive(Clone, Copy)]
pub struct Coords {
    pub t: usize,
    pub x: usize,
    pub y: usize,
    pub z: usize,
}

// A lattice whose size is lawful.
#[derive(Clone, Copy)]
pub struct LawfulLattice {
    pub lattice: Lattice,
    ghost lawful: { is_lawful lattice ≡ true },
}

impl LawfulLattice {
    // How many vertices the lattice has.
    pub fn n_total(self) -> usize
        ensures { result ≡ vertex_count self.lattice }
    {
        let n_s = self.lattice.n_s;
        self.lattice.n_t * (n_s * (n_s * n_s))
    }

    // The vertex at `at`: the Rust's `vidx`.
    pub(crate) fn vidx(self, at: Coords) -> u32
        ensures { result ≡ vertex self.lattice at }
    {
        let n_t = self.lattice.n_t;
        let n_s = self.lattice.n_s;
        let space = at.x % n_s + n_s * (at.y % n_s + n_s * (at.z % n_s));
        (at.t % n_t + n_t * space) as u32
    }

    // The coordinates of vertex `idx`.
    pub fn vertex_coords_4d(self, idx: usize) -> Coords
        ensures { result ≡ coords_of self.lattice idx }
    {
        let n_t = self.lattice.n_t;
        let n_s = self.lattice.n_s;
        let rest = idx / n_t;
        Coords {
            t: idx % n_t,
            x: rest % n_s,
            y: rest / n_s % n_s,
            z: rest / (n_s * n_s),
        }
    }
}
