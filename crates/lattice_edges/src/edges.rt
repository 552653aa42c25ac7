// The edges of a lattice: their types and flat squared lengths, by the coordinates of their two vertices.
ghost use Rattle.std.specs.Prelude.{◌≡◌, ◌/◌, ◌^◌, ◌≤◌, ◌<◌, length};
ghost use Rattle.std.proofs.Math.IntN.{sub_ℕ};
ghost use Rattle.std.specs.Float.{binary64};
ghost use Rattle.std.specs.Float.Ieee.{of_int};
ghost use Rattle.lattice_edges.specs.Edges.{WritesEntries, type_byte, edge_type_of, min_image, sq_length_of};

use foliation::LawfulLattice;

// How an edge lies in the foliation.
#[derive(Clone, Copy)]
pub enum EdgeType {
    // In one slice.
    Spatial,
    // Between the same places of two slices.
    Timelike,
    // Between different places of two slices.
    Diagonal,
}

impl EdgeType {
    // The byte that C takes. A method, since `u8::from(kind)` would not say what the number is.
    pub fn byte(self) -> u8
        ensures { result ≡ type_byte self }
    {
        self as u8
    }
}

// The type of the edge from vertex a to vertex b.
pub fn edge_type(lawful: LawfulLattice, a: u32, b: u32) -> EdgeType
    ensures { result ≡ edge_type_of lawful.lattice a b }
{
    let n_t = lawful.lattice.n_t;
    let p = a as usize;
    let q = b as usize;
    if p % n_t == q % n_t {
        return EdgeType::Spatial;
    }
    if p / n_t == q / n_t {
        return EdgeType::Timelike;
    }
    EdgeType::Diagonal
}

// The double of b - a.
fn difference(a: usize, b: usize) -> f64
    requires { (a < 2 ^ 40) × (b < 2 ^ 40) }
    ensures { result ≡ of_int binary64 (sub_ℕ b a) }
{
    (b as i64 - a as i64) as f64
}

// The shortest step from a to b along an axis of n points, as a double.
fn min_image(a: usize, b: usize, n: usize) -> f64
    requires { (a < 2 ^ 33) × (b < 2 ^ 33) × (n < 2 ^ 33) }
    ensures { result ≡ of_int binary64 (min_image a b n) }
{
    let half = n / 2;
    if a + half < b {
        return difference(a + n, b);
    }
    if b + half < a {
        return difference(a, b + n);
    }
    difference(a, b)
}

// The squared length of the edge from vertex a to vertex b.
pub fn sq_length(lawful: LawfulLattice, a: u32, b: u32, spacing: f64, dt: f64) -> f64
    ensures { result ≡ sq_length_of lawful.lattice a b spacing dt }
{
    let n_t = lawful.lattice.n_t;
    let n_s = lawful.lattice.n_s;
    let p = lawful.vertex_coords_4d(a as usize);
    let q = lawful.vertex_coords_4d(b as usize);
    let delta_t = min_image(p.t, q.t, n_t) * dt;
    let delta_x = min_image(p.x, q.x, n_s) * spacing;
    let delta_y = min_image(p.y, q.y, n_s) * spacing;
    let delta_z = min_image(p.z, q.z, n_s) * spacing;
    -delta_t * delta_t + delta_x * delta_x + delta_y * delta_y + delta_z * delta_z
}

// What is made of each edge's two vertices goes to the front of a list.
pub fn write_entries<T: Copy, F: Fn(LawfulLattice, u32, u32) -> T>(
    lawful: LawfulLattice,
    edges: &[u32],
    list: &mut [T],
    entry: F,
)
    requires room { length edges.now / 2 ≤ length list.old }
    requires callable { F.IsAlwaysCallable entry }
    ensures { WritesEntries (F.post entry) lawful edges.now list.old list.new }
{
    for (k, slot) in list[..edges.len() / 2].iter_mut().enumerate() {
        *slot = entry(lawful, edges[2 * k], edges[2 * k + 1]);
    }
}
