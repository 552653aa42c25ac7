// The builder's refusals.
ghost use Rattle.std.specs.Prelude.{◌≡◌, ◌+◌, ◌*◌, ◌/◌, ◌≤◌};
ghost use Rattle.lists.specs.Lists.{among};
ghost use Rattle.complex.specs.Builder.{too_large, repeats, offence, is_short, check_of, pentachorons, rooms_of};
ghost use Rattle.complex.specs.Lent.{lists_in};

use crate::ListsMut;
use refusals::Refusal;

// The lengths of the lent lists.
#[derive(Clone, Copy)]
pub struct Rooms {
    pub pents: usize,
    pub edges: usize,
    pub triangles: usize,
    pub tets: usize,
    pub tri_to_pents_items: usize,
    pub tri_to_pents_starts: usize,
    pub edge_to_tris_items: usize,
    pub edge_to_tris_starts: usize,
    pub edge_to_pents_items: usize,
    pub edge_to_pents_starts: usize,
}

impl ListsMut<'_> {
    // The lengths of these lists.
    #[tactic(auto, unfolding(crate::specs::Builder::rooms_of))]
    pub fn rooms(&self) -> Rooms
        ensures { result ≡ rooms_of (lists_in self.now) }
    {
        Rooms {
            pents: self.pents.len(),
            edges: self.edges.len(),
            triangles: self.triangles.len(),
            tets: self.tets.len(),
            tri_to_pents_items: self.tri_to_pents_items.len(),
            tri_to_pents_starts: self.tri_to_pents_starts.len(),
            edge_to_tris_items: self.edge_to_tris_items.len(),
            edge_to_tris_starts: self.edge_to_tris_starts.len(),
            edge_to_pents_items: self.edge_to_pents_items.len(),
            edge_to_pents_starts: self.edge_to_pents_starts.len(),
        }
    }
}

// Whether some number is not below n.
pub fn too_large(n: usize, numbers: &[u32]) -> bool
    ensures { result ≡ too_large n numbers.now }
{
    numbers.iter().any(|v| n <= *v as usize)
}

// Whether v is among these numbers. No `contains`: it calls a search by groups, which takes longer for so few.
pub fn has(v: u32, pent: &[u32]) -> bool
    ensures { result ≡ among v pent.now }
{
    pent.iter().any(|vertex| *vertex == v)
}

// Whether some number stands twice, by pairs: for few numbers.
pub fn repeats(numbers: &[u32]) -> bool
    ensures { result ≡ repeats numbers.now }
{
    numbers
        .iter()
        .enumerate()
        .any(|(i, v)| has(*v, &numbers[i + 1..]))
}

// The refusal of the earliest offending pentachoron.
fn offence(n: usize, given: &[u32]) -> Result<(), Refusal>
    ensures { result ≡ offence n 0 (pentachorons given.now) }
{
    for (k, pent) in given.chunks_exact(5).enumerate() {
        if too_large(n, pent) {
            return Err(Refusal::VertexTooLarge(k));
        }
        if repeats(pent) {
            return Err(Refusal::RepeatedVertex(k));
        }
    }
    Ok(())
}

// Whether some lent list is shorter than its room for p pentachorons.
#[tactic(auto, unfolding(crate::specs::Builder::is_short))]
fn is_short(p: usize, rooms: Rooms) -> bool
    requires { p ≤ 8192 }
    ensures { result ≡ is_short p rooms }
{
    let starts = 10 * p + 1;
    rooms.pents < 5 * p
        || rooms.edges < 20 * p
        || rooms.triangles < 30 * p
        || rooms.tets < 20 * p
        || rooms.tri_to_pents_items < 10 * p
        || rooms.tri_to_pents_starts < starts
        || rooms.edge_to_tris_items < 30 * p
        || rooms.edge_to_tris_starts < starts
        || rooms.edge_to_pents_items < 10 * p
        || rooms.edge_to_pents_starts < starts
}

// The builder's checks: vertex count, list length, room, then the vertices.
#[tactic(auto, unfolding(crate::specs::Builder::check_of))]
pub fn check(n_vertices: usize, given: &[u32], rooms: Rooms) -> Result<(), Refusal>
    ensures { result ≡ check_of n_vertices given.now rooms }
{
    let len = given.len();
    if n_vertices == 0 || 4096 < n_vertices {
        return Err(Refusal::VertexCount);
    }
    if len % 5 != 0 || 40960 < len {
        return Err(Refusal::ListLength);
    }
    if is_short(len / 5, rooms) {
        return Err(Refusal::ShortRoom);
    }
    offence(n_vertices, given)
}
