// The complex of a list of pentachorons: faces numbered by first meeting, and adjacency lists.
#![tactic(auto)]

mod adjacency_lists;
mod checks;
mod numbering;
mod sorting;

pub use adjacency_lists::{adjacency, edge_at};
pub use checks::{Rooms, check, has, repeats, too_large};
pub use numbering::{Face, FaceCounts, number_all};
pub use sorting::{sort_all, sorted};

// How many of each kind a complex has.
#[derive(Clone, Copy, Debug, PartialEq, Eq)]
pub struct Counts {
    pub vertices: usize,
    pub pentachorons: usize,
    pub edges: usize,
    pub triangles: usize,
    pub tets: usize,
}

// ---- lent lists

// For each key the numbers of the rows in which it lies, ascending, one key after the other, and where those of each key start.
#[derive(Clone, Copy)]
pub struct AdjacencyList<'a> {
    pub items: &'a [u32],
    pub starts: &'a [u32],
}

// A complex as it is lent: its counts, its faces by their vertices, and its adjacency lists. A list may go on past what is counted.
#[derive(Clone, Copy)]
pub struct Complex<'a> {
    pub counts: Counts,
    pub pents: &'a [u32],
    pub edges: &'a [u32],
    pub triangles: &'a [u32],
    pub tets: &'a [u32],
    pub tri_to_pents: AdjacencyList<'a>,
    pub edge_to_tris: AdjacencyList<'a>,
    pub edge_to_pents: AdjacencyList<'a>,
}

// The numbers of the ten edges and of the ten triangles of each pentachoron.
#[derive(Clone, Copy)]
pub struct Incidence<'a> {
    pub pent_edges: &'a [u32],
    pub pent_tris: &'a [u32],
}

// The ten lists of a complex, lent to be written. The adjacency lists are no structs in it, since the borrow checker does not cover
// structs in a struct that hold parameters of ten lifetimes, as the lists that C lends.
#[derive(Drop)]
pub struct ListsMut<'a> {
    pub pents: &'a mut [u32],
    pub edges: &'a mut [u32],
    pub triangles: &'a mut [u32],
    pub tets: &'a mut [u32],
    pub tri_to_pents_items: &'a mut [u32],
    pub tri_to_pents_starts: &'a mut [u32],
    pub edge_to_tris_items: &'a mut [u32],
    pub edge_to_tris_starts: &'a mut [u32],
    pub edge_to_pents_items: &'a mut [u32],
    pub edge_to_pents_starts: &'a mut [u32],
}
