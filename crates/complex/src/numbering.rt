// The faces of pentachorons, numbered by first meeting.
ghost use Rattle.std.specs.Prelude.{◌≡◌, [], ◌∷◌, ◌++◌, map, ◌+◌, ◌*◌, ◌-◌, ◌/◌, ◌≤◌, length, get_or, take, drop, replicate};
ghost use Rattle.lists.specs.Lists.{upto};
ghost use Rattle.lists.specs.Rows.{rows};
ghost use Rattle.complex.specs.Complex.{width_of, count_of, faces_of};
ghost use Rattle.complex.specs.Parts.{Faces, Numbered, AllFaces, AllNumbered};

use lists::{FlatRows, meet_rows};

// The kinds of faces that are numbered.
#[derive(Clone, Copy)]
pub enum Face {
    Edge,
    Triangle,
    Tet,
}

impl Face {
    // How many vertices a face has.
    pub fn width(self) -> usize
        ensures { result ≡ width_of self }
    {
        match self {
            Face::Edge => 2,
            Face::Triangle => 3,
            Face::Tet => 4,
        }
    }

    // How many such faces a pentachoron has.
    pub fn count(self) -> usize
        ensures { result ≡ count_of self }
    {
        match self {
            Face::Edge => 10,
            Face::Triangle => 10,
            Face::Tet => 5,
        }
    }

    // The faces of a pentachoron, in the order of the Rust's loops, and then zeros: fixed memory for every kind.
    #[tactic(auto, unfolding(lists::specs::Rows::rows, lists::specs::Lists::combos))]
    fn rows(self, a: u32, b: u32, c: u32, d: u32, e: u32) -> [u32; 30]
        ensures faces { rows (width_of self) (count_of self) result ≡ faces_of self (a ∷ b ∷ c ∷ d ∷ e ∷ []) }
        ensures zeros_after { drop (width_of self * count_of self) result ≡ replicate (30 - width_of self * count_of self) 0 }
    {
        match self {
            Face::Edge => [
                a, b, a, c, a, d, a, e, b, c, b, d, b, e, c, d, c, e, d, e, 0, 0, 0, 0, 0, 0, 0, 0,
                0, 0,
            ],
            Face::Triangle => [
                a, b, c, a, b, d, a, b, e, a, c, d, a, c, e, a, d, e, b, c, d, b, c, e, b, d, e, c,
                d, e,
            ],
            Face::Tet => [
                b, c, d, e, a, c, d, e, a, b, d, e, a, b, c, e, a, b, c, d, 0, 0, 0, 0, 0, 0, 0, 0,
                0, 0,
            ],
        }
    }

    // The same of a pentachoron in a list. A slice and no array of five: the clauses speak of `rows`, and the arrays of `as_chunks` would
    // need a lemma at each of four loops.
    pub fn rows_of(self, pent: &[u32]) -> [u32; 30]
        requires { length pent.now ≡ 5 }
        ensures faces { rows (width_of self) (count_of self) result ≡ faces_of self pent.now }
        ensures zeros_after { drop (width_of self * count_of self) result ≡ replicate (30 - width_of self * count_of self) 0 }
    {
        self.rows(pent[0], pent[1], pent[2], pent[3], pent[4])
    }
}

// The faces of all pentachorons are numbered. `next` links the chains of the search; `numbers` gets the number of each face
// as it is met. Answers how many faces there are.
pub fn number_faces(
    face: Face,
    pents: &[u32],
    list: &mut [u32],
    next: &mut [u32],
    numbers: &mut [u32],
) -> usize
    requires { Faces face (length pents.now / 5) (length pents.now) (length list.old) (length next.old) (length numbers.old) }
    ensures { Numbered face (rows 5 (length pents.now / 5) pents.now) list.old list.new numbers.old numbers.new result }
{
    let width = face.width();
    let count = face.count();
    let mut head = [0u32; 32768];
    let mut n = 0;
    for (k, pent) in pents.chunks_exact(5).enumerate() {
        let given = FlatRows {
            width,
            count,
            list: &face.rows_of(pent),
        };
        n = meet_rows(list, &mut head, next, n, &given, numbers, count * k);
    }
    n
}

// How many faces of each kind there are. No `Counts`, since the numbering knows of no vertex that is in no face.
#[derive(Clone, Copy)]
pub struct FaceCounts {
    pub edges: usize,
    pub triangles: usize,
    pub tets: usize,
}

// The faces of all three kinds are numbered, each kind in its own list. `next` links the chains of the search; `pent_edges` and
// `pent_tris` get the numbers of the edges and of the triangles as they are met. The lists are no `ListsMut`: the clauses would speak of
// six lists more, which are kept. The two lists of numbers are no struct: C lends them apart.
pub fn number_all(
    pents: &[u32],
    edges: &mut [u32],
    triangles: &mut [u32],
    tets: &mut [u32],
    next: &mut [u32],
    pent_edges: &mut [u32],
    pent_tris: &mut [u32],
) -> FaceCounts
    requires { AllFaces (length pents.now) (length edges.old) (length triangles.old) (length tets.old) (length next.old) (length pent_edges.old) (length pent_tris.old) }
    ensures { AllNumbered (rows 5 (length pents.now / 5) pents.now) edges.old edges.new triangles.old triangles.new
        tets.old tets.new pent_edges.old pent_edges.new pent_tris.old pent_tris.new result }
{
    let n_tets = number_faces(Face::Tet, pents, tets, next, pent_tris);
    let n_edges = number_faces(Face::Edge, pents, edges, next, pent_edges);
    let n_tris = number_faces(Face::Triangle, pents, triangles, next, pent_tris);
    FaceCounts {
        edges: n_edges,
        triangles: n_tris,
        tets: n_tets,
    }
}
