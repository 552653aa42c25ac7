// The refusals of all layers, each with the number that C is given and the pentachoron that it names. A call that can be refused
// answers a `Result` with a `Refusal` as its error. Nothing else matches on the cases, so that a new one costs this crate alone.
#![tactic(auto)]

ghost use Rattle.std.specs.Prelude.{◌≡◌, Some};
ghost use Rattle.refusals.specs.Refusals.{number_of, place_of, number_in, place_in};
ghost use Rattle.refusals.specs.Text.{refusal_text};

use std::fmt;

#[derive(Clone, Copy, Debug, PartialEq, Eq)]
pub enum Refusal {
    // The vertex count is 0 or above 4,096.
    VertexCount,
    // The length of the pentachoron list is no multiple of 5, or above 40,960.
    ListLength,
    // A vertex of this pentachoron is not below the vertex count.
    VertexTooLarge(usize),
    // A vertex of this pentachoron is repeated.
    RepeatedVertex(usize),
    // A lent list or output is shorter than its room.
    ShortRoom,
    // A lattice's n_t or n_s, or its number of cells, is out of range.
    LatticeSize,
    // The counts or lists are not what the builder writes.
    NotBuilt,
    // There are not as many lengths as edges.
    LengthCount,
    // An edge number is not below the number of edges.
    EdgeTooLarge,
    // A free edge is given twice.
    RepeatedEdge,
    // A row, a column or a vertex of a pentachoron is out of range, or both vertices are the same.
    BadIndex,
    // The program's input is cut short, has a pad bit set, or does not end with its lengths.
    BadInput,
    // The program's input has more than 64 pentachorons.
    TooManyPentachorons,
}

impl Refusal {
    // The number of the refused condition. By a match: a case that holds a place has no number of its own to convert to.
    pub fn number(self) -> u32
        ensures { result ≡ number_of self }
    {
        match self {
            Refusal::VertexCount => 1,
            Refusal::ListLength => 2,
            Refusal::VertexTooLarge(_) => 3,
            Refusal::RepeatedVertex(_) => 4,
            Refusal::ShortRoom => 5,
            Refusal::LatticeSize => 6,
            Refusal::NotBuilt => 7,
            Refusal::LengthCount => 8,
            Refusal::EdgeTooLarge => 9,
            Refusal::RepeatedEdge => 10,
            Refusal::BadIndex => 11,
            Refusal::BadInput => 12,
            Refusal::TooManyPentachorons => 13,
        }
    }

    // The number of the refused pentachoron, 0 for a refusal that has none, as C is given it.
    pub fn place(self) -> usize
        ensures { result ≡ place_of self }
    {
        match self {
            Refusal::VertexTooLarge(pentachoron) => pentachoron,
            Refusal::RepeatedVertex(pentachoron) => pentachoron,
            Refusal::VertexCount
            | Refusal::ListLength
            | Refusal::ShortRoom
            | Refusal::LatticeSize
            | Refusal::NotBuilt
            | Refusal::LengthCount
            | Refusal::EdgeTooLarge
            | Refusal::RepeatedEdge
            | Refusal::BadIndex
            | Refusal::BadInput
            | Refusal::TooManyPentachorons => 0,
        }
    }
}

// As the programs print it: `refused`, its number and its place.
impl fmt::Display for Refusal {
    ghost output = { λ refusal. Some (refusal_text refusal) };

    fn fmt<W: fmt::Write>(&self, f: &mut fmt::Formatter<W>) -> fmt::Result {
        write!(f, "refused {} {}", self.number(), self.place())
    }
}

// The number of an answer's refusal, 0 where the call answered, as C is given it.
pub fn number_in<T>(answer: &Result<T, Refusal>) -> u32
    ensures { result ≡ number_in answer.now }
{
    match answer {
        Ok(_) => 0,
        Err(refusal) => refusal.number(),
    }
}

// The place of an answer's refusal, 0 where the call answered, as C is given it.
pub fn place_in<T>(answer: &Result<T, Refusal>) -> usize
    ensures { result ≡ place_in answer.now }
{
    let Err(refusal) = answer else { return 0 };
    refusal.place()
}
