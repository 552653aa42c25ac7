// The program's input, bit-packed, most significant bit first, decoded to a built complex and its squared lengths.
#![tactic(auto)]

mod bits;
mod fields;

ghost use Rattle.std.specs.Prelude.{◌≡◌, length};
ghost use Rattle.complex.specs.Builder.{lists_after, rooms_of};
ghost use Rattle.complex.specs.Check.{room_for};
ghost use Rattle.complex.specs.Lent.{lists_of, lists_in, SameLists};
ghost use Rattle.packed_input.specs.Decoding.{complex_of, complex_check_of, given_in, decoded_of, lengths_after, lists_held, Decodes};

use builder::from_pentachorons;
use complex::{AdjacencyList, Complex, Counts, ListsMut};
use fields::Packed;
use refusals::Refusal;

// The ten lists of a decoded complex, with room for 64 pentachorons; what is not written is zero. Items and starts stand apart, as in
// `ListsMut`, to which they are lent.
#[derive(Clone, Copy)]
pub struct DecodedLists {
    pub pents: [u32; 320],
    pub edges: [u32; 1280],
    pub triangles: [u32; 1920],
    pub tets: [u32; 1280],
    pub tri_to_pents_items: [u32; 640],
    pub tri_to_pents_starts: [u32; 641],
    pub edge_to_tris_items: [u32; 1920],
    pub edge_to_tris_starts: [u32; 641],
    pub edge_to_pents_items: [u32; 640],
    pub edge_to_pents_starts: [u32; 641],
}

impl DecodedLists {
    // The lists, lent as the complex that has these counts.
    pub fn complex(&self, counts: Counts) -> Complex<'_>
        ensures counts { result.counts ≡ counts }
        ensures lists { lists_of result ≡ lists_held self.now }
    {
        Complex {
            counts,
            pents: &self.pents,
            edges: &self.edges,
            triangles: &self.triangles,
            tets: &self.tets,
            tri_to_pents: AdjacencyList {
                items: &self.tri_to_pents_items,
                starts: &self.tri_to_pents_starts,
            },
            edge_to_tris: AdjacencyList {
                items: &self.edge_to_tris_items,
                starts: &self.edge_to_tris_starts,
            },
            edge_to_pents: AdjacencyList {
                items: &self.edge_to_pents_items,
                starts: &self.edge_to_pents_starts,
            },
        }
    }
}

// A decoded input: the counts of its complex or the refusal, the lists of the complex, and its squared lengths in the order of
// the edges, of which 640 have room; what is not written is zero. No `Result` of it all: the lists are there after a refusal too.
#[derive(Clone, Copy)]
pub struct Decoded {
    pub answer: Result<Counts, Refusal>,
    pub lists: DecodedLists,
    pub sq_lengths: [f64; 640],
}

// The input's complex: the builder's answer. A refused call leaves every list as it was.
fn decode_complex(packed: &Packed<'_>, lists: &mut ListsMut<'_>) -> Result<Counts, Refusal>
    requires { rooms_of (lists_in lists.old) ≡ room_for 64 }
    ensures same { SameLists lists.old lists.new }
    ensures value { result ≡ complex_of packed.now.bytes.now }
    ensures lists_after { lists_in lists.new ≡ lists_after (complex_check_of packed.now.bytes.now) (given_in packed.now.bytes.now) (lists_in lists.old) }
{
    let mut given = [0u32; 320];
    packed.read_vertices(&mut given);
    from_pentachorons(
        packed.n_vertices,
        &given[..5 * packed.layout.n_pents],
        lists,
    )
}

// The counts of the input's complex, its lists and its lengths. A refused call leaves the lengths as they were, and where the header or
// the builder refuses it every list too.
fn decode_parts(
    input: &[u8],
    lists: &mut ListsMut<'_>,
    sq_lengths: &mut [f64],
) -> Result<Counts, Refusal>
    requires rooms { rooms_of (lists_in lists.old) ≡ room_for 64 }
    requires places { length sq_lengths.old ≡ 640 }
    ensures same { SameLists lists.old lists.new }
    ensures value { result ≡ decoded_of input.now }
    ensures lists_after { lists_in lists.new ≡ lists_after (complex_check_of input.now) (given_in input.now) (lists_in lists.old) }
    ensures lengths { sq_lengths.new ≡ lengths_after input.now result sq_lengths.old }
{
    let packed = Packed::read(input)?;
    let counts = decode_complex(&packed, lists)?;
    packed.check_tail(counts.edges)?;
    packed.read_lengths(&mut sq_lengths[..counts.edges]);
    Ok(counts)
}

// Decodes the program's input. The checks come in this order: those of the header, the builder's, and that of the tail.
pub fn decode(input: &[u8]) -> Decoded
    ensures { Decodes input.now result.answer (lists_held result.lists) result.sq_lengths }
{
    let mut lists = DecodedLists {
        pents: [0; 320],
        edges: [0; 1280],
        triangles: [0; 1920],
        tets: [0; 1280],
        tri_to_pents_items: [0; 640],
        tri_to_pents_starts: [0; 641],
        edge_to_tris_items: [0; 1920],
        edge_to_tris_starts: [0; 641],
        edge_to_pents_items: [0; 640],
        edge_to_pents_starts: [0; 641],
    };
    let mut sq_lengths = [0.0; 640];
    let mut lent = ListsMut {
        pents: &mut lists.pents,
        edges: &mut lists.edges,
        triangles: &mut lists.triangles,
        tets: &mut lists.tets,
        tri_to_pents_items: &mut lists.tri_to_pents_items,
        tri_to_pents_starts: &mut lists.tri_to_pents_starts,
        edge_to_tris_items: &mut lists.edge_to_tris_items,
        edge_to_tris_starts: &mut lists.edge_to_tris_starts,
        edge_to_pents_items: &mut lists.edge_to_pents_items,
        edge_to_pents_starts: &mut lists.edge_to_pents_starts,
    };
    let answer = decode_parts(input, &mut lent, &mut sq_lengths);
    Decoded {
        answer,
        lists,
        sq_lengths,
    }
}
