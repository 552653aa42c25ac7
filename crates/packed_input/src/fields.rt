// The parts of the input: the header, the vertices of the pentachorons, the bits after them, and the squared lengths.
ghost use Rattle.std.specs.Prelude.{◌≡◌, ◌+◌, ◌*◌, ◌≤◌, length};
ghost use Rattle.lists.specs.Rows.{over};
ghost use Rattle.packed_input.specs.Format.{vertex_count, pent_count, vertices_end, vertices, lengths_start, sq_lengths_in};
ghost use Rattle.packed_input.specs.Decoding.{tail_check_of};

use crate::bits::{number, read_numbers};
use refusals::Refusal;

// ---- the format

// The bits of the vertex count, of the pentachoron count, and of both.
const VERTEX_COUNT_BITS: usize = 13;

const PENT_COUNT_BITS: usize = 14;

const HEADER_BITS: usize = VERTEX_COUNT_BITS + PENT_COUNT_BITS;

// The bits of a vertex, of a pentachoron, and of a squared length.
const VERTEX_BITS: usize = 12;

const PENT_BITS: usize = 5 * VERTEX_BITS;

const LENGTH_BITS: usize = 64;

// The bytes that hold a header, and the bytes of a squared length.
const HEADER_BYTES: usize = 4;

const LENGTH_BYTES: usize = LENGTH_BITS / 8;

// The most pentachorons that an input may have.
const MOST_PENTS: usize = 64;

// ---- its parts

// Where the parts of an input lie that has so many pentachorons.
#[derive(Clone, Copy)]
pub struct Layout {
    pub n_pents: usize,
    ghost few: { n_pents ≤ 64 },
}

impl Layout {
    // The bit after the last vertex.
    fn vertices_end(self) -> usize
        ensures { result ≡ vertices_end self.n_pents }
    {
        HEADER_BITS + PENT_BITS * self.n_pents
    }

    // The byte at which the lengths start.
    fn lengths_start(self) -> usize
        ensures { result ≡ lengths_start self.n_pents }
    {
        self.vertices_end().div_ceil(8)
    }
}

// An input whose header and vertices are there: its bytes, its vertex count, and where its parts lie.
#[derive(Clone, Copy)]
pub struct Packed<'a> {
    pub bytes: &'a [u8],
    pub n_vertices: usize,
    pub layout: Layout,
    ghost vertices_read: { n_vertices ≡ vertex_count bytes.now },
    ghost pents_read: { layout.n_pents ≡ pent_count bytes.now },
    ghost whole: { vertices_end layout.n_pents ≤ 8 * length bytes.now },
}

impl<'a> Packed<'a> {
    ghost use Rattle.packed_input.specs.Parts.{Reads};

    // BadInput for a short header, TooManyPentachorons for more than 64, BadInput for vertices that are cut short.
    pub fn read(bytes: &'a [u8]) -> Result<Packed<'a>, Refusal>
        ensures { Reads bytes.now result }
    {
        if bytes.len() < HEADER_BYTES {
            return Err(Refusal::BadInput);
        }
        let n_vertices = number(bytes, 0, VERTEX_COUNT_BITS) as usize;
        let n_pents = number(bytes, VERTEX_COUNT_BITS, PENT_COUNT_BITS) as usize;
        if MOST_PENTS < n_pents {
            return Err(Refusal::TooManyPentachorons);
        }
        let layout = Layout { n_pents };
        if bytes.len() < layout.lengths_start() {
            return Err(Refusal::BadInput);
        }
        Ok(Packed {
            bytes,
            n_vertices,
            layout,
        })
    }

    // Writes the vertices of the pentachorons to the front of a list.
    pub fn read_vertices(&self, given: &mut [u32])
        requires { 5 * self.now.layout.n_pents ≤ length given.old }
        ensures { given.new ≡ over (vertices self.now.bytes.now self.now.layout.n_pents) given.old }
    {
        let front = &mut given[..5 * self.layout.n_pents];
        read_numbers(self.bytes, HEADER_BITS, VERTEX_BITS, front, |n| n as u32);
    }

    // BadInput for a bit that is set between vertices and lengths, or lengths that do not end the input exactly.
    pub fn check_tail(&self, n_edges: usize) -> Result<(), Refusal>
        requires { n_edges ≤ 640 }
        ensures { result ≡ tail_check_of self.now.bytes.now self.now.layout.n_pents n_edges }
    {
        let start = self.layout.lengths_start();
        let end = self.layout.vertices_end();
        let input = self.bytes;
        if input.len() != start + LENGTH_BYTES * n_edges
            || number(input, end, 8 * start - end) != 0
        {
            return Err(Refusal::BadInput);
        }
        Ok(())
    }

    // Fills a list with the squared lengths.
    pub fn read_lengths(&self, sq_lengths: &mut [f64])
        requires { (length sq_lengths.old ≤ 640) × (lengths_start self.now.layout.n_pents + 8 * length sq_lengths.old ≤ length self.now.bytes.now) }
        ensures { sq_lengths.new ≡ sq_lengths_in self.now.bytes.now self.now.layout.n_pents (length sq_lengths.old) }
    {
        let at = 8 * self.layout.lengths_start();
        read_numbers(
            self.bytes,
            at,
            LENGTH_BITS,
            sq_lengths,
            |n| floats::of_bits(n),
        );
    }
}
