// The retouch of a built complex for C. Each list is a parameter, as the C interface needs it.
ghost use Rattle.complex.specs.Builder.{lists};
ghost use Rattle.calls.specs.Calls.{BuiltWith};
ghost use Rattle.boundary.specs.Counts.{counts_of_list};
ghost use Rattle.boundary.specs.Hinges.{trusting};
ghost use Rattle.boundary.specs.Retouching.{TableRetouch};

use boundary::complex_of;
use calls::BuiltComplex;
use complex::Incidence;
use incidence::EdgeNumber;
use refusals::number_in;
use retouch::retouch_built;

// Stores `sq_length` at `edge` and brings the deficits and kinds up to date.
#[unsafe(no_mangle)]
pub extern "C" fn cjapthumi_retouch_built<'a>(
    counts: &'a [usize; 5],
    pents: &'a [u32],
    edges: &'a [u32],
    triangles: &'a [u32],
    tets: &'a [u32],
    tri_to_pents_items: &'a [u32],
    tri_to_pents_starts: &'a [u32],
    edge_to_tris_items: &'a [u32],
    edge_to_tris_starts: &'a [u32],
    edge_to_pents_items: &'a [u32],
    edge_to_pents_starts: &'a [u32],
    pent_edges: &'a [u32],
    pent_tris: &'a [u32],
    sq_lengths: &mut [f64],
    edge: u32,
    sq_length: f64,
    deficits: &mut [f64],
    kinds: &mut [u8],
) -> u32
    requires { BuiltWith (counts_of_list counts.now) (lists pents.now edges.now triangles.now tets.now
        tri_to_pents_items.now tri_to_pents_starts.now edge_to_tris_items.now edge_to_tris_starts.now
        edge_to_pents_items.now edge_to_pents_starts.now)
        pent_edges.now pent_tris.now }
    ensures { TableRetouch trusting counts.now (lists pents.now edges.now triangles.now tets.now
        tri_to_pents_items.now tri_to_pents_starts.now edge_to_tris_items.now edge_to_tris_starts.now
        edge_to_pents_items.now edge_to_pents_starts.now)
        sq_lengths.old edge sq_length deficits.old kinds.old result sq_lengths.new deficits.new kinds.new }
{
    let complex = complex_of(
        counts,
        pents,
        edges,
        triangles,
        tets,
        tri_to_pents_items,
        tri_to_pents_starts,
        edge_to_tris_items,
        edge_to_tris_starts,
        edge_to_pents_items,
        edge_to_pents_starts,
    );
    let built = BuiltComplex {
        complex,
        incidence: Incidence {
            pent_edges,
            pent_tris,
        },
    };
    let answer = retouch_built(
        &built,
        sq_lengths,
        EdgeNumber(edge),
        sq_length,
        deficits,
        kinds,
    );
    number_in(&answer)
}
