// Hinges, action and gradient of a built complex for C. Each list is a parameter, as the C interface needs it.
ghost use Rattle.complex.specs.Builder.{lists};
ghost use Rattle.calls.specs.Calls.{BuiltWith};
ghost use Rattle.boundary.specs.Counts.{counts_of_list};
ghost use Rattle.boundary.specs.Hinges.{trusting, Tabled, HingeCall, ActionCall, Graded};

use boundary::complex_of;
use calls::BuiltComplex;
use complex::Incidence;
use incidence::TriangleNumber;
use lorentzian_regge::{
    lorentzian_deficit_angle_built, lorentzian_deficit_angles_built, lorentzian_regge_action_built,
    lorentzian_regge_action_grad_built,
};
use refusals::number_in;

// The deficits and kinds of all triangles.
#[unsafe(no_mangle)]
pub extern "C" fn cjapthumi_lorentzian_deficit_angles_built<'a>(
    counts: &'a [usize; 5],
    pents: &'a [u32],
    edges: &'a [u32],
    triangles: &'a [u32],
    tets: &'a [u32],
    tri_to_pents_items: &'a [u32],
    tri_to_pents_starts: &'a [u32],
    edge_to_tris_items: &'a [u32],
    edge_to_tris_starts: &'a [u32],
    edge_to_pents_items: &'a [u32],
    edge_to_pents_starts: &'a [u32],
    pent_edges: &'a [u32],
    pent_tris: &'a [u32],
    sq_lengths: &'a [f64],
    deficits: &mut [f64],
    kinds: &mut [u8],
) -> u32
    requires { BuiltWith (counts_of_list counts.now) (lists pents.now edges.now triangles.now tets.now
        tri_to_pents_items.now tri_to_pents_starts.now edge_to_tris_items.now edge_to_tris_starts.now
        edge_to_pents_items.now edge_to_pents_starts.now)
        pent_edges.now pent_tris.now }
    ensures { Tabled trusting counts.now (lists pents.now edges.now triangles.now tets.now
        tri_to_pents_items.now tri_to_pents_starts.now edge_to_tris_items.now edge_to_tris_starts.now
        edge_to_pents_items.now edge_to_pents_starts.now)
        sq_lengths.now deficits.old kinds.old result deficits.new kinds.new }
{
    let complex = complex_of(
        counts,
        pents,
        edges,
        triangles,
        tets,
        tri_to_pents_items,
        tri_to_pents_starts,
        edge_to_tris_items,
        edge_to_tris_starts,
        edge_to_pents_items,
        edge_to_pents_starts,
    );
    let built = BuiltComplex {
        complex,
        incidence: Incidence {
            pent_edges,
            pent_tris,
        },
    };
    let answer = lorentzian_deficit_angles_built(&built, sq_lengths, deficits, kinds);
    number_in(&answer)
}

// The deficit and the kind of one triangle.
#[unsafe(no_mangle)]
pub extern "C" fn cjapthumi_lorentzian_deficit_angle_built<'a>(
    counts: &'a [usize; 5],
    pents: &'a [u32],
    edges: &'a [u32],
    triangles: &'a [u32],
    tets: &'a [u32],
    tri_to_pents_items: &'a [u32],
    tri_to_pents_starts: &'a [u32],
    edge_to_tris_items: &'a [u32],
    edge_to_tris_starts: &'a [u32],
    edge_to_pents_items: &'a [u32],
    edge_to_pents_starts: &'a [u32],
    pent_edges: &'a [u32],
    pent_tris: &'a [u32],
    sq_lengths: &'a [f64],
    tri: u32,
    deficit: &mut f64,
    kind: &mut u8,
) -> u32
    requires { BuiltWith (counts_of_list counts.now) (lists pents.now edges.now triangles.now tets.now
        tri_to_pents_items.now tri_to_pents_starts.now edge_to_tris_items.now edge_to_tris_starts.now
        edge_to_pents_items.now edge_to_pents_starts.now)
        pent_edges.now pent_tris.now }
    ensures { HingeCall trusting counts.now (lists pents.now edges.now triangles.now tets.now
        tri_to_pents_items.now tri_to_pents_starts.now edge_to_tris_items.now edge_to_tris_starts.now
        edge_to_pents_items.now edge_to_pents_starts.now)
        sq_lengths.now tri deficit.old kind.old result deficit.new kind.new }
{
    let complex = complex_of(
        counts,
        pents,
        edges,
        triangles,
        tets,
        tri_to_pents_items,
        tri_to_pents_starts,
        edge_to_tris_items,
        edge_to_tris_starts,
        edge_to_pents_items,
        edge_to_pents_starts,
    );
    let built = BuiltComplex {
        complex,
        incidence: Incidence {
            pent_edges,
            pent_tris,
        },
    };
    let answer = lorentzian_deficit_angle_built(&built, sq_lengths, TriangleNumber(tri));
    if let Ok(hinge) = answer {
        *deficit = hinge.deficit;
        *kind = hinge.kind.number();
    }
    number_in(&answer)
}

// The action.
#[unsafe(no_mangle)]
pub extern "C" fn cjapthumi_lorentzian_regge_action_built<'a>(
    counts: &'a [usize; 5],
    pents: &'a [u32],
    edges: &'a [u32],
    triangles: &'a [u32],
    tets: &'a [u32],
    tri_to_pents_items: &'a [u32],
    tri_to_pents_starts: &'a [u32],
    edge_to_tris_items: &'a [u32],
    edge_to_tris_starts: &'a [u32],
    edge_to_pents_items: &'a [u32],
    edge_to_pents_starts: &'a [u32],
    pent_edges: &'a [u32],
    pent_tris: &'a [u32],
    sq_lengths: &'a [f64],
    action: &mut f64,
) -> u32
    requires { BuiltWith (counts_of_list counts.now) (lists pents.now edges.now triangles.now tets.now
        tri_to_pents_items.now tri_to_pents_starts.now edge_to_tris_items.now edge_to_tris_starts.now
        edge_to_pents_items.now edge_to_pents_starts.now)
        pent_edges.now pent_tris.now }
    ensures { ActionCall trusting counts.now (lists pents.now edges.now triangles.now tets.now
        tri_to_pents_items.now tri_to_pents_starts.now edge_to_tris_items.now edge_to_tris_starts.now
        edge_to_pents_items.now edge_to_pents_starts.now)
        sq_lengths.now action.old result action.new }
{
    let complex = complex_of(
        counts,
        pents,
        edges,
        triangles,
        tets,
        tri_to_pents_items,
        tri_to_pents_starts,
        edge_to_tris_items,
        edge_to_tris_starts,
        edge_to_pents_items,
        edge_to_pents_starts,
    );
    let built = BuiltComplex {
        complex,
        incidence: Incidence {
            pent_edges,
            pent_tris,
        },
    };
    let answer = lorentzian_regge_action_built(&built, sq_lengths);
    *action = answer.unwrap_or(*action);
    number_in(&answer)
}

// The action's gradient, an entry for each edge.
#[unsafe(no_mangle)]
pub extern "C" fn cjapthumi_lorentzian_regge_action_grad_built<'a>(
    counts: &'a [usize; 5],
    pents: &'a [u32],
    edges: &'a [u32],
    triangles: &'a [u32],
    tets: &'a [u32],
    tri_to_pents_items: &'a [u32],
    tri_to_pents_starts: &'a [u32],
    edge_to_tris_items: &'a [u32],
    edge_to_tris_starts: &'a [u32],
    edge_to_pents_items: &'a [u32],
    edge_to_pents_starts: &'a [u32],
    pent_edges: &'a [u32],
    pent_tris: &'a [u32],
    sq_lengths: &'a [f64],
    grad: &mut [f64],
) -> u32
    requires { BuiltWith (counts_of_list counts.now) (lists pents.now edges.now triangles.now tets.now
        tri_to_pents_items.now tri_to_pents_starts.now edge_to_tris_items.now edge_to_tris_starts.now
        edge_to_pents_items.now edge_to_pents_starts.now)
        pent_edges.now pent_tris.now }
    ensures { Graded trusting counts.now (lists pents.now edges.now triangles.now tets.now
        tri_to_pents_items.now tri_to_pents_starts.now edge_to_tris_items.now edge_to_tris_starts.now
        edge_to_pents_items.now edge_to_pents_starts.now)
        sq_lengths.now grad.old result grad.new }
{
    let complex = complex_of(
        counts,
        pents,
        edges,
        triangles,
        tets,
        tri_to_pents_items,
        tri_to_pents_starts,
        edge_to_tris_items,
        edge_to_tris_starts,
        edge_to_pents_items,
        edge_to_pents_starts,
    );
    let built = BuiltComplex {
        complex,
        incidence: Incidence {
            pent_edges,
            pent_tris,
        },
    };
    let answer = lorentzian_regge_action_grad_built(&built, sq_lengths, grad);
    number_in(&answer)
}
