// Local deficits, local gradient and local Hessian for C. A refused call returns the refusal's number, whose place is 0, and changes
// nothing; an answer returns 0. A kind is 0 for Spacelike and 1 for Timelike. Each list is a parameter, as the C interface needs it.
ghost use Rattle.std.specs.Prelude.{length, ◌*◌};
ghost use Rattle.complex.specs.Builder.{lists};
ghost use Rattle.hinges.specs.Local.{local_gradient};
ghost use Rattle.hessian.specs.Hessian.{local_hessian};
ghost use Rattle.boundary.specs.Hinges.{faces_lent, checking};
ghost use Rattle.boundary.specs.Local.{LocalTable, LocalFill};

use boundary::complex_of;
use local_regge::{
    local_deficit_angles, local_lorentzian_regge_action_grad, local_lorentzian_regge_hessian,
};
use refusals::number_in;

// `count` gets how many hinges there are.
#[unsafe(no_mangle)]
pub extern "C" fn cjapthumi_local_deficit_angles<'a>(
    counts: &'a [usize; 5],
    pents: &'a [u32],
    edges: &'a [u32],
    triangles: &'a [u32],
    tets: &'a [u32],
    tri_to_pents_items: &'a [u32],
    tri_to_pents_starts: &'a [u32],
    edge_to_tris_items: &'a [u32],
    edge_to_tris_starts: &'a [u32],
    edge_to_pents_items: &'a [u32],
    edge_to_pents_starts: &'a [u32],
    sq_lengths: &'a [f64],
    free_edges: &'a [u32],
    tris: &mut [u32],
    deficits: &mut [f64],
    kinds: &mut [u8],
    count: &mut usize,
) -> u32
    ensures { LocalTable checking counts.now (lists pents.now edges.now triangles.now tets.now
        tri_to_pents_items.now tri_to_pents_starts.now edge_to_tris_items.now edge_to_tris_starts.now
        edge_to_pents_items.now edge_to_pents_starts.now)
        sq_lengths.now free_edges.now tris.old deficits.old kinds.old count.old result tris.new deficits.new kinds.new count.new }
{
    let complex = complex_of(
        counts,
        pents,
        edges,
        triangles,
        tets,
        tri_to_pents_items,
        tri_to_pents_starts,
        edge_to_tris_items,
        edge_to_tris_starts,
        edge_to_pents_items,
        edge_to_pents_starts,
    );
    let answer = local_deficit_angles(&complex, sq_lengths, free_edges, tris, deficits, kinds);
    *count = answer.unwrap_or(*count);
    number_in(&answer)
}

#[unsafe(no_mangle)]
pub extern "C" fn cjapthumi_local_lorentzian_regge_action_grad<'a>(
    counts: &'a [usize; 5],
    pents: &'a [u32],
    edges: &'a [u32],
    triangles: &'a [u32],
    tets: &'a [u32],
    tri_to_pents_items: &'a [u32],
    tri_to_pents_starts: &'a [u32],
    edge_to_tris_items: &'a [u32],
    edge_to_tris_starts: &'a [u32],
    edge_to_pents_items: &'a [u32],
    edge_to_pents_starts: &'a [u32],
    sq_lengths: &'a [f64],
    free_edges: &'a [u32],
    grad: &mut [f64],
) -> u32
    ensures { LocalFill checking counts.now (lists pents.now edges.now triangles.now tets.now
        tri_to_pents_items.now tri_to_pents_starts.now edge_to_tris_items.now edge_to_tris_starts.now
        edge_to_pents_items.now edge_to_pents_starts.now)
        sq_lengths.now free_edges.now (length free_edges.now)
        (local_gradient (faces_lent counts.now (lists pents.now edges.now triangles.now tets.now
        tri_to_pents_items.now tri_to_pents_starts.now edge_to_tris_items.now edge_to_tris_starts.now
        edge_to_pents_items.now edge_to_pents_starts.now)) sq_lengths.now free_edges.now)
        grad.old result grad.new }
{
    let complex = complex_of(
        counts,
        pents,
        edges,
        triangles,
        tets,
        tri_to_pents_items,
        tri_to_pents_starts,
        edge_to_tris_items,
        edge_to_tris_starts,
        edge_to_pents_items,
        edge_to_pents_starts,
    );
    let answer = local_lorentzian_regge_action_grad(&complex, sq_lengths, free_edges, grad);
    number_in(&answer)
}

#[unsafe(no_mangle)]
pub extern "C" fn cjapthumi_local_lorentzian_regge_hessian<'a>(
    counts: &'a [usize; 5],
    pents: &'a [u32],
    edges: &'a [u32],
    triangles: &'a [u32],
    tets: &'a [u32],
    tri_to_pents_items: &'a [u32],
    tri_to_pents_starts: &'a [u32],
    edge_to_tris_items: &'a [u32],
    edge_to_tris_starts: &'a [u32],
    edge_to_pents_items: &'a [u32],
    edge_to_pents_starts: &'a [u32],
    sq_lengths: &'a [f64],
    free_edges: &'a [u32],
    fd_eps: f64,
    hessian: &mut [f64],
) -> u32
    ensures { LocalFill checking counts.now (lists pents.now edges.now triangles.now tets.now
        tri_to_pents_items.now tri_to_pents_starts.now edge_to_tris_items.now edge_to_tris_starts.now
        edge_to_pents_items.now edge_to_pents_starts.now)
        sq_lengths.now free_edges.now (length free_edges.now * length free_edges.now)
        (local_hessian (faces_lent counts.now (lists pents.now edges.now triangles.now tets.now
        tri_to_pents_items.now tri_to_pents_starts.now edge_to_tris_items.now edge_to_tris_starts.now
        edge_to_pents_items.now edge_to_pents_starts.now)) sq_lengths.now free_edges.now fd_eps)
        hessian.old result hessian.new }
{
    let complex = complex_of(
        counts,
        pents,
        edges,
        triangles,
        tets,
        tri_to_pents_items,
        tri_to_pents_starts,
        edge_to_tris_items,
        edge_to_tris_starts,
        edge_to_pents_items,
        edge_to_pents_starts,
    );
    let answer = local_lorentzian_regge_hessian(&complex, sq_lengths, free_edges, fd_eps, hessian);
    number_in(&answer)
}
