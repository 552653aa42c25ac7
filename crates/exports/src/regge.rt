// Hinges, action, gradient and length signs for C. A refused call returns the refusal's number, whose place is 0, and changes
// nothing; an answer returns 0. A kind is 0 for Spacelike and 1 for Timelike. Each list is a parameter, as the C interface needs it.
ghost use Rattle.std.specs.Prelude.{◌≡◌};
ghost use Rattle.length_signs.specs.LengthSigns.{signs_of};
ghost use Rattle.complex.specs.Builder.{lists};
ghost use Rattle.boundary.specs.Hinges.{checking, Tabled, HingeCall, ActionCall, Graded};
ghost use Rattle.exports.specs.Signs.{signs_list};

use boundary::complex_of;
use incidence::TriangleNumber;
use length_signs::{LengthSigns, length_signs};
use lorentzian_regge::{
    lorentzian_deficit_angle, lorentzian_deficit_angles, lorentzian_regge_action,
    lorentzian_regge_action_grad,
};
use refusals::number_in;

#[unsafe(no_mangle)]
pub extern "C" fn cjapthumi_lorentzian_deficit_angles<'a>(
    counts: &'a [usize; 5],
    pents: &'a [u32],
    edges: &'a [u32],
    triangles: &'a [u32],
    tets: &'a [u32],
    tri_to_pents_items: &'a [u32],
    tri_to_pents_starts: &'a [u32],
    edge_to_tris_items: &'a [u32],
    edge_to_tris_starts: &'a [u32],
    edge_to_pents_items: &'a [u32],
    edge_to_pents_starts: &'a [u32],
    sq_lengths: &'a [f64],
    deficits: &mut [f64],
    kinds: &mut [u8],
) -> u32
    ensures { Tabled checking counts.now (lists pents.now edges.now triangles.now tets.now
        tri_to_pents_items.now tri_to_pents_starts.now edge_to_tris_items.now edge_to_tris_starts.now
        edge_to_pents_items.now edge_to_pents_starts.now)
        sq_lengths.now deficits.old kinds.old result deficits.new kinds.new }
{
    let complex = complex_of(
        counts,
        pents,
        edges,
        triangles,
        tets,
        tri_to_pents_items,
        tri_to_pents_starts,
        edge_to_tris_items,
        edge_to_tris_starts,
        edge_to_pents_items,
        edge_to_pents_starts,
    );
    let answer = lorentzian_deficit_angles(&complex, sq_lengths, deficits, kinds);
    number_in(&answer)
}

#[unsafe(no_mangle)]
pub extern "C" fn cjapthumi_lorentzian_deficit_angle<'a>(
    counts: &'a [usize; 5],
    pents: &'a [u32],
    edges: &'a [u32],
    triangles: &'a [u32],
    tets: &'a [u32],
    tri_to_pents_items: &'a [u32],
    tri_to_pents_starts: &'a [u32],
    edge_to_tris_items: &'a [u32],
    edge_to_tris_starts: &'a [u32],
    edge_to_pents_items: &'a [u32],
    edge_to_pents_starts: &'a [u32],
    sq_lengths: &'a [f64],
    tri: u32,
    deficit: &mut f64,
    kind: &mut u8,
) -> u32
    ensures { HingeCall checking counts.now (lists pents.now edges.now triangles.now tets.now
        tri_to_pents_items.now tri_to_pents_starts.now edge_to_tris_items.now edge_to_tris_starts.now
        edge_to_pents_items.now edge_to_pents_starts.now)
        sq_lengths.now tri deficit.old kind.old result deficit.new kind.new }
{
    let complex = complex_of(
        counts,
        pents,
        edges,
        triangles,
        tets,
        tri_to_pents_items,
        tri_to_pents_starts,
        edge_to_tris_items,
        edge_to_tris_starts,
        edge_to_pents_items,
        edge_to_pents_starts,
    );
    let answer = lorentzian_deficit_angle(&complex, sq_lengths, TriangleNumber(tri));
    if let Ok(hinge) = answer {
        *deficit = hinge.deficit;
        *kind = hinge.kind.number();
    }
    number_in(&answer)
}

#[unsafe(no_mangle)]
pub extern "C" fn cjapthumi_lorentzian_regge_action<'a>(
    counts: &'a [usize; 5],
    pents: &'a [u32],
    edges: &'a [u32],
    triangles: &'a [u32],
    tets: &'a [u32],
    tri_to_pents_items: &'a [u32],
    tri_to_pents_starts: &'a [u32],
    edge_to_tris_items: &'a [u32],
    edge_to_tris_starts: &'a [u32],
    edge_to_pents_items: &'a [u32],
    edge_to_pents_starts: &'a [u32],
    sq_lengths: &'a [f64],
    action: &mut f64,
) -> u32
    ensures { ActionCall checking counts.now (lists pents.now edges.now triangles.now tets.now
        tri_to_pents_items.now tri_to_pents_starts.now edge_to_tris_items.now edge_to_tris_starts.now
        edge_to_pents_items.now edge_to_pents_starts.now)
        sq_lengths.now action.old result action.new }
{
    let complex = complex_of(
        counts,
        pents,
        edges,
        triangles,
        tets,
        tri_to_pents_items,
        tri_to_pents_starts,
        edge_to_tris_items,
        edge_to_tris_starts,
        edge_to_pents_items,
        edge_to_pents_starts,
    );
    let answer = lorentzian_regge_action(&complex, sq_lengths);
    *action = answer.unwrap_or(*action);
    number_in(&answer)
}

#[unsafe(no_mangle)]
pub extern "C" fn cjapthumi_lorentzian_regge_action_grad<'a>(
    counts: &'a [usize; 5],
    pents: &'a [u32],
    edges: &'a [u32],
    triangles: &'a [u32],
    tets: &'a [u32],
    tri_to_pents_items: &'a [u32],
    tri_to_pents_starts: &'a [u32],
    edge_to_tris_items: &'a [u32],
    edge_to_tris_starts: &'a [u32],
    edge_to_pents_items: &'a [u32],
    edge_to_pents_starts: &'a [u32],
    sq_lengths: &'a [f64],
    grad: &mut [f64],
) -> u32
    ensures { Graded checking counts.now (lists pents.now edges.now triangles.now tets.now
        tri_to_pents_items.now tri_to_pents_starts.now edge_to_tris_items.now edge_to_tris_starts.now
        edge_to_pents_items.now edge_to_pents_starts.now)
        sq_lengths.now grad.old result grad.new }
{
    let complex = complex_of(
        counts,
        pents,
        edges,
        triangles,
        tets,
        tri_to_pents_items,
        tri_to_pents_starts,
        edge_to_tris_items,
        edge_to_tris_starts,
        edge_to_pents_items,
        edge_to_pents_starts,
    );
    let answer = lorentzian_regge_action_grad(&complex, sq_lengths, grad);
    number_in(&answer)
}

// `signs` gets the counts of timelike, null and spacelike lengths.
#[unsafe(no_mangle)]
pub extern "C" fn cjapthumi_length_signs(sq_lengths: &[f64], signs: &mut [usize; 3])
    ensures { signs.new ≡ signs_list (signs_of sq_lengths.now) }
{
    *signs = signs_list(length_signs(sq_lengths));
}

// Counts of signs as three numbers, which C takes as a list. By a function: this crate may not write a `From` for types of other
// crates, and length_signs knows nothing of C.
fn signs_list(signs: LengthSigns) -> [usize; 3]
    ensures { result ≡ signs_list signs }
{
    [signs.timelike, signs.null, signs.spacelike]
}
