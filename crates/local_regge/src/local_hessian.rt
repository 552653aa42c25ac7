// The local Hessian of the action.
ghost use Rattle.std.specs.Prelude.{◌*◌, ◌<◌, ltb, length};
ghost use Rattle.complex.specs.Lent.{lists_of};
ghost use Rattle.hinges.specs.Hinges.{faces_of};
ghost use Rattle.hessian.specs.Hessian.{local_hessian};
ghost use Rattle.calls.specs.Calls.{lengths_check_of, free_check_of, built_check_of, room_check_of, Filled};

use calls::{BuiltComplex, check_complex, check_free, check_lengths, check_room};
use complex::Complex;
use hessian::write_hessian;
use refusals::Refusal;

// `local_lorentzian_regge_hessian` of a built complex: a row for each free edge, one after the other. A refused call leaves the list as
// it was; otherwise the places that are not written are kept.
pub fn local_lorentzian_regge_hessian_built(
    built: &BuiltComplex<'_>,
    sq_lengths: &[f64],
    free_edges: &[u32],
    fd_eps: f64,
    hessian: &mut [f64],
) -> Result<(), Refusal>
    ensures { Filled (lengths_check_of built.now.complex.counts (length sq_lengths.now) (free_check_of built.now.complex.counts free_edges.now (room_check_of (ltb (length hessian.old) (length free_edges.now * length free_edges.now)))))
        (local_hessian (faces_of built.now.complex) sq_lengths.now free_edges.now fd_eps) hessian.old result hessian.new }
{
    let counts = built.complex.counts;
    check_lengths(counts, sq_lengths.len())?;
    check_free(counts, free_edges)?;
    let n = free_edges.len();
    check_room(hessian.len() < n * n)?;
    write_hessian(
        &built.complex,
        &built.incidence,
        sq_lengths,
        free_edges,
        fd_eps,
        hessian,
    );
    Ok(())
}

// `local_lorentzian_regge_hessian`: the second derivatives of the action by the squared lengths of free edges, a row for each, one
// after the other. A refused call leaves the list as it was; otherwise the places that are not written are kept.
pub fn local_lorentzian_regge_hessian(
    complex: &Complex<'_>,
    sq_lengths: &[f64],
    free_edges: &[u32],
    fd_eps: f64,
    hessian: &mut [f64],
) -> Result<(), Refusal>
    ensures { Filled (built_check_of complex.now.counts (lists_of complex.now)
        (lengths_check_of complex.now.counts (length sq_lengths.now) (free_check_of complex.now.counts free_edges.now (room_check_of (ltb (length hessian.old) (length free_edges.now * length free_edges.now))))))
        (local_hessian (faces_of complex.now) sq_lengths.now free_edges.now fd_eps) hessian.old result hessian.new }
{
    let mut pent_edges = [0u32; 81920];
    let mut pent_tris = [0u32; 81920];
    let built = check_complex(*complex, &mut pent_edges, &mut pent_tris)?;
    local_lorentzian_regge_hessian_built(&built, sq_lengths, free_edges, fd_eps, hessian)
}
