// The library's functions for C and Rust to call, on numbers and slices alone. So that C can call them, refusals and kinds are numbers,
// five numbers are the counts and three those of signs, what a call writes beside its number is lent, and a complex's ten lists are each
// a parameter: the C interface needs it in every function of this crate's files.
#![tactic(auto)]

mod local;
mod regge;
mod retouching;

ghost use Rattle.std.specs.Prelude.{◌≡◌, map};
ghost use Rattle.refusals.specs.Refusals.{number_in, value_or};
ghost use Rattle.floats.specs.Algebra.{doubles};
ghost use Rattle.floats.specs.Methods.{abs_of, signum_of, clamp_unit_of};
ghost use Rattle.root.specs.Root.{root_of};
ghost use Rattle.fdlibm.specs.Log.{log_of};
ghost use Rattle.fdlibm.specs.Log1p.{log1p_of};
ghost use Rattle.fdlibm.specs.Acos.{acos_of};
ghost use Rattle.fdlibm.specs.Acosh.{acosh_of};
ghost use Rattle.fdlibm.specs.Asinh.{asinh_of};
ghost use Rattle.complex.specs.Builder.{lists};
ghost use Rattle.complex.specs.Check.{edges_in};
ghost use Rattle.lattice_edges.specs.Edges.{types_of, lengths_of};
ghost use Rattle.geometry.specs.CayleyMenger.{cm, cofactors};
ghost use Rattle.geometry.specs.Answer.{cofactor_answer};
ghost use Rattle.lorentzian.specs.Triangle.{area_sq, area_sq_grad, grad_answer};
ghost use Rattle.lorentzian.specs.Dihedral as Dihedral;
ghost use Rattle.lorentzian.specs.Dihedral.{kind_number_of, value_of, compute_dihedral, dihedral_answer, kind_or};
ghost use Rattle.jacobian.specs.Jacobian.{all_dihedrals, jacobian};
ghost use Rattle.boundary.specs.Counts.{counts_of_list};
ghost use Rattle.exports.specs.Complexes.{Built, Checked};
ghost use Rattle.exports.specs.Lattices.{lattice_of, Listed, Filled};

use boundary::{complex_of, counts_list, counts_of};
use builder::from_pentachorons;
use comparison::check_built;
use complex::ListsMut;
use foliation::{Lattice, foliated_hypercubic};
use geometry::cofactor_6x6;
use jacobian::all_lorentzian_dihedrals;
use lattice_edges::{edge_types, flat_minkowski_sq_lengths};
use lorentzian::{kind_in, lorentzian_dihedral, value_in};
use refusals::{number_in, place_in};

// ---- floats, the root and fdlibm

#[unsafe(no_mangle)]
pub extern "C" fn cjapthumi_root(x: f64) -> f64
    ensures { result ≡ root_of x }
{
    root::root(x)
}

#[unsafe(no_mangle)]
pub extern "C" fn cjapthumi_log(x: f64) -> f64
    ensures { result ≡ log_of x }
{
    fdlibm::log(x)
}

#[unsafe(no_mangle)]
pub extern "C" fn cjapthumi_log1p(x: f64) -> f64
    ensures { result ≡ log1p_of x }
{
    fdlibm::log1p(x)
}

#[unsafe(no_mangle)]
pub extern "C" fn cjapthumi_acos(x: f64) -> f64
    ensures { result ≡ acos_of x }
{
    fdlibm::acos(x)
}

#[unsafe(no_mangle)]
pub extern "C" fn cjapthumi_acosh(x: f64) -> f64
    ensures { result ≡ acosh_of x }
{
    fdlibm::acosh(x)
}

#[unsafe(no_mangle)]
pub extern "C" fn cjapthumi_asinh(x: f64) -> f64
    ensures { result ≡ asinh_of x }
{
    fdlibm::asinh(x)
}

#[unsafe(no_mangle)]
pub extern "C" fn cjapthumi_abs(x: f64) -> f64
    ensures { result ≡ abs_of x }
{
    floats::abs(x)
}

#[unsafe(no_mangle)]
pub extern "C" fn cjapthumi_signum(x: f64) -> f64
    ensures { result ≡ signum_of x }
{
    floats::signum(x)
}

#[unsafe(no_mangle)]
pub extern "C" fn cjapthumi_clamp_unit(x: f64) -> f64
    ensures { result ≡ clamp_unit_of x }
{
    floats::clamp_unit(x)
}

// ---- geometry

// A refused call returns the refusal's number, whose place is 0, and changes nothing; an answer returns 0.

#[unsafe(no_mangle)]
pub extern "C" fn cjapthumi_cofactor_6x6(
    m: &[[f64; 6]; 6],
    row: usize,
    col: usize,
    value: &mut f64,
) -> u32
    ensures { (result ≡ number_in (cofactor_answer m.now row col))
        × (value.new ≡ value_or (cofactor_answer m.now row col) value.old) }
{
    let cofactor = cofactor_6x6(m, row, col);
    *value = cofactor.unwrap_or(*value);
    number_in(&cofactor)
}

#[unsafe(no_mangle)]
pub extern "C" fn cjapthumi_cm_matrix_signed(s: &[f64; 10], m: &mut [[f64; 6]; 6])
    ensures { m.new ≡ cm doubles s.now }
{
    *m = geometry::cm_matrix_signed(s);
}

#[unsafe(no_mangle)]
pub extern "C" fn cjapthumi_cm_cofactors(s: &[f64; 10], c: &mut [f64; 15])
    ensures { c.new ≡ cofactors doubles s.now }
{
    *c = geometry::cm_cofactors(s);
}

// ---- triangles and dihedrals

#[unsafe(no_mangle)]
pub extern "C" fn cjapthumi_triangle_area_sq_lorentzian(s01: f64, s02: f64, s12: f64) -> f64
    ensures { result ≡ area_sq s01 s02 s12 }
{
    lorentzian::triangle_area_sq_lorentzian(s01, s02, s12)
}

#[unsafe(no_mangle)]
pub extern "C" fn cjapthumi_triangle_area_sq_grad(s01: f64, s02: f64, s12: f64, grad: &mut [f64; 3])
    ensures { grad.new ≡ area_sq_grad s01 s02 s12 }
{
    *grad = lorentzian::triangle_area_sq_grad(s01, s02, s12);
}

#[unsafe(no_mangle)]
pub extern "C" fn cjapthumi_tri_area_sq_grad_in_pent(
    s: &[f64; 10],
    tri: &[usize; 3],
    grad: &mut [f64; 10],
) -> u32
    ensures value { result ≡ number_in (grad_answer s.now tri.now) }
    ensures grad_after { grad.new ≡ value_or (grad_answer s.now tri.now) grad.old }
{
    let answer = lorentzian::tri_area_sq_grad_in_pent(s, *tri);
    *grad = answer.unwrap_or(*grad);
    number_in(&answer)
}

// The kind is 0 for Spacelike and 1 for Timelike.
#[unsafe(no_mangle)]
pub extern "C" fn cjapthumi_compute_dihedral(c_lm: f64, c_ll: f64, c_mm: f64, value: &mut f64) -> u8
    ensures { (result ≡ kind_number_of (compute_dihedral c_lm c_ll c_mm))
        × (value.new ≡ value_of (compute_dihedral c_lm c_ll c_mm)) }
{
    let dihedral = lorentzian::compute_dihedral(c_lm, c_ll, c_mm);
    *value = dihedral.value();
    dihedral.kind_number()
}

#[unsafe(no_mangle)]
pub extern "C" fn cjapthumi_lorentzian_dihedral(
    s: &[f64; 10],
    l: usize,
    m: usize,
    value: &mut f64,
    kind: &mut u8,
) -> u32
    ensures { (result ≡ number_in (dihedral_answer s.now l m))
        × (value.new ≡ Dihedral.value_or (dihedral_answer s.now l m) value.old)
        × (kind.new ≡ kind_or (dihedral_answer s.now l m) kind.old) }
{
    let dihedral = lorentzian_dihedral(s, l, m);
    *value = value_in(&dihedral, *value);
    *kind = kind_in(&dihedral, *kind);
    number_in(&dihedral)
}

#[unsafe(no_mangle)]
pub extern "C" fn cjapthumi_all_lorentzian_dihedrals(
    s: &[f64; 10],
    values: &mut [f64; 10],
    kinds: &mut [u8; 10],
)
    ensures { (values.new ≡ map value_of (all_dihedrals s.now))
        × (kinds.new ≡ map kind_number_of (all_dihedrals s.now)) }
{
    let d = all_lorentzian_dihedrals(s);
    *values = jacobian::dihedral_values(d);
    *kinds = jacobian::dihedral_kinds(d);
}

#[unsafe(no_mangle)]
pub extern "C" fn cjapthumi_all_lorentzian_dihedrals_jacobian(
    s: &[f64; 10],
    eps: f64,
    jac: &mut [f64; 100],
)
    ensures { jac.new ≡ jacobian s.now eps }
{
    *jac = jacobian::all_lorentzian_dihedrals_jacobian(s, eps);
}

// ---- complexes

// `counts` gets the numbers of vertices, pentachorons, edges, triangles and tets, and keeps its content where the call is refused.
// `place` gets the refusal's place, 0 where there is none.
#[unsafe(no_mangle)]
pub extern "C" fn cjapthumi_from_pentachorons(
    n_vertices: usize,
    given: &[u32],
    pents: &mut [u32],
    edges: &mut [u32],
    triangles: &mut [u32],
    tets: &mut [u32],
    tri_to_pents_items: &mut [u32],
    tri_to_pents_starts: &mut [u32],
    edge_to_tris_items: &mut [u32],
    edge_to_tris_starts: &mut [u32],
    edge_to_pents_items: &mut [u32],
    edge_to_pents_starts: &mut [u32],
    counts: &mut [usize; 5],
    place: &mut usize,
) -> u32
    ensures { Built n_vertices given.now
        (lists pents.old edges.old triangles.old tets.old
        tri_to_pents_items.old tri_to_pents_starts.old edge_to_tris_items.old edge_to_tris_starts.old
        edge_to_pents_items.old edge_to_pents_starts.old)
        counts.old result
        (lists pents.new edges.new triangles.new tets.new
        tri_to_pents_items.new tri_to_pents_starts.new edge_to_tris_items.new edge_to_tris_starts.new
        edge_to_pents_items.new edge_to_pents_starts.new)
        counts.new place.new }
{
    let mut lists = ListsMut {
        pents,
        edges,
        triangles,
        tets,
        tri_to_pents_items,
        tri_to_pents_starts,
        edge_to_tris_items,
        edge_to_tris_starts,
        edge_to_pents_items,
        edge_to_pents_starts,
    };
    let built = from_pentachorons(n_vertices, given, &mut lists);
    *counts = counts_list(built.unwrap_or(counts_of(*counts)));
    *place = place_in(&built);
    number_in(&built)
}

#[unsafe(no_mangle)]
pub extern "C" fn cjapthumi_check_built(
    counts: &[usize; 5],
    pents: &[u32],
    edges: &[u32],
    triangles: &[u32],
    tets: &[u32],
    tri_to_pents_items: &[u32],
    tri_to_pents_starts: &[u32],
    edge_to_tris_items: &[u32],
    edge_to_tris_starts: &[u32],
    edge_to_pents_items: &[u32],
    edge_to_pents_starts: &[u32],
    pent_edges: &mut [u32],
    pent_tris: &mut [u32],
) -> u32
    ensures { Checked counts.now (lists pents.now edges.now triangles.now tets.now
        tri_to_pents_items.now tri_to_pents_starts.now edge_to_tris_items.now edge_to_tris_starts.now
        edge_to_pents_items.now edge_to_pents_starts.now)
        pent_edges.old pent_tris.old result pent_edges.new pent_tris.new }
{
    let complex = complex_of(
        counts,
        pents,
        edges,
        triangles,
        tets,
        tri_to_pents_items,
        tri_to_pents_starts,
        edge_to_tris_items,
        edge_to_tris_starts,
        edge_to_pents_items,
        edge_to_pents_starts,
    );
    let outcome = check_built(&complex, pent_edges, pent_tris);
    number_in(&outcome)
}

// ---- lattices

// `count` gets the number of pentachorons, and keeps its content where the call is refused.
#[unsafe(no_mangle)]
pub extern "C" fn cjapthumi_foliated_hypercubic(
    n_t: usize,
    n_s: usize,
    pents: &mut [u32],
    count: &mut usize,
) -> u32
    ensures { Listed (lattice_of n_t n_s) pents.old count.old result pents.new count.new }
{
    let listed = foliated_hypercubic(lattice_of(n_t, n_s), pents);
    *count = listed.unwrap_or(*count);
    number_in(&listed)
}

// A type is 0 for Spatial, 1 for Timelike and 2 for Diagonal.
#[unsafe(no_mangle)]
pub extern "C" fn cjapthumi_edge_types(
    n_t: usize,
    n_s: usize,
    counts: &[usize; 5],
    pents: &[u32],
    edges: &[u32],
    triangles: &[u32],
    tets: &[u32],
    tri_to_pents_items: &[u32],
    tri_to_pents_starts: &[u32],
    edge_to_tris_items: &[u32],
    edge_to_tris_starts: &[u32],
    edge_to_pents_items: &[u32],
    edge_to_pents_starts: &[u32],
    types: &mut [u8],
) -> u32
    ensures { Filled (lattice_of n_t n_s) counts.now (lists pents.now edges.now triangles.now tets.now
        tri_to_pents_items.now tri_to_pents_starts.now edge_to_tris_items.now edge_to_tris_starts.now
        edge_to_pents_items.now edge_to_pents_starts.now)
        (types_of (lattice_of n_t n_s) (edges_in (counts_of_list counts.now) edges.now)) types.old result types.new }
{
    let complex = complex_of(
        counts,
        pents,
        edges,
        triangles,
        tets,
        tri_to_pents_items,
        tri_to_pents_starts,
        edge_to_tris_items,
        edge_to_tris_starts,
        edge_to_pents_items,
        edge_to_pents_starts,
    );
    let outcome = edge_types(lattice_of(n_t, n_s), &complex, types);
    number_in(&outcome)
}

#[unsafe(no_mangle)]
pub extern "C" fn cjapthumi_flat_minkowski_sq_lengths(
    n_t: usize,
    n_s: usize,
    counts: &[usize; 5],
    pents: &[u32],
    edges: &[u32],
    triangles: &[u32],
    tets: &[u32],
    tri_to_pents_items: &[u32],
    tri_to_pents_starts: &[u32],
    edge_to_tris_items: &[u32],
    edge_to_tris_starts: &[u32],
    edge_to_pents_items: &[u32],
    edge_to_pents_starts: &[u32],
    spacing: f64,
    dt: f64,
    sq_lengths: &mut [f64],
) -> u32
    ensures { Filled (lattice_of n_t n_s) counts.now (lists pents.now edges.now triangles.now tets.now
        tri_to_pents_items.now tri_to_pents_starts.now edge_to_tris_items.now edge_to_tris_starts.now
        edge_to_pents_items.now edge_to_pents_starts.now)
        (lengths_of (lattice_of n_t n_s) (edges_in (counts_of_list counts.now) edges.now) spacing dt) sq_lengths.old result sq_lengths.new }
{
    let complex = complex_of(
        counts,
        pents,
        edges,
        triangles,
        tets,
        tri_to_pents_items,
        tri_to_pents_starts,
        edge_to_tris_items,
        edge_to_tris_starts,
        edge_to_pents_items,
        edge_to_pents_starts,
    );
    let outcome = flat_minkowski_sq_lengths(
        lattice_of(n_t, n_s),
        &complex,
        spacing,
        dt,
        sq_lengths,
    );
    number_in(&outcome)
}

// Two sizes as a lattice. By a function: C passes the sizes apart.
fn lattice_of(n_t: usize, n_s: usize) -> Lattice
    ensures { result ≡ lattice_of n_t n_s }
{
    Lattice { n_t: n_t, n_s: n_s }
}
