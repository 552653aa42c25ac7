// The table of hinges in one pass over the pentachorons: sums and first kinds, then deficits and kinds, in the same two lists.
// Two lists and no list of pairs: they are lent over the C interface.
#![tactic(auto)]

ghost use Rattle.std.specs.Prelude.{◌≡◌, map, ◌≤◌, ◌<◌, length, get_or, set};
ghost use Rattle.std.specs.Float.{nan};
ghost use Rattle.lists.specs.Lists.{upto};
ghost use Rattle.lists.specs.Rows.{over};
ghost use Rattle.lists.specs.Groups.{Below};
ghost use Rattle.lists.specs.Loops.{scatter};
ghost use Rattle.lorentzian.specs.Dihedral.{kind_number};
ghost use Rattle.hinges.specs.Hinges.{faces_of, kind_in, plus, closed, pass_dihedrals, hinges, deficits_of, kinds_of};
ghost use Rattle.hinges.specs.Parts.{IsPassable};
ghost use Rattle.one_pass.specs.Pass.{byte_of_first, ten_events};

use complex::{Complex, Incidence};
use hinges::{byte_of, closed, first, kind_in, pent_sq_lengths};
use incidence::{PentachoronNumber, TriangleNumber, pent_edge_indices, pent_tri_indices};
use lorentzian::{Dihedral, compute_dihedral, ten_dihedrals};

// ---- the pass

// One dihedral more at a triangle.
#[tactic(auto, unfolding(crate::specs::Pass::byte_of_first, hinges::specs::Hinges::plus))]
fn add_dihedral(tri: TriangleNumber, dihedral: Dihedral, sums: &mut [f64], kinds: &mut [u8])
    requires { (tri.0 < length sums.old) × (tri.0 < length kinds.old) }
    ensures { (sums.new ≡ set sums.old tri.0 (plus (get_or sums.old tri.0 nan) dihedral))
        × (kinds.new ≡ set kinds.old tri.0 (byte_of_first (get_or kinds.old tri.0 0) dihedral)) }
{
    let t = tri.0 as usize;
    sums[t] += dihedral.value();
    kinds[t] = byte_of(first(kind_in(kinds[t]), dihedral));
}

// The ten dihedrals of a pentachoron, each at the triangle that its pair of vertices leaves.
fn add_ten(tris: &[u32], dihedrals: [Dihedral; 10], sums: &mut [f64], kinds: &mut [u8])
    requires { (length tris.now ≡ 10) × Below tris.now (length sums.old) × Below tris.now (length kinds.old) }
    ensures { (sums.new ≡ scatter nan plus (ten_events tris.now dihedrals) sums.old)
        × (kinds.new ≡ scatter 0 byte_of_first (ten_events tris.now dihedrals) kinds.old) }
{
    for (tri, dihedral) in tris.iter().rev().zip(dihedrals.iter()) {
        add_dihedral(TriangleNumber(*tri), *dihedral, sums, kinds);
    }
}

// The dihedrals of all pentachorons, in their order.
#[tactic(auto, unfolding(lists::specs::Lists::gather, lists::specs::Loops::scatter))]
fn add_all_dihedrals<'a>(
    complex: &Complex<'a>,
    incidence: &Incidence<'a>,
    sq_lengths: &'a [f64],
    sums: &mut [f64],
    kinds: &mut [u8],
)
    requires { IsPassable complex.now incidence.now (length sq_lengths.now)
        × (complex.now.counts.triangles ≤ length sums.old) × (complex.now.counts.triangles ≤ length kinds.old) }
    ensures { (sums.new ≡ scatter nan plus (pass_dihedrals (faces_of complex.now) sq_lengths.now) sums.old)
        × (kinds.new ≡ scatter 0 byte_of_first (pass_dihedrals (faces_of complex.now) sq_lengths.now) kinds.old) }
{
    for p in 0..complex.counts.pentachorons {
        let pent = PentachoronNumber(p as u32);
        let own = pent_edge_indices(complex, incidence, pent);
        let tris = pent_tri_indices(complex, incidence, pent);
        let s = pent_sq_lengths(own, sq_lengths);
        let dihedrals = ten_dihedrals(&s, compute_dihedral);
        add_ten(tris, dihedrals, sums, kinds);
    }
}

// ---- after the pass

// Sums and first kinds become deficits and kinds.
#[tactic(auto, unfolding(lists::specs::Lists::upto))]
fn close_all(sums: &mut [f64], kinds: &mut [u8])
    requires { length kinds.old ≡ length sums.old }
    ensures { (sums.new ≡ map (λ t. (closed (kind_in (get_or kinds.old t 0)) (get_or sums.old t nan)).deficit) (upto (length sums.old)))
        × (kinds.new ≡ map (λ t. kind_number (closed (kind_in (get_or kinds.old t 0)) (get_or sums.old t nan)).kind) (upto (length sums.old))) }
{
    // By the index: after a zip of two `iter_mut` a proof knows the lists' lengths and no entry.
    for k in 0..sums.len() {
        let hinge = closed(kind_in(kinds[k]), sums[k]);
        sums[k] = hinge.deficit;
        kinds[k] = byte_of(Some(hinge.kind));
    }
}

// ---- the whole

// The deficits and kinds of all triangles.
pub fn write_table<'a>(
    complex: &Complex<'a>,
    incidence: &Incidence<'a>,
    sq_lengths: &'a [f64],
    deficits: &mut [f64],
    kinds: &mut [u8],
)
    requires { IsPassable complex.now incidence.now (length sq_lengths.now)
        × (complex.now.counts.triangles ≤ length deficits.old) × (complex.now.counts.triangles ≤ length kinds.old) }
    ensures { (deficits.new ≡ over (deficits_of (hinges (faces_of complex.now) sq_lengths.now)) deficits.old)
        × (kinds.new ≡ over (kinds_of (hinges (faces_of complex.now) sq_lengths.now)) kinds.old) }
{
    let sums = &mut deficits[..complex.counts.triangles];
    let firsts = &mut kinds[..complex.counts.triangles];
    sums.fill(0.0);
    firsts.fill(byte_of(None));
    add_all_dihedrals(complex, incidence, sq_lengths, sums, firsts);
    close_all(sums, firsts);
}
