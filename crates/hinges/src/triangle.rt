// The hinge of one triangle, from the pentachorons in which it lies.
ghost use Rattle.std.specs.Prelude.{◌≡◌, true, [], ◌<◌, length, get_or};
ghost use Rattle.lists.specs.Lists.{within};
ghost use Rattle.complex.specs.Lent.{pents_of, triangles_of};
ghost use Rattle.hinges.specs.Hinges.{faces_of, hinges, hinge_in, dihedral_in};
ghost use Rattle.hinges.specs.Parts.{IsMeasured};

use crate::hinge::{Hinge, closed, first};
use crate::pentachoron::pent_sq_lengths;
use complex::{Complex, Incidence};
use incidence::{
    PentachoronNumber, TriangleNumber, opposite_local_indices, pent_edge_indices, pents_of_triangle,
};
use lorentzian::{Dihedral, compute_dihedral, dihedral_at};

// The dihedral of a triangle in a pentachoron in which it lies.
fn dihedral_in<'a>(
    complex: &Complex<'a>,
    incidence: &Incidence<'a>,
    sq_lengths: &'a [f64],
    pent: PentachoronNumber,
    tri: TriangleNumber,
) -> Dihedral
    requires { IsMeasured complex.now incidence.now (length sq_lengths.now)
        × (pent.0 < complex.now.counts.pentachorons) × (tri.0 < complex.now.counts.triangles)
        × (within (get_or (triangles_of complex.now) tri.0 []) (get_or (pents_of complex.now) pent.0 []) ≡ true) }
    ensures { result ≡ dihedral_in (faces_of complex.now) sq_lengths.now (get_or (triangles_of complex.now) tri.0 []) pent.0 }
{
    let own = pent_edge_indices(complex, incidence, pent);
    let s = pent_sq_lengths(own, sq_lengths);
    let at = opposite_local_indices(complex, incidence, pent, tri);
    dihedral_at(&s, at.l, at.m, compute_dihedral)
}

// The hinge of a triangle, from all pentachorons in which it lies.
pub fn hinge_at<'a>(
    complex: &Complex<'a>,
    incidence: &Incidence<'a>,
    sq_lengths: &'a [f64],
    tri: TriangleNumber,
) -> Hinge
    requires { IsMeasured complex.now incidence.now (length sq_lengths.now)
        × (tri.0 < complex.now.counts.triangles) }
    ensures { result ≡ hinge_in (hinges (faces_of complex.now) sq_lengths.now) tri.0 }
{
    let mut sum = 0.0;
    let mut kind = None;
    for &pent in pents_of_triangle(complex, tri) {
        let dihedral = dihedral_in(complex, incidence, sq_lengths, PentachoronNumber(pent), tri);
        sum += dihedral.value();
        kind = first(kind, dihedral);
    }
    closed(kind, sum)
}
