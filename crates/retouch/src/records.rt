// Records of a table of hinges in two plain lists, worked out anew.
ghost use Rattle.std.specs.Prelude.{◌≡◌, ◌≤◌, length};
ghost use Rattle.lists.specs.Groups.{Below};
ghost use Rattle.lists.specs.Writes.{writes};
ghost use Rattle.lorentzian.specs.Dihedral.{kind_number};
ghost use Rattle.hinges.specs.Hinges.{faces_of, hinges, hinge_in};

use calls::BuiltComplex;
use hinges::{byte_of, hinge_at};
use incidence::TriangleNumber;

// Writes the deficits and kinds of the triangles of a list, each at its own place.
// A loop of its own beside that of `hinge_table`, which is the same but for what it stores: with one loop that calls a closure with each
// hinge the proof doesn't close, since of what the closure leaves in the lists that it borrows nothing is known; a trait of such stores,
// with its law and two impls, would be longer than both loops, as would a closure that takes the lists and a statement of all its calls.
pub fn write_records(
    built: &BuiltComplex<'_>,
    sq_lengths: &[f64],
    tris: &[u32],
    deficits: &mut [f64],
    kinds: &mut [u8],
)
    requires { (length sq_lengths.now ≡ built.now.complex.counts.edges)
        × Below tris.now built.now.complex.counts.triangles × (built.now.complex.counts.triangles ≤ length deficits.old) × (built.now.complex.counts.triangles ≤ length kinds.old) }
    ensures { (deficits.new ≡ writes (λ t. (hinge_in (hinges (faces_of built.now.complex) sq_lengths.now) t).deficit) tris.now deficits.old)
        × (kinds.new ≡ writes (λ t. kind_number (hinge_in (hinges (faces_of built.now.complex) sq_lengths.now) t).kind) tris.now kinds.old) }
{
    for &tri in tris {
        let hinge = hinge_at(
            &built.complex,
            &built.incidence,
            sq_lengths,
            TriangleNumber(tri),
        );
        deficits[tri as usize] = hinge.deficit;
        kinds[tri as usize] = byte_of(Some(hinge.kind));
    }
}
