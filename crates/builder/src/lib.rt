// The builder of a complex from its pentachorons.
#![tactic(auto)]

mod build;

ghost use Rattle.complex.specs.Builder.{Builds};
ghost use Rattle.complex.specs.Lent.{lists_in, SameLists};

use build::build;
use complex::{Counts, ListsMut, check};
use refusals::Refusal;

// `SimplicialComplex::from_pentachorons`: each pentachoron sorted; edges, triangles and tets numbered by first meeting; adjacency
// lists as items and starts. A refused call leaves every list as it was; otherwise the places that are not written are kept. The
// vertex count and the list are no struct: C passes them apart.
pub fn from_pentachorons(
    n_vertices: usize,
    given: &[u32],
    lists: &mut ListsMut<'_>,
) -> Result<Counts, Refusal>
    ensures same { SameLists lists.old lists.new }
    ensures built { Builds n_vertices given.now (lists_in lists.old) result (lists_in lists.new) }
{
    check(n_vertices, given, lists.rooms())?;
    Ok(build(n_vertices, given, lists))
}
