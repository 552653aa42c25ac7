// What calls over a complex share: a complex that is known to be built, and what is refused beside one that is not.
#![tactic(auto)]

mod built;

ghost use Rattle.std.specs.Prelude.{◌≡◌, ◌≤◌};
ghost use Rattle.refusals.specs.Refusals.{Done};
ghost use Rattle.calls.specs.Calls.{lengths_check_of, free_check_of, room_check_of, triangle_check_of, short_table};

pub use built::{BuiltComplex, check_complex};
use complex::{Counts, too_large};
use incidence::TriangleNumber;
use marks::stands_twice;
use refusals::Refusal;

// 8 where there are not as many lengths as edges. No struct holds a built complex with its lengths: each call that passes this check has
// at most one loop of its own over both, for which alone it would be made, and a retouch writes a length between the check and its loop.
#[tactic(auto, unfolding(crate::specs::Calls::lengths_check_of))]
pub fn check_lengths(counts: Counts, lengths: usize) -> Result<(), Refusal>
    ensures { result ≡ lengths_check_of counts lengths Done }
{
    if lengths != counts.edges {
        return Err(Refusal::LengthCount);
    }
    Ok(())
}

// 9 where a free edge is not below the number of edges, then 10 where one stands twice.
#[tactic(auto, unfolding(crate::specs::Calls::free_check_of))]
pub fn check_free(counts: Counts, free_edges: &[u32]) -> Result<(), Refusal>
    requires { counts.edges ≤ 81920 }
    ensures { result ≡ free_check_of counts free_edges.now Done }
{
    if too_large(counts.edges, free_edges) {
        return Err(Refusal::EdgeTooLarge);
    }
    if stands_twice(free_edges) {
        return Err(Refusal::RepeatedEdge);
    }
    Ok(())
}

// 5 where an output is short.
#[tactic(auto, unfolding(crate::specs::Calls::room_check_of))]
pub fn check_room(short: bool) -> Result<(), Refusal>
    ensures { result ≡ room_check_of short }
{
    if short {
        return Err(Refusal::ShortRoom);
    }
    Ok(())
}

// 5 where a list of deficits or of kinds has fewer places than there are triangles.
pub fn check_table(counts: Counts, deficits: usize, kinds: usize) -> Result<(), Refusal>
    ensures { result ≡ room_check_of (short_table counts deficits kinds) }
{
    check_room(deficits < counts.triangles || kinds < counts.triangles)
}

// 11 where there is no triangle of that number.
#[tactic(auto, unfolding(crate::specs::Calls::triangle_check_of))]
pub fn check_triangle(counts: Counts, tri: TriangleNumber) -> Result<(), Refusal>
    ensures { result ≡ triangle_check_of counts tri.0 }
{
    let t = tri.0 as usize;
    if t < counts.triangles {
        return Ok(());
    }
    Err(Refusal::BadIndex)
}
