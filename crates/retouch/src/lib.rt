// The retouch: one squared length of a complex is changed, and the table of its hinges brought up to date. `retouch_built` takes a
// built complex with its incidence lists and does not check it again. NaN and infinities are lawful lengths.
// Two lists, and kinds as bytes: they are lent over the C interface. The crate `hinge_table` has a list of records.
#![tactic(auto)]

mod records;
mod touched;

ghost use Rattle.std.specs.Prelude.{◌≡◌, ◌≤◌, ◌<◌, length, set};
ghost use Rattle.lists.specs.Writes.{writes};
ghost use Rattle.complex.specs.Lent.{lists_of};
ghost use Rattle.lorentzian.specs.Dihedral.{kind_number};
ghost use Rattle.hinges.specs.Hinges.{faces_of};
ghost use Rattle.calls.specs.Calls.{built_check_of, lengths_check_of, room_check_of, short_table};
ghost use Rattle.retouch.specs.Retouch.{edge_check_of, anew, touched, Retouched};

use calls::{BuiltComplex, check_complex, check_lengths, check_table};
use complex::Complex;
use incidence::EdgeNumber;
use records::write_records;
use refusals::Refusal;
pub use touched::{check_edge, list_touched};

// Stores a new squared length at its edge and works out anew each triangle of each pentachoron that contains the edge, listed with room
// for T triangles. Not inlined, so that room of one size alone lies on the stack, and none while a caller checks the complex.
#[inline(never)]
fn rework_in<const T: usize>(
    built: &BuiltComplex<'_>,
    sq_lengths: &mut [f64],
    edge: EdgeNumber,
    sq_length: f64,
    deficits: &mut [f64],
    kinds: &mut [u8],
)
    requires { (length sq_lengths.old ≡ built.now.complex.counts.edges) × (edge.0 < built.now.complex.counts.edges)
        × (built.now.complex.counts.triangles ≤ T) × (T ≤ 81920) × (built.now.complex.counts.triangles ≤ length deficits.old) × (built.now.complex.counts.triangles ≤ length kinds.old) }
    ensures { (sq_lengths.new ≡ set sq_lengths.old edge.0 sq_length)
        × (deficits.new ≡ writes (λ t. (anew (faces_of built.now.complex) sq_lengths.old edge.0 sq_length t).deficit) (touched (faces_of built.now.complex) edge.0) deficits.old)
        × (kinds.new ≡ writes (λ t. kind_number (anew (faces_of built.now.complex) sq_lengths.old edge.0 sq_length t).kind) (touched (faces_of built.now.complex) edge.0) kinds.old) }
{
    let mut tris = [0u32; T];
    let count = list_touched(&built.complex, &built.incidence, edge, &mut tris);
    sq_lengths[edge.0 as usize] = sq_length;
    write_records(built, sq_lengths, &tris[..count], deficits, kinds);
}

// The same with the smaller of two rooms where it suffices: to clear room for 81,920 takes as long as several hinges.
fn rework(
    built: &BuiltComplex<'_>,
    sq_lengths: &mut [f64],
    edge: EdgeNumber,
    sq_length: f64,
    deficits: &mut [f64],
    kinds: &mut [u8],
)
    requires { (length sq_lengths.old ≡ built.now.complex.counts.edges) × (edge.0 < built.now.complex.counts.edges)
        × (built.now.complex.counts.triangles ≤ length deficits.old) × (built.now.complex.counts.triangles ≤ length kinds.old) }
    ensures { (sq_lengths.new ≡ set sq_lengths.old edge.0 sq_length)
        × (deficits.new ≡ writes (λ t. (anew (faces_of built.now.complex) sq_lengths.old edge.0 sq_length t).deficit) (touched (faces_of built.now.complex) edge.0) deficits.old)
        × (kinds.new ≡ writes (λ t. kind_number (anew (faces_of built.now.complex) sq_lengths.old edge.0 sq_length t).kind) (touched (faces_of built.now.complex) edge.0) kinds.old) }
{
    if built.complex.counts.triangles <= 16384 {
        return rework_in::<16384>(built, sq_lengths, edge, sq_length, deficits, kinds);
    }
    rework_in::<81920>(built, sq_lengths, edge, sq_length, deficits, kinds);
}

// The retouch of a built complex. A refused call leaves the three lists as they were.
pub fn retouch_built(
    built: &BuiltComplex<'_>,
    sq_lengths: &mut [f64],
    edge: EdgeNumber,
    sq_length: f64,
    deficits: &mut [f64],
    kinds: &mut [u8],
) -> Result<(), Refusal>
    ensures { Retouched (lengths_check_of built.now.complex.counts (length sq_lengths.old) (edge_check_of built.now.complex.counts edge.0 (room_check_of (short_table built.now.complex.counts (length deficits.old) (length kinds.old)))))
        (faces_of built.now.complex) sq_lengths.old edge.0 sq_length deficits.old kinds.old result sq_lengths.new deficits.new kinds.new }
{
    let counts = built.complex.counts;
    check_lengths(counts, sq_lengths.len())?;
    check_edge(counts, edge)?;
    check_table(counts, deficits.len(), kinds.len())?;
    rework(built, sq_lengths, edge, sq_length, deficits, kinds);
    Ok(())
}

// The retouch: stores a new squared length at its edge and works out anew each triangle of each pentachoron that contains the edge,
// from all pentachorons in which the triangle lies. No other place of the table is written; it may be longer than there are
// triangles. A refused call leaves the three lists as they were.
pub fn retouch(
    complex: &Complex<'_>,
    sq_lengths: &mut [f64],
    edge: EdgeNumber,
    sq_length: f64,
    deficits: &mut [f64],
    kinds: &mut [u8],
) -> Result<(), Refusal>
    ensures { Retouched (built_check_of complex.now.counts (lists_of complex.now)
        (lengths_check_of complex.now.counts (length sq_lengths.old) (edge_check_of complex.now.counts edge.0 (room_check_of (short_table complex.now.counts (length deficits.old) (length kinds.old))))))
        (faces_of complex.now) sq_lengths.old edge.0 sq_length deficits.old kinds.old result sq_lengths.new deficits.new kinds.new }
{
    let mut pent_edges = [0u32; 81920];
    let mut pent_tris = [0u32; 81920];
    let built = check_complex(*complex, &mut pent_edges, &mut pent_tris)?;
    retouch_built(&built, sq_lengths, edge, sq_length, deficits, kinds)
}
