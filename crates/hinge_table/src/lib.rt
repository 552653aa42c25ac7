// The table of hinges as a lent slice of records: working it out anew, and the retouch. Checks, incidence, the triangles to be written
// and their records come from the crates below; here records are stored.
#![tactic(auto)]

ghost use Rattle.std.specs.Prelude.{◌≡◌, ◌≤◌, length};
ghost use Rattle.lists.specs.Groups.{Below};
ghost use Rattle.lists.specs.Writes.{writes};
ghost use Rattle.lists.specs.Rows.{over};
ghost use Rattle.complex.specs.Lent.{lists_of};
ghost use Rattle.hinges.specs.Hinges.{faces_of, hinges, hinge_in};
ghost use Rattle.calls.specs.Calls.{built_check_of, lengths_check_of, room_check_of};
ghost use Rattle.retouch.specs.Retouch.{edge_check_of};
ghost use Rattle.hinge_table.specs.Table.{short_records, TableWorked, TableRetouched};

use calls::{BuiltComplex, check_complex, check_lengths, check_room};
use complex::Complex;
pub use hinges::Hinge;
use hinges::hinge_at;
use incidence::{EdgeNumber, TriangleNumber};
use refusals::Refusal;
use retouch::{check_edge, list_touched};

// ---- all records

// Writes the records of all triangles.
fn write_all(built: &BuiltComplex<'_>, sq_lengths: &[f64], table: &mut [Hinge])
    requires { (length sq_lengths.now ≡ built.now.complex.counts.edges) × (built.now.complex.counts.triangles ≤ length table.old) }
    ensures { table.new ≡ over (hinges (faces_of built.now.complex) sq_lengths.now) table.old }
{
    let n = built.complex.counts.triangles;
    for (t, record) in table[..n].iter_mut().enumerate() {
        let tri = TriangleNumber(t as u32);
        *record = hinge_at(&built.complex, &built.incidence, sq_lengths, tri);
    }
}

// All hinges of a built complex. The steps are those of `lorentzian_deficit_angles_built` over two lists: only the check of room and
// what is stored differ, and one function of both would need a trait for the two.
fn deficit_angles_of(
    built: &BuiltComplex<'_>,
    sq_lengths: &[f64],
    table: &mut [Hinge],
) -> Result<(), Refusal>
    ensures { TableWorked (lengths_check_of built.now.complex.counts (length sq_lengths.now) (room_check_of (short_records built.now.complex.counts (length table.old))))
        (faces_of built.now.complex) sq_lengths.now table.old result table.new }
{
    let counts = built.complex.counts;
    check_lengths(counts, sq_lengths.len())?;
    check_room(table.len() < counts.triangles)?;
    write_all(built, sq_lengths, table);
    Ok(())
}

// All hinges: each triangle's record is worked out anew and written at its place. The table may be longer than there are triangles;
// a refused call leaves it as it was.
pub fn lorentzian_deficit_angles(
    complex: &Complex<'_>,
    sq_lengths: &[f64],
    table: &mut [Hinge],
) -> Result<(), Refusal>
    ensures { TableWorked (built_check_of complex.now.counts (lists_of complex.now)
        (lengths_check_of complex.now.counts (length sq_lengths.now) (room_check_of (short_records complex.now.counts (length table.old)))))
        (faces_of complex.now) sq_lengths.now table.old result table.new }
{
    let mut pent_edges = [0u32; 81920];
    let mut pent_tris = [0u32; 81920];
    let built = check_complex(*complex, &mut pent_edges, &mut pent_tris)?;
    deficit_angles_of(&built, sq_lengths, table)
}

// ---- the retouch

// Writes the records of the triangles of a list, each at its own place. A loop of its own beside that of `retouch` over two lists: with
// a closure the proof doesn't close, and a trait would be longer than both (retouch, records.rt).
fn write_records(built: &BuiltComplex<'_>, sq_lengths: &[f64], tris: &[u32], table: &mut [Hinge])
    requires { (length sq_lengths.now ≡ built.now.complex.counts.edges)
        × Below tris.now built.now.complex.counts.triangles × (built.now.complex.counts.triangles ≤ length table.old) }
    ensures { table.new ≡ writes (hinge_in (hinges (faces_of built.now.complex) sq_lengths.now)) tris.now table.old }
{
    for &tri in tris {
        let number = TriangleNumber(tri);
        table[tri as usize] = hinge_at(&built.complex, &built.incidence, sq_lengths, number);
    }
}

// The retouch of a built complex. The steps are those of `retouch_built` over two lists: only the check of room, what is stored and the
// room for the triangles differ, of one size here, and one function of both would need a trait for the two. Not inlined, so that its
// list does not lie on the stack while the caller checks the complex.
#[inline(never)]
fn retouch_of(
    built: &BuiltComplex<'_>,
    sq_lengths: &mut [f64],
    edge: EdgeNumber,
    sq_length: f64,
    table: &mut [Hinge],
) -> Result<(), Refusal>
    ensures { TableRetouched (lengths_check_of built.now.complex.counts (length sq_lengths.old) (edge_check_of built.now.complex.counts edge.0 (room_check_of (short_records built.now.complex.counts (length table.old)))))
        (faces_of built.now.complex) sq_lengths.old edge.0 sq_length table.old result sq_lengths.new table.new }
{
    let counts = built.complex.counts;
    check_lengths(counts, sq_lengths.len())?;
    check_edge(counts, edge)?;
    check_room(table.len() < counts.triangles)?;
    let mut tris = [0u32; 81920];
    let count = list_touched(&built.complex, &built.incidence, edge, &mut tris);
    sq_lengths[edge.0 as usize] = sq_length;
    write_records(built, sq_lengths, &tris[..count], table);
    Ok(())
}

// The retouch: stores a new squared length at its edge and works out anew each triangle of each pentachoron that contains the edge,
// from all pentachorons in which the triangle lies. No other record is written; the table may be longer than there are triangles. A
// refused call leaves the lengths and the table as they were.
pub fn retouch(
    complex: &Complex<'_>,
    sq_lengths: &mut [f64],
    edge: EdgeNumber,
    sq_length: f64,
    table: &mut [Hinge],
) -> Result<(), Refusal>
    ensures { TableRetouched (built_check_of complex.now.counts (lists_of complex.now)
        (lengths_check_of complex.now.counts (length sq_lengths.old) (edge_check_of complex.now.counts edge.0 (room_check_of (short_records complex.now.counts (length table.old))))))
        (faces_of complex.now) sq_lengths.old edge.0 sq_length table.old result sq_lengths.new table.new }
{
    let mut pent_edges = [0u32; 81920];
    let mut pent_tris = [0u32; 81920];
    let built = check_complex(*complex, &mut pent_edges, &mut pent_tris)?;
    retouch_of(&built, sq_lengths, edge, sq_length, table)
}
