// The deficits of the triangles on free edges.
// Three lists, and kinds as bytes: they are lent over the C interface.
ghost use Rattle.std.specs.Prelude.{◌≡◌, ◌||◌, map, ◌≤◌, ltb, length};
ghost use Rattle.lists.specs.Rows.{over};
ghost use Rattle.lists.specs.Groups.{Below};
ghost use Rattle.complex.specs.Lent.{lists_of};
ghost use Rattle.hinges.specs.Hinges.{faces_of, hinges, hinge_in, deficits_of, kinds_of};
ghost use Rattle.calls.specs.Calls.{lengths_check_of, free_check_of, built_check_of, room_check_of};
ghost use Rattle.local_regge.specs.LocalCalls.{short_local, LocallyTabled};

use calls::{BuiltComplex, check_complex, check_free, check_lengths, check_room};
use complex::Complex;
use hinges::hinge_at;
use incidence::TriangleNumber;
use marks::{count_marked, list_marked, mark_tris};
use refusals::Refusal;

// Whether a list has fewer than `count` places.
fn lacks_room(count: usize, tris: usize, deficits: usize, kinds: usize) -> bool
    ensures { result ≡ (ltb tris count || ltb deficits count || ltb kinds count) }
{
    tris < count || deficits < count || kinds < count
}

// Writes the deficits and kinds of the triangles of a list. By the index: of what is written through a zip of `iter_mut` a proof knows
// no element. A loop of its own beside those of `retouch` and `hinge_table`: with a closure the proof doesn't close (retouch, records.rt).
fn write_hinges(
    built: &BuiltComplex<'_>,
    sq_lengths: &[f64],
    tris: &[u32],
    deficits: &mut [f64],
    kinds: &mut [u8],
)
    requires { (length sq_lengths.now ≡ built.now.complex.counts.edges) × Below tris.now built.now.complex.counts.triangles
        × (length tris.now ≤ length deficits.old) × (length tris.now ≤ length kinds.old) }
    ensures { (deficits.new ≡ over (deficits_of (map (hinge_in (hinges (faces_of built.now.complex) sq_lengths.now)) tris.now)) deficits.old)
        × (kinds.new ≡ over (kinds_of (map (hinge_in (hinges (faces_of built.now.complex) sq_lengths.now)) tris.now)) kinds.old) }
{
    for (k, t) in tris.iter().enumerate() {
        let hinge = hinge_at(
            &built.complex,
            &built.incidence,
            sq_lengths,
            TriangleNumber(*t),
        );
        deficits[k] = hinge.deficit;
        kinds[k] = hinge.kind.number();
    }
}

// Writes the triangles on free edges and their hinges, where there is room for them, by marks of T triangles. Not inlined, so that marks
// of one size alone lie on the stack, and none while a caller checks the complex.
#[inline(never)]
fn tabulate_in<const T: usize>(
    built: &BuiltComplex<'_>,
    sq_lengths: &[f64],
    free_edges: &[u32],
    tris: &mut [u32],
    deficits: &mut [f64],
    kinds: &mut [u8],
) -> Result<usize, Refusal>
    requires { (length sq_lengths.now ≡ built.now.complex.counts.edges) × Below free_edges.now built.now.complex.counts.edges
        × (built.now.complex.counts.triangles ≤ T) × (T ≤ 81920) }
    ensures { LocallyTabled (room_check_of (short_local (faces_of built.now.complex) free_edges.now (length tris.old) (length deficits.old) (length kinds.old)))
        (faces_of built.now.complex) sq_lengths.now free_edges.now tris.old deficits.old kinds.old result tris.new deficits.new kinds.new }
{
    let mut marks = [false; T];
    mark_tris(&built.complex, free_edges, &mut marks);
    let own = &marks[..built.complex.counts.triangles];
    let count = count_marked(own);
    check_room(lacks_room(count, tris.len(), deficits.len(), kinds.len()))?;
    list_marked(own, tris);
    write_hinges(built, sq_lengths, &tris[..count], deficits, kinds);
    Ok(count)
}

// The same by marks of the smaller of two sizes where it suffices: to clear 81,920 takes as long as several hinges.
fn tabulate(
    built: &BuiltComplex<'_>,
    sq_lengths: &[f64],
    free_edges: &[u32],
    tris: &mut [u32],
    deficits: &mut [f64],
    kinds: &mut [u8],
) -> Result<usize, Refusal>
    requires { (length sq_lengths.now ≡ built.now.complex.counts.edges) × Below free_edges.now built.now.complex.counts.edges }
    ensures { LocallyTabled (room_check_of (short_local (faces_of built.now.complex) free_edges.now (length tris.old) (length deficits.old) (length kinds.old)))
        (faces_of built.now.complex) sq_lengths.now free_edges.now tris.old deficits.old kinds.old result tris.new deficits.new kinds.new }
{
    if built.complex.counts.triangles <= 16384 {
        return tabulate_in::<16384>(built, sq_lengths, free_edges, tris, deficits, kinds);
    }
    tabulate_in::<81920>(built, sq_lengths, free_edges, tris, deficits, kinds)
}

// `local_deficit_angles` of a built complex. A refused call leaves the three lists as they were; otherwise the places that are not
// written are kept.
pub fn local_deficit_angles_built(
    built: &BuiltComplex<'_>,
    sq_lengths: &[f64],
    free_edges: &[u32],
    tris: &mut [u32],
    deficits: &mut [f64],
    kinds: &mut [u8],
) -> Result<usize, Refusal>
    ensures { LocallyTabled (lengths_check_of built.now.complex.counts (length sq_lengths.now) (free_check_of built.now.complex.counts free_edges.now (room_check_of (short_local (faces_of built.now.complex) free_edges.now (length tris.old) (length deficits.old) (length kinds.old)))))
        (faces_of built.now.complex) sq_lengths.now free_edges.now tris.old deficits.old kinds.old result tris.new deficits.new kinds.new }
{
    let counts = built.complex.counts;
    check_lengths(counts, sq_lengths.len())?;
    check_free(counts, free_edges)?;
    tabulate(built, sq_lengths, free_edges, tris, deficits, kinds)
}

// `local_deficit_angles`: the triangles on free edges, ascending, with the deficit of each and its kind as a byte, from all
// pentachorons in which it lies; how many there are is answered. A refused call leaves the three lists as they were; otherwise the
// places that are not written are kept.
pub fn local_deficit_angles(
    complex: &Complex<'_>,
    sq_lengths: &[f64],
    free_edges: &[u32],
    tris: &mut [u32],
    deficits: &mut [f64],
    kinds: &mut [u8],
) -> Result<usize, Refusal>
    ensures { LocallyTabled (built_check_of complex.now.counts (lists_of complex.now)
        (lengths_check_of complex.now.counts (length sq_lengths.now) (free_check_of complex.now.counts free_edges.now (room_check_of (short_local (faces_of complex.now) free_edges.now (length tris.old) (length deficits.old) (length kinds.old))))))
        (faces_of complex.now) sq_lengths.now free_edges.now tris.old deficits.old kinds.old result tris.new deficits.new kinds.new }
{
    let mut pent_edges = [0u32; 81920];
    let mut pent_tris = [0u32; 81920];
    let built = check_complex(*complex, &mut pent_edges, &mut pent_tris)?;
    local_deficit_angles_built(&built, sq_lengths, free_edges, tris, deficits, kinds)
}
