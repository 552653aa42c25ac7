// The deficits of all triangles, and of one.
// Two lists, and kinds as bytes: they are lent over the C interface.
ghost use Rattle.std.specs.Prelude.{◌≡◌, length};
ghost use Rattle.refusals.specs.Refusals.{answer_by};
ghost use Rattle.complex.specs.Lent.{lists_of};
ghost use Rattle.hinges.specs.Hinges.{faces_of, hinges, hinge_in};
ghost use Rattle.calls.specs.Calls.{lengths_check_of, built_check_of, room_check_of, triangle_check_of, short_table};
ghost use Rattle.lorentzian_regge.specs.Answers.{Tabled};

use calls::{BuiltComplex, check_complex, check_lengths, check_table, check_triangle};
use complex::Complex;
use hinges::{Hinge, hinge_at};
use incidence::TriangleNumber;
use one_pass::write_table;
use refusals::Refusal;

// ---- all triangles

// `lorentzian_deficit_angles` of a built complex: deficits, and kinds as bytes. A refused call leaves both lists as they were;
// otherwise the places that are not written are kept.
pub fn lorentzian_deficit_angles_built(
    built: &BuiltComplex<'_>,
    sq_lengths: &[f64],
    deficits: &mut [f64],
    kinds: &mut [u8],
) -> Result<(), Refusal>
    ensures { Tabled (lengths_check_of built.now.complex.counts (length sq_lengths.now) (room_check_of (short_table built.now.complex.counts (length deficits.old) (length kinds.old))))
        (faces_of built.now.complex) sq_lengths.now deficits.old kinds.old result deficits.new kinds.new }
{
    let counts = built.complex.counts;
    check_lengths(counts, sq_lengths.len())?;
    check_table(counts, deficits.len(), kinds.len())?;
    write_table(
        &built.complex,
        &built.incidence,
        sq_lengths,
        deficits,
        kinds,
    );
    Ok(())
}

// `lorentzian_deficit_angles`: the deficit of each triangle, and its kind as a byte. A refused call leaves both lists as they were;
// otherwise the places that are not written are kept.
pub fn lorentzian_deficit_angles(
    complex: &Complex<'_>,
    sq_lengths: &[f64],
    deficits: &mut [f64],
    kinds: &mut [u8],
) -> Result<(), Refusal>
    ensures { Tabled (built_check_of complex.now.counts (lists_of complex.now)
        (lengths_check_of complex.now.counts (length sq_lengths.now) (room_check_of (short_table complex.now.counts (length deficits.old) (length kinds.old)))))
        (faces_of complex.now) sq_lengths.now deficits.old kinds.old result deficits.new kinds.new }
{
    let mut pent_edges = [0u32; 81920];
    let mut pent_tris = [0u32; 81920];
    let built = check_complex(*complex, &mut pent_edges, &mut pent_tris)?;
    lorentzian_deficit_angles_built(&built, sq_lengths, deficits, kinds)
}

// ---- one triangle

// The hinge of one triangle of a built complex. Refused with 11 where there is no triangle of that number.
pub fn lorentzian_deficit_angle_built(
    built: &BuiltComplex<'_>,
    sq_lengths: &[f64],
    tri: TriangleNumber,
) -> Result<Hinge, Refusal>
    ensures { result ≡ answer_by (lengths_check_of built.now.complex.counts (length sq_lengths.now) (triangle_check_of built.now.complex.counts tri.0))
        (hinge_in (hinges (faces_of built.now.complex) sq_lengths.now) tri.0) }
{
    let counts = built.complex.counts;
    check_lengths(counts, sq_lengths.len())?;
    check_triangle(counts, tri)?;
    Ok(hinge_at(&built.complex, &built.incidence, sq_lengths, tri))
}

// The hinge of one triangle: its record in the table of all. Refused with 11 where there is no triangle of that number.
pub fn lorentzian_deficit_angle(
    complex: &Complex<'_>,
    sq_lengths: &[f64],
    tri: TriangleNumber,
) -> Result<Hinge, Refusal>
    ensures { result ≡ answer_by (built_check_of complex.now.counts (lists_of complex.now)
        (lengths_check_of complex.now.counts (length sq_lengths.now) (triangle_check_of complex.now.counts tri.0)))
        (hinge_in (hinges (faces_of complex.now) sq_lengths.now) tri.0) }
{
    let mut pent_edges = [0u32; 81920];
    let mut pent_tris = [0u32; 81920];
    let built = check_complex(*complex, &mut pent_edges, &mut pent_tris)?;
    lorentzian_deficit_angle_built(&built, sq_lengths, tri)
}
