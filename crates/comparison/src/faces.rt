// Whether lists of faces are those of pentachorons, numbered by first meeting.
ghost use Rattle.std.specs.Prelude.{◌≡◌, true, ◌*◌, ◌/◌, length, drop};
ghost use Rattle.lists.specs.Rows.{rows, over};
ghost use Rattle.complex.specs.Complex.{count_of, numbers_of};
ghost use Rattle.complex.specs.Parts.{Searched};
ghost use Rattle.comparison.specs.CheckParts.{has_faces};

use complex::Face;
use lists::{FlatRows, match_rows};

// Whether `list` begins with the faces of all pentachorons, numbered by first meeting, and n_faces is their count. `next`
// links the chains of the search; `numbers` gets the number of each face as it is met, and is kept after these. The list is no
// `FlatRows`: whether it has so many is tested here.
pub fn has_faces(
    face: Face,
    pents: &[u32],
    n_faces: usize,
    list: &[u32],
    next: &mut [u32],
    numbers: &mut [u32],
) -> bool
    requires { Searched face (length pents.now / 5) (length pents.now) (length next.old) (length numbers.old) }
    ensures value { result ≡ has_faces face (rows 5 (length pents.now / 5) pents.now) n_faces list.now }
    ensures numbers_after { (result ≡ true → numbers.new ≡ over (numbers_of face (rows 5 (length pents.now / 5) pents.now)) numbers.old)
        × (drop (count_of face * (length pents.now / 5)) numbers.new ≡ drop (count_of face * (length pents.now / 5)) numbers.old) }
{
    let width = face.width();
    let count = face.count();
    if count * (pents.len() / 5) < n_faces || list.len() < width * n_faces {
        return false;
    }
    let mut head = [0u32; 32768];
    let mut n = 0;
    for (k, pent) in pents.chunks_exact(5).enumerate() {
        let given = FlatRows {
            width,
            count,
            list: &face.rows_of(pent),
        };
        let at = count * k;
        let Some(met) = match_rows(list, &mut head, next, n, n_faces, &given, numbers, at) else {
            return false;
        };
        n = met;
    }
    n == n_faces
}
