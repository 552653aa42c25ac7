// The pentachorons of a lattice: 24 of them start at each vertex, one for each order of the four axes.
ghost use Rattle.std.specs.Prelude.{◌≡◌, [], ◌*◌, ◌≤◌, ◌<◌, length, get_or};
ghost use Rattle.lists.specs.Rows.{flat, over};
ghost use Rattle.foliation.specs.Lattice.{vertex_count, orders, stepped, paths, lattice_pents};
ghost use Rattle.foliation.specs.Parts.{axis_number, Near, path_at};

use self::Axis::{T, X, Y, Z};
use crate::LawfulLattice;
use crate::coords::Coords;
use complex::sorted;
use lists::{FlatRows, copy_row, meet_rows};

// An axis of the lattice.
#[derive(Clone, Copy)]
enum Axis {
    T,
    X,
    Y,
    Z,
}

// The orders of the axes t, x, y, z, as `permute` yields them.
const ORDERS: [[Axis; 4]; 24] = [
    [T, X, Y, Z],
    [T, X, Z, Y],
    [T, Y, X, Z],
    [T, Y, Z, X],
    [T, Z, Y, X],
    [T, Z, X, Y],
    [X, T, Y, Z],
    [X, T, Z, Y],
    [X, Y, T, Z],
    [X, Y, Z, T],
    [X, Z, Y, T],
    [X, Z, T, Y],
    [Y, X, T, Z],
    [Y, X, Z, T],
    [Y, T, X, Z],
    [Y, T, Z, X],
    [Y, Z, T, X],
    [Y, Z, X, T],
    [Z, X, Y, T],
    [Z, X, T, Y],
    [Z, Y, X, T],
    [Z, Y, T, X],
    [Z, T, Y, X],
    [Z, T, X, Y],
];

// The axis of a step in an order.
fn axis_at(order: usize, step: usize) -> Axis
    requires { (order < 24) × (step < 4) }
    ensures { axis_number result ≡ get_or (get_or orders order []) step 0 }
{
    ORDERS[order][step]
}

// One step along an axis.
#[tactic(auto, unfolding(crate::specs::Lattice::stepped))]
fn step(at: Coords, axis: Axis) -> Coords
    requires { Near 1000 at }
    ensures { result ≡ stepped at (axis_number axis) }
{
    let mut to = at;
    match axis {
        T => to.t += 1,
        X => to.x += 1,
        Y => to.y += 1,
        Z => to.z += 1,
    }
    to
}

// Pentachoron k, repeated ones counted: the cell of the vertex k / 24, and the order k % 24.
fn path_at(lawful: LawfulLattice, k: usize) -> [u32; 5]
    requires { k < 8184 }
    ensures { result ≡ path_at lawful.lattice k }
{
    let order = k % 24;
    let a = lawful.vertex_coords_4d(k / 24);
    let b = step(a, axis_at(order, 0));
    let c = step(b, axis_at(order, 1));
    let d = step(c, axis_at(order, 2));
    let e = step(d, axis_at(order, 3));
    sorted(
        lawful.vidx(a),
        lawful.vidx(b),
        lawful.vidx(c),
        lawful.vidx(d),
        lawful.vidx(e),
    )
}

// All of them, one after the other, repeated ones too.
fn write_paths(lawful: LawfulLattice, given: &mut [u32])
    requires { 120 * vertex_count lawful.lattice ≤ length given.old }
    ensures { given.new ≡ over (flat (paths lawful.lattice)) given.old }
{
    let count = 24 * lawful.n_total();
    for k in 0..count {
        copy_row(given, 5 * k, &path_at(lawful, k));
    }
}

// The lattice's pentachorons, the first of equals kept. Answers how many there are.
pub fn list(lawful: LawfulLattice, pents: &mut [u32]) -> usize
    requires { 120 * vertex_count lawful.lattice ≤ length pents.old }
    ensures { (result ≡ length (lattice_pents lawful.lattice)) × (pents.new ≡ over (flat (lattice_pents lawful.lattice)) pents.old) }
{
    let mut given = [0u32; 40920];
    let mut head = [0u32; 32768];
    let mut next = [0u32; 8184];
    let mut numbers = [0u32; 8184];
    write_paths(lawful, &mut given);
    let paths = FlatRows {
        width: 5,
        count: 24 * lawful.n_total(),
        list: &given,
    };
    meet_rows(pents, &mut head, &mut next, 0, &paths, &mut numbers, 0)
}
