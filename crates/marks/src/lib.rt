// Marks: for each triangle or pentachoron whether it is marked.
#![tactic(auto)]

ghost use Rattle.std.specs.Prelude.{◌≡◌, ℕ, List, [], ◌≤◌, length};
ghost use Rattle.std.specs.List.{list_any};
ghost use Rattle.lists.specs.Rows.{over};
ghost use Rattle.lists.specs.Groups.{Below};
ghost use Rattle.complex.specs.Builder.{repeats};
ghost use Rattle.complex.specs.Lent.{pents_of, edges_of, triangles_of, IsHolding};
ghost use Rattle.marks.specs.Marks.{met, marked, marked_below, next_marked, IsMeeting};

use complex::{AdjacencyList, Complex, repeats};
use incidence::row;

// ---- marks are set

// Marks all numbers of a list.
#[tactic(auto, unfolding(crate::specs::Marks::marked))]
pub fn mark_all(numbers: &[u32], marks: &mut [bool])
    requires { Below numbers.now (length marks.old) }
    ensures { marks.new ≡ marked numbers.now marks.old }
{
    for &number in numbers {
        marks[number as usize] = true;
    }
}

// Marks the numbers that free edges have in an adjacency list. Its rows and edges are variables of the clauses: the list itself is
// of numbers alone, and serves triangles as it does pentachorons.
#[tactic(auto, unfolding(crate::specs::Marks::marked, crate::specs::Marks::met, lists::specs::Lists::gather))]
fn mark_met<'a>(adjacency: &AdjacencyList<'a>, free_edges: &'a [u32], marks: &mut [bool])
    requires { (rs : List (List ℕ)) × (edges : List (List ℕ)) × IsMeeting rs edges adjacency.now free_edges.now (length marks.old) }
    ensures { (rs : List (List ℕ)) (edges : List (List ℕ)) → IsMeeting rs edges adjacency.now free_edges.now (length marks.old) → marks.new ≡ marked (met rs edges free_edges.now) marks.old }
{
    for &edge in free_edges {
        mark_all(row(adjacency, edge as usize), marks);
    }
}

// Marks the triangles on free edges.
pub fn mark_tris<'a>(complex: &Complex<'a>, free_edges: &'a [u32], marks: &mut [bool])
    requires { (IsHolding (triangles_of complex.now) (edges_of complex.now) complex.now.edge_to_tris)
        × Below free_edges.now complex.now.counts.edges × (complex.now.counts.triangles ≤ length marks.old) }
    ensures { marks.new ≡ marked (met (triangles_of complex.now) (edges_of complex.now) free_edges.now) marks.old }
{
    mark_met(&complex.edge_to_tris, free_edges, marks);
}

// Marks the pentachorons on free edges.
pub fn mark_pents<'a>(complex: &Complex<'a>, free_edges: &'a [u32], marks: &mut [bool])
    requires { (IsHolding (pents_of complex.now) (edges_of complex.now) complex.now.edge_to_pents)
        × Below free_edges.now complex.now.counts.edges × (complex.now.counts.pentachorons ≤ length marks.old) }
    ensures { marks.new ≡ marked (met (pents_of complex.now) (edges_of complex.now) free_edges.now) marks.old }
{
    mark_met(&complex.edge_to_pents, free_edges, marks);
}

// ---- marks are read

// Whether some number is marked. All marks are read: with an early exit LLVM makes no vector code of the loop.
#[inline]
fn any_marked(marks: &[bool]) -> bool
    ensures { result ≡ list_any (λ mark. mark) marks.now }
{
    let mut any = false;
    for mark in marks {
        any = any | *mark;
    }
    any
}

// The first marked number from `from` on, or how many marks there are where none is set. As a rule few are set: whole chunks of 64 are
// passed over first.
#[inline]
pub fn next_marked(marks: &[bool], from: usize) -> usize
    requires { from ≤ length marks.now }
    ensures { result ≡ next_marked from marks.now }
{
    let mut t = from;
    while 64 <= marks.len() - t && !any_marked(&marks[t..t + 64]) {
        t += 64;
    }
    while t < marks.len() && !marks[t] {
        t += 1;
    }
    t
}

// How many numbers are marked.
pub fn count_marked(marks: &[bool]) -> usize
    ensures { result ≡ length (marked_below (length marks.now) marks.now) }
{
    let mut n = 0;
    let mut t = next_marked(marks, 0);
    while t < marks.len() {
        n += 1;
        t = next_marked(marks, t + 1);
    }
    n
}

// Writes the marked numbers, ascending.
#[tactic(auto, unfolding(crate::specs::Marks::marked_below, lists::specs::Lists::upto, lists::specs::Lists::keep, lists::specs::Rows::over))]
pub fn list_marked(marks: &[bool], list: &mut [u32])
    requires { (length marks.now ≤ 81920) × (length (marked_below (length marks.now) marks.now) ≤ length list.old) }
    ensures { list.new ≡ over (marked_below (length marks.now) marks.now) list.old }
{
    // By a count, and no zip with `iter_mut`: of what is written through that a proof knows no element.
    let mut count = 0;
    let mut t = next_marked(marks, 0);
    while t < marks.len() {
        list[count] = t as u32;
        count += 1;
        t = next_marked(marks, t + 1);
    }
}

// ---- numbers that stand twice

// Whether some number stands twice, by marks: there may be too many to compare by pairs. Not inlined, so that the marks lie on the stack
// only where they are used.
#[inline(never)]
#[tactic(auto, unfolding(crate::specs::Marks::marked, complex::specs::Builder::repeats))]
fn stands_twice_by_marks(numbers: &[u32]) -> bool
    requires { Below numbers.now 81920 }
    ensures { result ≡ repeats numbers.now }
{
    let mut marks = [false; 81920];
    for &number in numbers {
        let mark = &mut marks[number as usize];
        if *mark {
            return true;
        }
        *mark = true;
    }
    false
}

// Whether some number stands twice, all of them below 81,920. Up to 16 are compared by pairs, which is sooner done than marks are made.
pub fn stands_twice(numbers: &[u32]) -> bool
    requires { Below numbers.now 81920 }
    ensures { result ≡ repeats numbers.now }
{
    if numbers.len() <= 16 {
        return repeats(numbers);
    }
    stands_twice_by_marks(numbers)
}
