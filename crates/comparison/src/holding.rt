// Whether adjacency lists are those of a complex: for each key the rows in which it lies. All is inlined, so that the loops of each of
// the three calls have the widths of its keys and rows as constants.
ghost use Rattle.std.specs.Prelude.{◌≡◌, ◌+◌, ◌<◌, length};
ghost use Rattle.lists.specs.Lists.{within};
ghost use Rattle.lists.specs.Lent.{rows_of};
ghost use Rattle.complex.specs.Check.{holds};
ghost use Rattle.comparison.specs.CheckParts.{lying, part_lies};
ghost use Rattle.comparison.specs.Parts.{Holdable};

use complex::{AdjacencyList, has};
use lists::FlatRows;

// Whether all vertices of a simplex are among those of `row`.
#[inline(always)]
fn lies_in(simplex: &[u32], row: &[u32]) -> bool
    ensures { result ≡ within simplex.now row.now }
{
    simplex.iter().all(|v| has(*v, row))
}

// Whether the items ascend and are numbers of rows in which the key lies.
#[inline(always)]
fn items_lie(key: &[u32], rows: &FlatRows<'_>, items: &[u32]) -> bool
    ensures { result ≡ lying (rows_of rows.now) key.now 0 items.now }
{
    let mut low = 0;
    for item in items {
        let item = *item as usize;
        if item < low || rows.count <= item || !lies_in(key, rows.row(item)) {
            return false;
        }
        low = item + 1;
    }
    true
}

// The same of part j of the items, which goes from start j up to start j + 1.
#[inline(always)]
#[tactic(auto, unfolding(crate::specs::CheckParts::part_lies))]
fn part_lies(key: &[u32], rows: &FlatRows<'_>, adjacency: &AdjacencyList<'_>, j: usize) -> bool
    requires { j + 1 < length adjacency.now.starts.now }
    ensures { result ≡ part_lies (rows_of rows.now) key.now adjacency.now.items.now adjacency.now.starts.now j }
{
    let from = adjacency.starts[j] as usize;
    let to = adjacency.starts[j + 1] as usize;
    from <= to && to <= adjacency.items.len() && items_lie(key, rows, &adjacency.items[from..to])
}

// Whether an adjacency list begins with the numbers of the rows in which each key lies. `total` is how many these are: a part that
// lies is no longer than it should be, so parts that have the total all together are whole.
#[inline(always)]
pub fn is_holding(
    keys: &FlatRows<'_>,
    rows: &FlatRows<'_>,
    adjacency: &AdjacencyList<'_>,
    total: usize,
) -> bool
    requires { Holdable keys.now rows.now total }
    ensures { result ≡ holds (rows_of rows.now) (rows_of keys.now) adjacency.now.items.now adjacency.now.starts.now }
{
    let starts = adjacency.starts;
    if starts.len() <= keys.count || starts[0] != 0 {
        return false;
    }
    // No `all`: its proof doesn't close, since the search finds no part's test in what is known of the closure's calls.
    for j in 0..keys.count {
        if !part_lies(keys.row(j), rows, adjacency, j) {
            return false;
        }
    }
    starts[keys.count] as usize == total
}
