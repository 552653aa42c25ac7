// Rows met in a list as it is: the same search by chains, but nothing is stored in the list.
// `head`, `next`, and `numbers` with `at`, stay parameters of their own, as in the numbering.
ghost use Rattle.std.specs.Prelude.{[], ◌∷◌, ◌*◌, ◌≤◌, length};
ghost use Rattle.lists.specs.Lent.{rows_of};
ghost use Rattle.lists.specs.Chains.{Comparable, Compared};

use crate::flat_rows::FlatRows;
use crate::numbering::{chain_of, find_row, link_row, same_row};

// A row is met in a list of `most` rows as it is: it is one of the first n, or it has to be row n. Its number goes to
// `numbers` at `at`. Answers how many of its rows are known then, and nothing where the list has another row.
fn match_row(
    list: &[u32],
    head: &mut [u32],
    next: &mut [u32],
    n: usize,
    most: usize,
    row: &[u32],
    numbers: &mut [u32],
    at: usize,
) -> Option<usize>
    requires { Comparable (length row.now) list.now head.old next.old numbers.old n most at 1 }
    ensures { Compared (length row.now) list.now head.new next.new numbers.old numbers.new n most at (row.now ∷ []) result }
{
    let chain = chain_of(row);
    let k = find_row(list, head, next, n, row, chain);
    numbers[at] = k as u32;
    if k < n {
        return Some(n);
    }
    if n == most {
        return None;
    }
    if !same_row(list, row.len() * n, row) {
        return None;
    }
    link_row(head, next, n, chain);
    Some(n + 1)
}

// The given rows are met, in order, in a list of `most` rows as it is. Their numbers go to
// `numbers` from `at` on. Answers how many of its rows are known then, and nothing where the list has other rows.
pub fn match_rows(
    list: &[u32],
    head: &mut [u32],
    next: &mut [u32],
    n: usize,
    most: usize,
    given: &FlatRows<'_>,
    numbers: &mut [u32],
    at: usize,
) -> Option<usize>
    requires { Comparable given.now.width list.now head.old next.old numbers.old n most at given.now.count }
    ensures { Compared given.now.width list.now head.new next.new numbers.old numbers.new n most at (rows_of given.now) result }
{
    let mut m = n;
    // No `chunks_exact`: a width may be 0.
    for q in 0..given.count {
        m = match_row(list, head, next, m, most, given.row(q), numbers, at + q)?;
    }
    Some(m)
}
