// Rows of one width in a flat list. Each row is in the chain that its hash names, and a chain is walked from its last row.
// `head` and `next` are no struct of two `&mut`: each clause would name its fields, and one clause more would say that each is written
// where it was lent. `numbers` is lent whole, with `at`: the clauses say that the rest is kept.
ghost use Rattle.std.specs.Prelude.{◌≡◌, [], ◌∷◌, ◌++◌, ◌+◌, ◌*◌, ◌≤◌, ◌<◌, length, slice_index, slice_set, take, drop};
ghost use Rattle.lists.specs.Keys.{eqs, find};
ghost use Rattle.lists.specs.Lent.{rows_of};
ghost use Rattle.lists.specs.Rows.{rows};
ghost use Rattle.lists.specs.Chains.{hash, Indexed, Ready, Met};

use crate::flat_rows::FlatRows;

// The chain that a row is in.
pub fn chain_of(row: &[u32]) -> usize
    ensures { result ≡ hash row.now }
{
    let mut h = 0;
    for v in row {
        h = (h * 3571 + *v as usize) % 32768;
    }
    h
}

// Whether the row that starts at `at` is `row`. No `==` of slices: it calls a comparison by groups, which takes longer for so
// few numbers.
pub fn same_row(list: &[u32], at: usize, row: &[u32]) -> bool
    requires { at + length row.now ≤ length list.now }
    ensures { result ≡ eqs row.now (take (length row.now) (drop at list.now)) }
{
    row.iter()
        .zip(&list[at..at + row.len()])
        .all(|(a, b)| a == b)
}

// The number of `row`, which is in this chain, among the first n rows of its width; n where it is not there.
pub fn find_row(
    list: &[u32],
    head: &[u32],
    next: &[u32],
    n: usize,
    row: &[u32],
    chain: usize,
) -> usize
    requires { (length row.now * n ≤ length list.now) × (chain ≡ hash row.now) × Indexed (rows (length row.now) n list.now) head.now next.now }
    ensures { result ≡ find row.now (rows (length row.now) n list.now) }
{
    let w = row.len();
    // A walk by links and no count: `head` and `next` have 1 + a row, and 0 where a chain ends. No map and no Option: there is no heap,
    // and zeros are what fixed memory begins with.
    let mut cur = head[chain] as usize;
    while 0 < cur {
        let k = cur - 1;
        if same_row(list, w * k, row) {
            return k;
        }
        cur = next[k] as usize;
    }
    n
}

// A row is copied to `at`: the library's method, under the name that clauses and callers cite.
pub fn copy_row(list: &mut [u32], at: usize, row: &[u32])
    requires { at + length row.now ≤ length list.old }
    ensures { list.new ≡ take at list.old ++ row.now ++ drop (at + length row.now) list.old }
{
    list[at..at + row.len()].copy_from_slice(row);
}

// Row n goes to the end of a chain, which is searched from its last row.
pub fn link_row(head: &mut [u32], next: &mut [u32], n: usize, chain: usize)
    requires { (chain < length head.old) × (n < length next.old) × (n < 1000000) }
    ensures head { head.new ≡ slice_set head.old chain (n + 1) }
    ensures next { next.new ≡ slice_set next.old n (slice_index head.old chain) }
{
    next[n] = head[chain];
    head[chain] = (n + 1) as u32;
}

// A row is met: it becomes row n unless it is there already. Its number goes to `numbers` at `at`. Answers how many rows there are now.
fn meet_row(
    list: &mut [u32],
    head: &mut [u32],
    next: &mut [u32],
    n: usize,
    row: &[u32],
    numbers: &mut [u32],
    at: usize,
) -> usize
    requires { Ready (length row.now) list.old head.old next.old numbers.old n at 1 }
    ensures { Met (length row.now) list.old list.new head.new next.new numbers.old numbers.new n at (row.now ∷ []) result }
{
    let chain = chain_of(row);
    let k = find_row(list, head, next, n, row, chain);
    numbers[at] = k as u32;
    if k < n {
        return n;
    }
    copy_row(list, row.len() * n, row);
    link_row(head, next, n, chain);
    n + 1
}

// The given rows are met, in order. Their numbers go to `numbers` from `at` on.
// Answers how many rows there are now.
pub fn meet_rows(
    list: &mut [u32],
    head: &mut [u32],
    next: &mut [u32],
    n: usize,
    given: &FlatRows<'_>,
    numbers: &mut [u32],
    at: usize,
) -> usize
    requires { Ready given.now.width list.old head.old next.old numbers.old n at given.now.count }
    ensures { Met given.now.width list.old list.new head.new next.new numbers.old numbers.new n at (rows_of given.now) result }
{
    let mut m = n;
    // No `chunks_exact`: a width may be 0.
    for q in 0..given.count {
        m = meet_row(list, head, next, m, given.row(q), numbers, at + q);
    }
    m
}
