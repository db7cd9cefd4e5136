//! Tables of stations in flat slices: where an entry stands, row after row. A lab has at most ten stations.
#![tactic(auto)]

ghost use Rattle.std.specs.Prelude.{◌≡◌, ◌+◌, ◌*◌, ◌<◌, ◌≤◌};
ghost use Rattle.grid.specs.Grid.{row_index};

// The entry of column j in row i, where a row has n columns. The votes have the most rows: 2 · 10 · 10.
fn row_index(n: usize, i: usize, j: usize) -> usize
    requires columns { n ≤ 10 }
    requires row { i < 200 }
    requires column { j < n }
    ensures { result ≡ row_index n i j }
{
    i * n + j
}

// The entry of two stations.
pub fn pair_index(n: usize, i: usize, j: usize) -> usize
    requires few { n ≤ 10 }
    requires row { i < n }
    requires column { j < n }
    ensures value { result ≡ row_index n i j }
    ensures within { result < n * n }
{
    row_index(n, i, j)
}

// The entry of three stations.
pub fn triple_index(n: usize, i: usize, j: usize, k: usize) -> usize
    requires few { n ≤ 10 }
    requires first { i < n }
    requires second { j < n }
    requires third { k < n }
    ensures value { result ≡ row_index n (row_index n i j) k }
    ensures within { result < n * n * n }
{
    row_index(n, row_index(n, i, j), k)
}

// The first entry of two stations in one of the two halves of a table of votes; those of the other voters follow it.
pub fn votes_index(n: usize, half: usize, i: usize, j: usize) -> usize
    requires few { n ≤ 10 }
    requires half { half < 2 }
    requires first { i < n }
    requires second { j < n }
    ensures value { result ≡ row_index n (row_index n half i) j * n }
    ensures within { result + n ≤ 2 * n * n * n }
{
    row_index(n, row_index(n, half, i), j) * n
}

// The entry of a voter among them.
pub fn vote_index(n: usize, half: usize, i: usize, j: usize, k: usize) -> usize
    requires few { n ≤ 10 }
    requires half { half < 2 }
    requires first { i < n }
    requires second { j < n }
    requires third { k < n }
    ensures value { result ≡ row_index n (row_index n (row_index n half i) j) k }
    ensures within { result < 2 * n * n * n }
{
    votes_index(n, half, i, j) + k
}
