// Words that stand one after another. A word past the end is 0, as in `rows`.
ghost use Rattle.std.specs.Prelude.{◌+◌, ◌<◌, ◌≤◌, length};
ghost use Rattle.table.specs.Runs.{RunAt};

use crate::rows::word;

// N words from a place on. One test does for all of them where they are given.
pub fn words_from<const N: usize>(table: &[u32], i: usize) -> [u32; N]
    requires { i + N < 4611686018427387904 }
    ensures { RunAt table.now i N result }
{
    if i + N <= table.len() {
        return given_from(table, i);
    }
    let mut run = [0; N];
    for k in 0..N {
        run[k] = word(table, i + k);
    }
    run
}

// N words from a place on, all of which are given.
pub fn given_from<const N: usize>(table: &[u32], i: usize) -> [u32; N]
    requires { i + N ≤ length table.now }
    ensures { RunAt table.now i N result }
{
    let mut run = [0; N];
    run.copy_from_slice(&table[i..i + N]);
    run
}
