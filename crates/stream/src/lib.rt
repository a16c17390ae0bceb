// Streamed passes: the plan is read in one slice, and what becomes of it is written to another, a node's sources before its own words and its cell.
#![tactic(auto)]

ghost use Rattle.std.specs.Prelude.{◌+◌, ◌≤◌, length};
ghost use Rattle.stream.specs.Stream.{Finishes, InRoom};
ghost use Rattle.cells.specs.Cells.{cell_words};

// The own words of the node that ends before hi, which start at m, and its cell, behind the sources that were written to y from lo up to at.
pub fn finish(x: &[u32], m: usize, hi: usize, y: &mut [u32], lo: usize, at: usize) -> usize
    requires { (m + cell_words ≤ hi) × (hi ≤ length x.now) }
    ensures { Finishes x.now m hi y.old lo at result y.new }
{
    let end = cells::copy(x, m, hi - cells::CELL_WORDS, y, at);
    cells::put(y, lo, end, cells::cell_at(x, hi))
}

// The n words that are written, if the tail words that are left to read have room behind them.
pub fn in_room(y: &[u32], n: usize, tail: usize) -> usize
    ensures { InRoom y.now n tail result }
{
    if y.len() < n {
        return n;
    }
    if y.len() - n < tail {
        return cells::FULL;
    }
    n
}
