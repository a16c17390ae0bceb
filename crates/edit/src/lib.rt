// Edits of a plan in place: the whole plan stands in the first t words of x, the node that is worked on from lo up to t - tail.
#![tactic(auto)]

ghost use Rattle.std.specs.Prelude.{◌≡◌, ◌+◌, ◌-◌, ◌≤◌, length};
ghost use Rattle.edit.specs.Edit.{Replaces, Reseals, ReplacesOwn};
ghost use Rattle.cells.specs.Cells.{cell_words};

// The first n words of the scratch y take the place of the words of x from `from` up to t - tail. Where they are as many as those were, the words behind
// them stay where they are; otherwise these are moved within x, once.
fn replace(x: &mut [u32], y: &mut [u32], n: usize, t: usize, from: usize, tail: usize) -> usize
    requires { (from + tail ≤ t) × (t ≤ length x.old) }
    ensures { Replaces x.old y.old n t from tail result x.new }
{
    if y.len() < n {
        return n;
    }
    let end = t - tail;
    if n == end - from {
        x[from..end].copy_from_slice(&y[..n]);
        return t;
    }
    if x.len() - from - tail < n {
        return cells::FULL;
    }
    let to = from + n;
    x.copy_within(end..t, to);
    x[from..to].copy_from_slice(&y[..n]);
    to + tail
}

// The node's cell says how long the node is, after its sources were edited.
pub fn reseal(x: &mut [u32], t: usize, lo: usize, tail: usize) -> usize
    requires { (lo + cell_words + tail ≤ t) × (t ≤ length x.old) }
    ensures { Reseals x.old t lo tail result x.new }
{
    let hi = t - tail;
    if 4294967295 < hi - lo {
        return cells::FULL;
    }
    x[hi - 1] = (hi - lo) as u32;
    t
}

// The first n words of the scratch y, of which the last are a cell, take the place of the own words and the cell of the node from lo up to t - tail: of the
// words of x from `own` on. The cell then says how long the node is.
pub fn replace_own(
    x: &mut [u32],
    y: &mut [u32],
    n: usize,
    t: usize,
    lo: usize,
    own: usize,
    tail: usize,
) -> usize
    requires tail_bound { (own + tail ≤ t) × (t ≤ length x.old) }
    requires lo_le_own { (lo ≤ own) × (n ≤ length y.old → cell_words ≤ n) }
    requires y_len { length y.old ≡ length x.old }
    ensures { ReplacesOwn x.old y.old n t lo own tail result x.new }
{
    let u = replace(x, y, n, t, own, tail);
    if x.len() < u {
        return u;
    }
    reseal(x, u, lo, tail)
}
