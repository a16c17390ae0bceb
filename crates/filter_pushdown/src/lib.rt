// optimizer.rs, FilterPushdown, in place (crate edit): the whole plan stands in the first t words of x, the node that is worked on from lo up to t - tail. A
// number of words past the end of x stands for refusal 14. y, z and w are scratch; tables are the table records (crate records). n bounds the nodes, as in
// the definition (crate sql, Room).
#![tactic(auto)]

ghost use Rattle.sql.specs.Room;
ghost use Rattle.kept.specs.Pass.{PassAt, Passes};
ghost use Rattle.push_filters.specs.Buffers.{Buffers};

// The sources of the node, left before right.
#[cycle(each_source_push_filters_from_push_source)]
fn each_source(
    x: &mut [u32],
    y: &mut [u32],
    z: &mut [u32],
    w: &mut [u32],
    n: usize,
    t: usize,
    lo: usize,
    tail: usize,
    tables: &[u8],
) -> usize
    requires pass_at { PassAt tables.now x.old t lo tail }
    requires buffers { Buffers x.old y.old z.old w.old }
    ensures { Passes (λ room schema. Room.each_source room schema (Room.push_filters_from room schema n)) tables.now x.old t lo tail result x.new }
{
    let count = nodes::source_count(x, lo, t - tail);
    if count == 0 {
        return t;
    }
    let m = nodes::own_start(x, lo, t - tail);
    if count == 1 {
        let u = push_source(x, y, z, w, n, t, lo, t - m, tables);
        if x.len() < u {
            return u;
        }
        return edit::reseal(x, u, lo, tail);
    }
    let back = t - cells::start(x, m);
    let u = push_source(x, y, z, w, n, t, lo, back, tables);
    if x.len() < u {
        return u;
    }
    let v = push_source(x, y, z, w, n, u, u - back, t - m, tables);
    if x.len() < v {
        return v;
    }
    edit::reseal(x, v, lo, tail)
}

// push_filters_from of a source of a node. A source of one cell, as a Scan without a filter, is left as it is, and needs no call.
#[cycle(each_source_push_filters_from_push_source)]
fn push_source(
    x: &mut [u32],
    y: &mut [u32],
    z: &mut [u32],
    w: &mut [u32],
    n: usize,
    t: usize,
    lo: usize,
    tail: usize,
    tables: &[u8],
) -> usize
    requires pass_at { PassAt tables.now x.old t lo tail }
    requires buffers { Buffers x.old y.old z.old w.old }
    ensures { Passes (λ room schema. Room.push_filters_from room schema n) tables.now x.old t lo tail result x.new }
{
    if t - tail - lo == cells::CELL_WORDS {
        return t;
    }
    push_filters_from(x, y, z, w, n, t, lo, tail, tables)
}

// A node, then the sources of what it became. A chain of nodes that stay as they are is gone through without a frame for each. Where the plan is as long as
// before, so is the node below the chain, and the sizes in the chain's cells are right already.
#[cycle(each_source_push_filters_from_push_source)]
fn push_filters_from(
    x: &mut [u32],
    y: &mut [u32],
    z: &mut [u32],
    w: &mut [u32],
    n: usize,
    t: usize,
    lo: usize,
    tail: usize,
    tables: &[u8],
) -> usize
    requires pass_at { PassAt tables.now x.old t lo tail }
    requires buffers { Buffers x.old y.old z.old w.old }
    ensures { Passes (λ room schema. Room.push_filters_from room schema n) tables.now x.old t lo tail result x.new }
{
    let deep = chain::descend(x, n, lo, t - tail);
    if deep.left == 0 {
        return t;
    }
    let back = t - deep.end;
    let u = push_filters::push_filters_in_place(x, y, z, w, deep.left, t, lo, back, tables);
    if x.len() < u {
        return u;
    }
    let v = each_source(x, y, z, w, deep.left - 1, u, lo, back, tables);
    if x.len() < v {
        return v;
    }
    if v == t {
        return v;
    }
    chain::reseal(x, v, lo, v - back, tail)
}

// The whole plan, which has t / 7 cells, and no more nodes than cells.
pub fn filter_pushdown(
    x: &mut [u32],
    y: &mut [u32],
    z: &mut [u32],
    w: &mut [u32],
    t: usize,
    tables: &[u8],
) -> usize
    requires pass_at { PassAt tables.now x.old t 0 0 }
    requires buffers { Buffers x.old y.old z.old w.old }
    ensures { Passes Room.FilterPushdown tables.now x.old t 0 0 result x.new }
{
    push_filters_from(x, y, z, w, t / cells::CELL_WORDS, t, 0, 0, tables)
}
