// optimizer.rs, IndexLookup, as plan.rs's transform applies it: the plan is read in one slice, and what becomes of it is written to another (crate stream).
#![tactic(auto)]

ghost use Rattle.std.specs.Prelude.{◌≡◌, ◌-◌, ◌<◌, length};
ghost use Rattle.sql.specs.Room.{IndexLookup};
ghost use Rattle.stream.specs.Stream.{StreamAt, Streams};
ghost use Rattle.records.specs.Records.{Records};

// IndexLookup of the node from lo to hi, whose sources are visited left before right. A chain of nodes that stay as they are is gone through without a frame
// for each (crate chain). What is lent beside x and y is for the step (crate lookup_step).
#[cycle(transform_transform_source)]
pub fn transform(
    x: &[u32],
    lo: usize,
    hi: usize,
    tail: usize,
    y: &mut [u32],
    at: usize,
    z: &mut [u32],
    w: &mut [u32],
    tables: &[u8],
    columns: &[u8],
) -> usize
    requires stream_at { StreamAt (Records tables.now columns.now) x.now lo hi tail y.old at }
    requires z_len { (length z.old ≡ length y.old) × (length w.old ≡ length y.old) }
    ensures { Streams (Records tables.now columns.now) IndexLookup x.now lo hi tail y.old at result y.new }
{
    let below = chain::descend(x, hi, lo, hi);
    let end = below.end;
    let back = tail + (hi - end);
    let n = nodes::source_count(x, lo, end);
    if n == 0 {
        let u = lookup_step::index_lookup(x, lo, end, back, y, at, z, w, tables, columns);
        return chain::follow(x, end, hi, y, at, u);
    }
    let m = nodes::own_start(x, lo, end);
    let after = back + (end - m);
    if n == 1 {
        let u = transform_source(x, lo, m, after, y, at, z, w, tables, columns);
        if y.len() < u {
            return u;
        }
        let v = stream::finish(x, m, end, y, at, u);
        return chain::follow(x, end, hi, y, at, v);
    }
    let mid = cells::start(x, m);
    let behind = back + (end - mid);
    let u = transform_source(x, lo, mid, behind, y, at, z, w, tables, columns);
    if y.len() < u {
        return u;
    }
    let v = transform_source(x, mid, m, after, y, u, z, w, tables, columns);
    if y.len() < v {
        return v;
    }
    let r = stream::finish(x, m, end, y, at, v);
    chain::follow(x, end, hi, y, at, r)
}

// transform of a node's source. A source of one cell, as a Scan without a filter, stays as it is, and needs no call of transform.
#[cycle(transform_transform_source)]
fn transform_source(
    x: &[u32],
    lo: usize,
    hi: usize,
    tail: usize,
    y: &mut [u32],
    at: usize,
    z: &mut [u32],
    w: &mut [u32],
    tables: &[u8],
    columns: &[u8],
) -> usize
    requires stream_at { StreamAt (Records tables.now columns.now) x.now lo hi tail y.old at }
    requires z_len { (length z.old ≡ length y.old) × (length w.old ≡ length y.old) }
    ensures { Streams (Records tables.now columns.now) IndexLookup x.now lo hi tail y.old at result y.new }
{
    if hi - lo == cells::CELL_WORDS {
        return cells::copy(x, lo, hi, y, at);
    }
    transform(x, lo, hi, tail, y, at, z, w, tables, columns)
}
