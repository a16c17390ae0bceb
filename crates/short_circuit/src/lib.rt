// optimizer.rs, pass 5: ShortCircuit. The plan is read in x, and what becomes of it is written to y, sources before the node (crate stream). z is a
// scratch for labels. tables and columns are the schema's records (crate records).
#![tactic(auto)]

ghost use Rattle.std.specs.Prelude.{◌≡◌, ◌+◌, ◌≤◌, length};
ghost use Rattle.cells.specs.Room.{most_words};
ghost use Rattle.nodes.specs.Columns.{ColumnsAt};
ghost use Rattle.records.specs.Records.{RecordsAt};
ghost use Rattle.short_circuit.specs.ShortCircuit.{Empties, CircuitsNode, CircuitAt, Circuits, ClimbsAt, Climbs};

// The node from lo to hi, which can't produce anything, becomes a Nothing that keeps its labels; all have the node's origin. Room for these is asked for
// before they are written.
fn into_nothing(
    y: &mut [u32],
    lo: usize,
    hi: usize,
    tail: usize,
    z: &mut [u32],
    tables: &[u8],
    columns: &[u8],
) -> usize
    requires columns_at { ColumnsAt tables.now y.old lo hi }
    requires records_at { RecordsAt tables.now columns.now }
    requires z_len { (length z.old ≡ length y.old) × ((hi + tail ≤ length y.old) × (length y.old ≤ most_words)) }
    ensures { Empties tables.now columns.now y.old lo hi tail result y.new }
{
    let n = nodes::columns(y, lo, hi, tables);
    if y.len() - tail - lo < cells::CELL_WORDS * n + cells::CELL_WORDS {
        return cells::FULL;
    }
    let origin = cells::origin_at(y, hi);
    let end = column_labels::write_labels(y, lo, hi, z, 0, tables, columns, origin);
    let at = cells::copy(z, 0, end, y, lo);
    let k = cells::Cell {
        a: n as u32,
        ..cells::Cell::new(tags::NOTHING, origin)
    };
    cells::put(y, lo, at, k)
}

// short_circuit of the node that stands in y from lo to hi, with room for tail words behind it.
fn short_circuit_node(
    y: &mut [u32],
    lo: usize,
    hi: usize,
    tail: usize,
    z: &mut [u32],
    tables: &[u8],
    columns: &[u8],
) -> usize
    requires columns_at { ColumnsAt tables.now y.old lo hi }
    requires records_at { RecordsAt tables.now columns.now }
    requires z_len { (length z.old ≡ length y.old) × ((hi + tail ≤ length y.old) × (length y.old ≤ most_words)) }
    ensures { CircuitsNode tables.now columns.now y.old lo hi tail result y.new }
{
    let end = remove_useless::remove_useless(y, lo, hi, tables);
    if is_empty::is_empty(y, lo, end) {
        return into_nothing(y, lo, end, tail, z, tables, columns);
    }
    end
}

// The pass on the bare nodes (crate chain) whose cells stand in x from `end` up to hi, from the lowest on. What became of the node below them was written
// to y from `at` up to u.
fn climb(
    x: &[u32],
    end: usize,
    hi: usize,
    tail: usize,
    y: &mut [u32],
    at: usize,
    u: usize,
    z: &mut [u32],
    tables: &[u8],
    columns: &[u8],
) -> usize
    requires climbs_at { ClimbsAt tables.now columns.now x.now end hi tail y.old at u }
    requires z_len { length z.old ≡ length y.old }
    ensures { Climbs tables.now columns.now x.now end hi tail y.old at u result y.new }
{
    let mut n = u;
    for m in (end..hi).step_by(cells::CELL_WORDS) {
        if y.len() < n {
            return n;
        }
        let above = m + cells::CELL_WORDS;
        let v = stream::finish(x, m, above, y, at, n);
        n = short_circuit_node(y, at, v, tail + (hi - above), z, tables, columns);
    }
    n
}

// The pass on the node from lo to hi of x, with tail words of the plan left to read behind it, and `at` words written to y before it.
// A chain of bare nodes is gone through without a frame for each.
#[cycle(short_circuit_short_circuit_source)]
pub fn short_circuit(
    x: &[u32],
    lo: usize,
    hi: usize,
    tail: usize,
    y: &mut [u32],
    at: usize,
    z: &mut [u32],
    tables: &[u8],
    columns: &[u8],
) -> usize
    requires circuit_at { CircuitAt tables.now columns.now x.now lo hi tail y.old at }
    requires z_len { length z.old ≡ length y.old }
    ensures { Circuits tables.now columns.now x.now lo hi tail y.old at result y.new }
{
    let n = nodes::source_count(x, lo, hi);
    if n == 0 {
        let end = cells::copy(x, lo, hi, y, at);
        return short_circuit_node(y, at, end, tail, z, tables, columns);
    }
    let m = nodes::own_start(x, lo, hi);
    let back = tail + (hi - m);
    if n == 1 {
        let end = chain::descend_bare(x, lo, m);
        let behind = back + (m - end);
        let u = short_circuit_source(x, lo, end, behind, y, at, z, tables, columns);
        let v = climb(x, end, m, back, y, at, u, z, tables, columns);
        if y.len() < v {
            return v;
        }
        let end = stream::finish(x, m, hi, y, at, v);
        return short_circuit_node(y, at, end, tail, z, tables, columns);
    }
    let mid = cells::start(x, m);
    let behind = tail + (hi - mid);
    let u = short_circuit_source(x, lo, mid, behind, y, at, z, tables, columns);
    if y.len() < u {
        return u;
    }
    let v = short_circuit_source(x, mid, m, back, y, u, z, tables, columns);
    if y.len() < v {
        return v;
    }
    let end = stream::finish(x, m, hi, y, at, v);
    short_circuit_node(y, at, end, tail, z, tables, columns)
}

// The same for a source. A Scan without a filter, one cell alone, stays as it is, and needs no call of short_circuit.
#[cycle(short_circuit_short_circuit_source)]
fn short_circuit_source(
    x: &[u32],
    lo: usize,
    hi: usize,
    tail: usize,
    y: &mut [u32],
    at: usize,
    z: &mut [u32],
    tables: &[u8],
    columns: &[u8],
) -> usize
    requires circuit_at { CircuitAt tables.now columns.now x.now lo hi tail y.old at }
    requires z_len { length z.old ≡ length y.old }
    ensures { Circuits tables.now columns.now x.now lo hi tail y.old at result y.new }
{
    if hi - lo == cells::CELL_WORDS && cells::tag_at(x, hi) == tags::SCAN {
        return cells::copy(x, lo, hi, y, at);
    }
    short_circuit(x, lo, hi, tail, y, at, z, tables, columns)
}
