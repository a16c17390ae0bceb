// optimizer.rs, the first part of short_circuit: what is always true, or changes nothing, is removed from a node. The node stands in y from lo to hi, and
// what becomes of it stands there from lo to the number that is handed back.
#![tactic(auto)]

ghost use Rattle.std.specs.Prelude.{◌&&◌, ◌≡◌};
ghost use Rattle.cells.specs.Cells.{tag_at};
ghost use Rattle.words.specs.Place.{NodeAt};
ghost use Rattle.nodes.specs.Columns.{ColumnsAt};
ghost use Rattle.labels.specs.Labels.{ExpressionEnds, ItemEnds};
ghost use Rattle.remove_useless.specs.RemoveUseless.{AlwaysTrue, OptionalAt, OptionalTrue, ItemPasses, ItemsAt, PassesThrough, Rewrites, Stays, Projects, Removes};

// Whether the expression that ends before hi is the constant true.
fn is_always(s: &[u32], hi: usize) -> bool
    requires { ExpressionEnds s.now hi }
    ensures { AlwaysTrue s.now hi result }
{
    let c = cells::cell_at(s, hi);
    c.tag == tags::BOOLEAN && c.a == 1
}

// The same of a predicate from lo to hi, which may be absent.
fn optional_is_always(s: &[u32], lo: usize, hi: usize) -> bool
    requires { OptionalAt s.now lo hi }
    ensures { OptionalTrue s.now lo hi result }
{
    lo != hi && is_always(s, hi)
}

// A Scan, without a predicate that is always true.
fn scan_without_true(y: &mut [u32], lo: usize, hi: usize) -> usize
    requires node_at { NodeAt y.old lo hi }
    requires hi_value { tag_at y.old hi ≡ 62 }
    ensures { Rewrites y.old lo hi result y.new }
{
    if optional_is_always(y, lo, hi - cells::CELL_WORDS) {
        let scan = cells::cell_at(y, hi);
        let k = cells::Cell {
            flag: scan.flag - 1,
            ..scan
        };
        return cells::put(y, lo, lo, k);
    }
    hi
}

// A NestedLoopJoin, without a predicate that is always true.
fn join_without_true(y: &mut [u32], lo: usize, hi: usize) -> usize
    requires node_at { NodeAt y.old lo hi }
    requires hi_value { tag_at y.old hi ≡ 56 }
    ensures { Rewrites y.old lo hi result y.new }
{
    let m = nodes::own_start(y, lo, hi);
    if optional_is_always(y, m, hi - cells::CELL_WORDS) {
        let nested = cells::cell_at(y, hi);
        let k = cells::Cell {
            flag: nested.flag - 1,
            ..nested
        };
        return cells::put(y, lo, m, k);
    }
    hi
}

// A Filter, or its source alone if the predicate is always true.
fn filter_or_source(y: &[u32], lo: usize, hi: usize) -> usize
    requires node_at { NodeAt y.now lo hi }
    requires hi_value { tag_at y.now hi ≡ 51 }
    ensures { Stays y.now lo hi result }
{
    if is_always(y, hi - cells::CELL_WORDS) {
        return nodes::own_start(y, lo, hi);
    }
    hi
}

// Whether the Item that ends before hi is column i without a label.
fn item_passes(s: &[u32], hi: usize, i: usize) -> bool
    requires { ItemEnds s.now hi }
    ensures { ItemPasses s.now hi i result }
{
    let c = cells::cell_at(s, hi);
    if 0 < c.flag {
        return false;
    }
    let e = cells::cell_at(s, hi - cells::CELL_WORDS);
    e.tag == tags::COLUMN && e.a as usize == i
}

// Whether the n Items from lo to hi are columns 0, 1, .., without labels. The Items are met from the last to the first.
pub fn pass_through(s: &[u32], lo: usize, hi: usize, n: usize) -> bool
    requires { ItemsAt s.now lo hi n }
    ensures { PassesThrough s.now lo hi n result }
{
    let mut end = hi;
    for i in (0..n).rev() {
        if !item_passes(s, end, i) {
            return false;
        }
        end -= 2 * cells::CELL_WORDS;
    }
    true
}

// A Projection, or its source alone if it passes the source's columns through. These are counted only for one that passes its first columns through.
fn projection_or_source(y: &[u32], lo: usize, hi: usize, tables: &[u8]) -> usize
    requires columns_at { ColumnsAt tables.now y.now lo hi }
    requires hi_value { tag_at y.now hi ≡ 60 }
    ensures { Projects tables.now y.now lo hi result }
{
    let m = nodes::own_start(y, lo, hi);
    let c = cells::cell_at(y, hi);
    let n = c.a as usize;
    if pass_through(y, m, hi - cells::CELL_WORDS, n) && nodes::columns(y, lo, m, tables) == n {
        return m;
    }
    hi
}

// The first match of short_circuit, by the node's tag: a Scan, a NestedLoopJoin, a Filter or a Projection may lose something, every other node stays.
pub fn remove_useless(y: &mut [u32], lo: usize, hi: usize, tables: &[u8]) -> usize
    requires { ColumnsAt tables.now y.old lo hi }
    ensures { Removes tables.now y.old lo hi result y.new }
{
    match cells::tag_at(y, hi) {
        tags::SCAN => scan_without_true(y, lo, hi),
        tags::NESTED_LOOP_JOIN => join_without_true(y, lo, hi),
        tags::FILTER => filter_or_source(y, lo, hi),
        tags::PROJECTION => projection_or_source(y, lo, hi, tables),
        _ => hi,
    }
}
