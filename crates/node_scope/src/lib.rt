// What refusal 9 of document 01 asks of one node, and the node's number of columns. A node's own cells are those of its expressions and parts: they stand
// between the node before it and its own cell.
#![tactic(auto)]

ghost use Rattle.std.specs.Prelude.{◌≡◌, ◌+◌, ◌≤◌, ◌<◌, max};
ghost use Rattle.sheet.specs.Cell.{cell};
ghost use Rattle.sheet.specs.Scope.{table_columns};
ghost use Rattle.sheet.specs.Check.{schema};
ghost use Rattle.layout.specs.Layout.{Number, Whole, as_cell, found};
ghost use Rattle.node_scope.specs.Own.{sources, of_table, segment, column_below, column_out, first_row, rows_have, row_has, target_end, targets_end, columns_read, node_fits, node_outside, node_columns};
ghost use Rattle.node_scope.specs.Range.{Range, CellAt, Wide};

use layout::{Cell, cell_at, parts_of, table_at};

// ---- own cells

// A cell is no Column, or one below n.
fn column_below(k: Cell, n: usize) -> bool
    ensures { result ≡ column_below n (as_cell k) }
{
    k.tag != tags::COLUMN || k.a < n
}

// The first Column that is not below n.
fn column_outside(s: &[u8], from: usize, to: usize, n: usize) -> Option<usize>
    requires { Range s.now from to }
    ensures { found result ≡ column_out n from (segment s.now from to) }
{
    for i in from..to {
        if !column_below(cell_at(s, i), n) {
            return Some(i);
        }
    }
    None
}

// The number of expressions in the first Row, or 0.
fn first_row(s: &[u8], from: usize, to: usize) -> usize
    requires { Range s.now from to }
    ensures { Number 4294967296 (first_row (segment s.now from to)) result }
{
    for i in from..to {
        let k = cell_at(s, i);
        if k.tag == tags::ROW {
            return k.a;
        }
    }
    0
}

// A cell is no Row, or one of n expressions.
fn row_has(k: Cell, n: usize) -> bool
    ensures { result ≡ row_has n (as_cell k) }
{
    k.tag != tags::ROW || k.a == n
}

// Each Row has n expressions.
fn rows_have(s: &[u8], from: usize, to: usize, n: usize) -> bool
    requires { Range s.now from to }
    ensures { result ≡ rows_have n (segment s.now from to) }
{
    for i in from..to {
        if !row_has(cell_at(s, i), n) {
            return false;
        }
    }
    true
}

// One past the number of a Target, 0 if it has none; `end` if that is more.
fn target_end(k: Cell, end: usize) -> usize
    requires { (k.a < 4294967296) × (end ≤ 4294967296) }
    ensures { (result ≡ max end (target_end (as_cell k))) × (result ≤ 4294967296) }
{
    if k.flag == 1 { end.max(k.a + 1) } else { end }
}

// One past the highest number of a Target.
fn targets_end(s: &[u8], from: usize, to: usize) -> usize
    requires { Range s.now from to }
    ensures { (result ≡ targets_end (segment s.now from to)) × (result ≤ 4294967296) }
{
    let mut end: usize = 0;
    for i in from..to {
        end = target_end(cell_at(s, i), end);
    }
    end
}

// ---- a node, whose own cells are those from `own` up to its cell `at`

// The number of sources of a node: two of 52 HashJoin and 56 NestedLoopJoin; none of 53 IndexLookup, 54 KeyLookup, 57 Nothing, 62 Scan and 63 Values; one
// of any other node; and none of a tag from 64 on, which no node has.
pub fn sources(tag: u32) -> usize
    requires { 50 ≤ tag }
    ensures { (result ≡ sources tag) × (result ≤ 2) }
{
    match tag {
        tags::HASH_JOIN | tags::NESTED_LOOP_JOIN => 2,
        tags::AGGREGATE | tags::FILTER | tags::LIMIT | tags::OFFSET | tags::ORDER => 1,
        tags::PROJECTION | tags::REMAP => 1,
        _ => 0,
    }
}

// The number of columns of a table, 0 if there is none.
fn table_columns(s: &[u8], table: usize) -> usize
    requires { Whole s.now }
    ensures { Number 4294967296 (table_columns (schema s.now) table) result }
{
    let p = parts_of(s);
    if p.tables.count <= table {
        return 0;
    }
    table_at(s, table).count
}

// IndexLookup, KeyLookup and Scan read a table.
fn of_table(tag: u32) -> bool
    ensures { result ≡ of_table tag }
{
    matches!(tag, tags::INDEX_LOOKUP | tags::KEY_LOOKUP | tags::SCAN)
}

// The number of columns that a node reads: its table's, or all its sources'.
pub fn columns_read(s: &[u8], at: usize, left: usize, right: usize) -> usize
    requires cell_at { CellAt s.now at }
    requires right_bound { left + right ≤ 18446744069414584320 }
    ensures { Wide (left + right) (columns_read (schema s.now) left right (cell s.now at)) result }
{
    let k = cell_at(s, at);
    if of_table(k.tag) {
        return table_columns(s, k.a);
    }
    left + right
}

// The node's rule holds: a HashJoin's columns are below its sources', an IndexLookup's below its table's, a Remap has a Target for each column, and the
// Rows of a Values are equally long.
fn node_fits(s: &[u8], own: usize, at: usize, left: usize, right: usize, n: usize) -> bool
    requires { Range s.now own at × CellAt s.now at }
    ensures { result ≡ node_fits left right n (segment s.now own at) (cell s.now at) }
{
    let k = cell_at(s, at);
    match k.tag {
        tags::HASH_JOIN => k.a < left && k.b < right,
        tags::INDEX_LOOKUP => k.c % 65536 < n,
        tags::REMAP => k.a == n,
        tags::VALUES => rows_have(s, own, at, first_row(s, own, at)),
        _ => true,
    }
}

// The lowest of a node's own cells, or the node, that is out of scope.
pub fn node_outside(
    s: &[u8],
    own: usize,
    at: usize,
    left: usize,
    right: usize,
    n: usize,
) -> Option<usize>
    requires { Range s.now own at × CellAt s.now at }
    ensures { found result ≡ node_outside left right n own (segment s.now own at) (cell s.now at) }
{
    if let Some(i) = column_outside(s, own, at, n) {
        return Some(i);
    }
    if node_fits(s, own, at, left, right, n) {
        return None;
    }
    Some(at)
}

// The number of columns that a node emits.
pub fn node_columns(s: &[u8], own: usize, at: usize, n: usize) -> usize
    requires { Range s.now own at × CellAt s.now at }
    ensures { Wide n (node_columns n (segment s.now own at) (cell s.now at)) result }
{
    let k = cell_at(s, at);
    match k.tag {
        tags::AGGREGATE => k.a + k.b,
        tags::NOTHING | tags::PROJECTION => k.a,
        tags::REMAP => targets_end(s, own, at),
        tags::VALUES => first_row(s, own, at),
        _ => n,
    }
}
