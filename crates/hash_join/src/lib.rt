// optimizer.rs, HashJoin: a nested loop join on one column of each side becomes a hash join. The plan is read in one slice and written to another (crate
// stream). No step needs more room than what it rewrites.
#![tactic(auto)]

ghost use Rattle.std.specs.Prelude.{◌≡◌};
ghost use Rattle.sql.specs.Answer.{done};
ghost use Rattle.sql.specs.Optimizer.{HashJoin};
ghost use Rattle.nodes.specs.Own.{OwnStart, SourceCount};
ghost use Rattle.nodes.specs.Columns.{ColumnsAt, ColumnCount};
ghost use Rattle.records.specs.Records.{Tables};
ghost use Rattle.column_lookup.specs.Lookup.{pair};
ghost use Rattle.stream.specs.Stream.{StreamAt, Streams};
ghost use Rattle.hash_join.specs.Hash.{sides, hash_sides, hash_cell, JoinAt, Rewrites, Writes};

use column_numbers::{JoinedColumn, LeftColumn, RightColumn, SourceColumn};
use words::Expression;

// The columns of an equijoin in their sources, if one is on each side; the left source has n columns.
fn one_on_each_side(
    columns: Option<(JoinedColumn, JoinedColumn)>,
    n: usize,
) -> Option<(LeftColumn, RightColumn)>
    ensures { sides result ≡ hash_sides n (pair columns) }
{
    let (lower, higher) = columns?;
    match (lower.source(n), higher.source(n)) {
        (SourceColumn::Left(left), SourceColumn::Right(right)) => Some((left, right)),
        _ => None,
    }
}

// A HashJoin's cell, from the cell of the NestedLoopJoin, whose flag's bit 1 says that it is outer.
fn hash_join_cell(nested: cells::Cell, left: LeftColumn, right: RightColumn) -> cells::Cell
    ensures { result ≡ hash_cell nested left.0 right.0 }
{
    cells::Cell {
        origin: nested.origin,
        tag: tags::HASH_JOIN,
        flag: nested.flag / 2,
        a: left.0,
        b: right.0,
        c: 0,
    }
}

// hash_join of the join that ends before hi, whose own words start at m and whose left source has n columns: behind its sources, which were written to y
// from lo up to at.
fn hash_join(x: &[u32], m: usize, hi: usize, y: &mut [u32], lo: usize, at: usize, n: usize) -> usize
    requires { JoinAt x.now m hi }
    ensures { Rewrites n x.now m hi y.old lo at result y.new }
{
    let end = hi - cells::CELL_WORDS;
    if m == end {
        return stream::finish(x, m, hi, y, lo, at);
    }
    let predicate = Expression { words: &x[m..end] };
    let columns = column_lookup::equijoin(predicate);
    let Some((left_column, right_column)) = one_on_each_side(columns, n) else {
        return stream::finish(x, m, hi, y, lo, at);
    };
    let cell = hash_join_cell(cells::cell_at(x, hi), left_column, right_column);
    cells::put(y, lo, at, cell)
}

// The columns of the node from lo to hi over one source, which has n columns.
fn over_columns(x: &[u32], lo: usize, hi: usize, tables: &[u8], m: usize, n: usize) -> usize
    requires columns_at { ColumnsAt tables.now x.now lo hi }
    requires source_count { SourceCount x.now lo hi 1 }
    requires own_start { OwnStart x.now lo hi m }
    requires column_count { ColumnCount tables.now x.now lo m n }
    ensures { ColumnCount tables.now x.now lo hi result }
{
    let tag = cells::tag_at(x, hi);
    if tag == tags::AGGREGATE || tags::PROJECTION <= tag {
        return nodes::columns(x, lo, hi, tables);
    }
    n
}

// A node that is written up to the word `end`, and how many columns it has.
#[derive(Clone, Copy)]
struct Written {
    pub end: usize,
    pub columns: usize,
}

// The node from lo to hi with all its joins rewritten.
#[cycle(hash_joins_hash_joins_of_source)]
fn hash_joins(x: &[u32], lo: usize, hi: usize, y: &mut [u32], at: usize, tables: &[u8]) -> Written
    requires { ColumnsAt tables.now x.now lo hi }
    ensures writes { Writes tables.now x.now lo hi y.old at result.end y.new }
    ensures column_count { ColumnCount tables.now x.now lo hi result.columns }
{
    let sources = nodes::source_count(x, lo, hi);
    if sources == 0 {
        let columns = nodes::columns(x, lo, hi, tables);
        let end = cells::copy(x, lo, hi, y, at);
        return Written { end, columns };
    }
    let m = nodes::own_start(x, lo, hi);
    if sources == 1 {
        let s = hash_joins_of_source(x, lo, m, y, at, tables);
        let columns = over_columns(x, lo, hi, tables, m, s.columns);
        let end = stream::finish(x, m, hi, y, at, s.end);
        return Written { end, columns };
    }
    let mid = cells::start(x, m);
    let l = hash_joins_of_source(x, lo, mid, y, at, tables);
    let r = hash_joins_of_source(x, mid, m, y, l.end, tables);
    let end = hash_join(x, m, hi, y, at, r.end, l.columns);
    Written {
        end,
        columns: l.columns + r.columns,
    }
}

// hash_joins of a node's source. A source of one cell, as a Scan without a filter, stays as it is, and needs no call of hash_joins.
#[cycle(hash_joins_hash_joins_of_source)]
fn hash_joins_of_source(
    x: &[u32],
    lo: usize,
    hi: usize,
    y: &mut [u32],
    at: usize,
    tables: &[u8],
) -> Written
    requires { ColumnsAt tables.now x.now lo hi }
    ensures writes { Writes tables.now x.now lo hi y.old at result.end y.new }
    ensures column_count { ColumnCount tables.now x.now lo hi result.columns }
{
    if hi - lo == cells::CELL_WORDS {
        let columns = nodes::columns(x, lo, hi, tables);
        let end = cells::copy(x, lo, hi, y, at);
        return Written { end, columns };
    }
    hash_joins(x, lo, hi, y, at, tables)
}

// The pass: the plan in the first t words of x is written to y.
pub fn optimize(x: &[u32], t: usize, y: &mut [u32], tables: &[u8]) -> usize
    requires { StreamAt (Tables tables.now) x.now 0 t 0 y.old 0 }
    ensures { Streams (Tables tables.now) (λ room schema rest p. done (HashJoin schema p)) x.now 0 t 0 y.old 0 result y.new }
{
    hash_joins(x, 0, t, y, 0, tables).end
}
