// Nodes in their working form: where the sources and the parts of a node stand, and what columns it emits.
#![tactic(auto)]

ghost use Rattle.std.specs.Prelude.{◌⊎◌, ◌≡◌, false, ℕ, ◌+◌, ◌-◌, ◌≤◌, ◌<◌, max};
ghost use Rattle.cells.specs.Cells.{tag_at};
ghost use Rattle.words.specs.Place.{NodeAt};
ghost use Rattle.nodes.specs.Trees.{TreesAt, PartsAt, trees_start};
ghost use Rattle.nodes.specs.Own.{OwnStart, SourcedAt, OwnTrees, SourceCount};
ghost use Rattle.nodes.specs.Columns.{ColumnsAt, ColumnCount, past, TargetsAt, RemapColumns, GoesThrough};

// Where the last n trees start that end before hi.
pub fn trees_start(s: &[u32], n: usize, hi: usize) -> usize
    requires { TreesAt s.now n hi }
    ensures { result ≡ trees_start s.now n hi }
{
    let mut at = hi;
    for _ in 0..n {
        at = cells::start(s, at);
    }
    at
}

// The same of a node's parts, of which many can be constants or columns: one cell each, as the tag tells. A branch by the tag is predicted, where the walk
// would wait for the size.
fn parts_start(s: &[u32], n: usize, hi: usize) -> usize
    requires { PartsAt s.now n hi }
    ensures { result ≡ trees_start s.now n hi }
{
    let mut at = hi;
    for _part in 0..n {
        at = if cells::tag_at(s, at) < tags::BINARY {
            at - cells::CELL_WORDS
        } else {
            cells::start(s, at)
        };
    }
    at
}

// How many sources the node from lo to hi has.
pub fn source_count(s: &[u32], lo: usize, hi: usize) -> usize
    requires { NodeAt s.now lo hi }
    ensures { SourceCount s.now lo hi result }
{
    match cells::tag_at(s, hi) {
        tags::HASH_JOIN | tags::NESTED_LOOP_JOIN => 2,
        tags::INDEX_LOOKUP | tags::KEY_LOOKUP | tags::NOTHING | tags::SCAN | tags::VALUES => 0,
        _ => 1,
    }
}

// How many trees the own words of a node with sources are: an Aggregate's expressions and Aggs, an Order's Keys, a Projection's Items, a Remap's
// Targets, a Filter's predicate, and that of a NestedLoopJoin if it has one.
pub fn own_trees(s: &[u32], lo: usize, hi: usize) -> usize
    requires { SourcedAt s.now lo hi }
    ensures { OwnTrees s.now lo hi result }
{
    let c = cells::cell_at(s, hi);
    match c.tag {
        tags::AGGREGATE => c.a as usize + c.b as usize,
        tags::ORDER | tags::PROJECTION | tags::REMAP => c.a as usize,
        tags::FILTER => 1,
        tags::NESTED_LOOP_JOIN => (c.flag % 2) as usize,
        _ => 0,
    }
}

// Where the own words of the node from lo to hi start: those of its parts, between its sources and its cell. A Remap's Targets, of which there can be many,
// are one cell each, and of an Aggregate's expressions many can be.
pub fn own_start(s: &[u32], lo: usize, hi: usize) -> usize
    requires { NodeAt s.now lo hi }
    ensures { OwnStart s.now lo hi result }
{
    if source_count(s, lo, hi) == 0 {
        return lo;
    }
    let n = own_trees(s, lo, hi);
    let end = hi - cells::CELL_WORDS;
    match cells::tag_at(s, hi) {
        tags::REMAP => end - cells::CELL_WORDS * n,
        tags::AGGREGATE => parts_start(s, n, end),
        _ => trees_start(s, n, end),
    }
}

// The larger of n and one past the target that a Target's cell says, if it says one.
fn past_target(n: usize, flag: u32, a: u32) -> usize
    requires { past flag a ≤ 256 }
    ensures { result ≡ max n (past flag a) }
{
    if flag == 1 { n.max(a as usize + 1) } else { n }
}

// One past the highest target of the Targets from lo to hi.
fn remap_columns(s: &[u32], lo: usize, hi: usize) -> usize
    requires { TargetsAt s.now lo hi }
    ensures { RemapColumns s.now lo hi result }
{
    let mut n = 0;
    for i in (lo..hi).step_by(cells::CELL_WORDS) {
        let c = cells::cell_at(s, i + cells::CELL_WORDS);
        n = past_target(n, c.flag, c.a);
    }
    n
}

// The columns of a node without sources.
fn leaf_columns(s: &[u32], lo: usize, hi: usize, tables: &[u8]) -> usize
    requires node_at { NodeAt s.now lo hi }
    requires source_count { SourceCount s.now lo hi 0 }
    ensures { ColumnCount tables.now s.now lo hi result }
{
    let c = cells::cell_at(s, hi);
    match c.tag {
        tags::NOTHING => c.a as usize,
        tags::VALUES if c.a == 0 => 0,
        tags::VALUES => {
            let first = trees_start(s, c.a as usize - 1, hi - cells::CELL_WORDS);
            cells::cell_at(s, first).a as usize
        }
        _ => records::table_width(tables, c.a as usize),
    }
}

// The columns of an Aggregate, a Projection or a Remap, whose own words start at m.
fn own_columns(s: &[u32], lo: usize, hi: usize, m: usize, tables: &[u8]) -> usize
    requires columns_at { ColumnsAt tables.now s.now lo hi }
    requires source_count { SourceCount s.now lo hi 1 }
    requires own_start { OwnStart s.now lo hi m }
    requires fact { (tag_at s.now hi ≡ 50) ⊎ (60 ≤ tag_at s.now hi) }
    ensures { ColumnCount tables.now s.now lo hi result }
{
    let c = cells::cell_at(s, hi);
    match c.tag {
        tags::AGGREGATE => c.b as usize + c.a as usize,
        tags::PROJECTION => c.a as usize,
        _ => remap_columns(s, m, hi - cells::CELL_WORDS),
    }
}

// Whether the columns of the node from lo to hi are those of its sources.
fn goes_through(s: &[u32], lo: usize, hi: usize) -> bool
    requires { NodeAt s.now lo hi }
    ensures { GoesThrough s.now lo hi result }
{
    matches!(
        cells::tag_at(s, hi),
        tags::FILTER
            | tags::HASH_JOIN
            | tags::LIMIT
            | tags::NESTED_LOOP_JOIN
            | tags::OFFSET
            | tags::ORDER
    )
}

// The columns of a node that says them itself; its own words start at m.
fn said_columns(s: &[u32], lo: usize, hi: usize, m: usize, tables: &[u8]) -> usize
    requires columns_at { ColumnsAt tables.now s.now lo hi }
    requires own_start { OwnStart s.now lo hi m }
    requires goes_through { GoesThrough s.now lo hi false }
    ensures { ColumnCount tables.now s.now lo hi result }
{
    if source_count(s, lo, hi) == 0 {
        return leaf_columns(s, lo, hi, tables);
    }
    own_columns(s, lo, hi, m, tables)
}

// plan.rs, columns: how many columns the node from lo to hi emits. tables are the table records (crate records). The node's cells are met from the
// last to the first: one whose columns are those of its sources gives way to these, which end where its own words start.
pub fn columns(s: &[u32], lo: usize, hi: usize, tables: &[u8]) -> usize
    requires { ColumnsAt tables.now s.now lo hi }
    ensures { ColumnCount tables.now s.now lo hi result }
{
    let mut total: usize = 0;
    let mut end = hi;
    while lo < end {
        let from = cells::start(s, end);
        let m = own_start(s, from, end);
        if goes_through(s, from, end) {
            end = m;
        } else {
            total += said_columns(s, from, end, m, tables);
            end = from;
        }
    }
    total
}
