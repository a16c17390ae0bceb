// plan.rs, column_label: the label of a column of a node in its working form, traced through the plan.
#![tactic(auto)]

ghost use Rattle.std.specs.Prelude.{◌⊎◌, ◌&&◌, ◌≡◌, ◌≤◌, eqb};
ghost use Rattle.sql.specs.Plan;
ghost use Rattle.cells.specs.Cells.{tag_at, start_at};
ghost use Rattle.words.specs.Place.{NodeAt};
ghost use Rattle.nodes.specs.Own.{OwnStart, SourceCount};
ghost use Rattle.nodes.specs.Columns.{ColumnsAt, ColumnCount};
ghost use Rattle.labels.specs.Names.{ColumnName, TableLabel, qualifier_text, ColumnLabel};
ghost use Rattle.records.specs.Records.{RecordsAt};
ghost use Rattle.labels.specs.Labels.{Labelled, ExpressionRoute, ExpressionEnds, ItemRoute, ItemEnds, RemapRoute, TargetsUp, Routes, alias_of, alias_if, is_aliased, says_columns, LeafTraced, AskedCount, CountedAt, LeftColumns, Steps, Traces};

use std::ops::ControlFlow;

// The label of a column: none, a name, or a name behind its qualifier, a table's name or alias; all are text references.
#[derive(Clone, Copy)]
pub enum Label {
    Unlabelled,
    Unqualified(u32),
    Qualified(u32, u32),
}

// Where a node has the label of a column from: a column of its source, or what it says itself.
#[derive(Clone, Copy)]
pub enum Route {
    To(usize),
    Ends(Label),
}

// What a label comes from: a node that says it, or a table's column.
#[derive(Clone, Copy)]
pub enum Traced {
    Said(Label),
    Column {
        table: usize,
        alias: Option<u32>,
        column: usize,
    },
}

// A column of the node from lo to hi, which has so many columns; their number is right where they are those of its sources, and isn't asked for elsewhere.
#[derive(Clone, Copy)]
pub struct Spot {
    pub lo: usize,
    pub hi: usize,
    pub column: usize,
    pub columns: usize,
}

// The label that the cell of a Label or an Item says.
fn label_in(flag: u32, a: u32, b: u32) -> Label
    ensures { Labelled flag a b result }
{
    match flag {
        0 => Label::Unlabelled,
        1 => Label::Unqualified(a),
        _ => Label::Qualified(a, b),
    }
}

// Of the expression that ends before hi.
fn expression_route(s: &[u32], hi: usize) -> Route
    requires { ExpressionEnds s.now hi }
    ensures { ExpressionRoute s.now hi result }
{
    let c = cells::cell_at(s, hi);
    if c.tag == tags::COLUMN {
        return Route::To(c.a as usize);
    }
    Route::Ends(Label::Unlabelled)
}

// Of the Item that ends before hi.
fn item_route(s: &[u32], hi: usize) -> Route
    requires { ItemEnds s.now hi }
    ensures { ItemRoute s.now hi result }
{
    let c = cells::cell_at(s, hi);
    if c.flag == 0 {
        return expression_route(s, hi - cells::CELL_WORDS);
    }
    Route::Ends(label_in(c.flag, c.a, c.b))
}

// Of column i of the Projection that ends before hi.
fn projection_route(s: &[u32], lo: usize, hi: usize, i: usize) -> Route
    requires node_at { NodeAt s.now lo hi }
    requires hi_value { tag_at s.now hi ≡ 60 }
    ensures { Routes s.now lo hi i result }
{
    let c = cells::cell_at(s, hi);
    if c.a as usize <= i {
        return Route::Ends(Label::Unlabelled);
    }
    let end = nodes::trees_start(s, c.a as usize - 1 - i, hi - cells::CELL_WORDS);
    item_route(s, end)
}

// Of column i of the Aggregate that ends before hi.
fn aggregate_route(s: &[u32], lo: usize, hi: usize, i: usize) -> Route
    requires node_at { NodeAt s.now lo hi }
    requires hi_value { tag_at s.now hi ≡ 50 }
    ensures { Routes s.now lo hi i result }
{
    let c = cells::cell_at(s, hi);
    if c.a as usize <= i {
        return Route::Ends(Label::Unlabelled);
    }
    let end = nodes::trees_start(
        s,
        c.a as usize - 1 - i + c.b as usize,
        hi - cells::CELL_WORDS,
    );
    expression_route(s, end)
}

// Whether a Target's cell says target i.
fn hits(flag: u32, a: u32, i: usize) -> bool
    ensures { result ≡ (eqb flag 1 && eqb a i) }
{
    flag == 1 && a as usize == i
}

// Of column i under the Targets from lo to hi.
fn remap_route(s: &[u32], lo: usize, hi: usize, i: usize) -> Route
    requires { TargetsUp s.now lo hi }
    ensures { RemapRoute s.now lo hi i result }
{
    let mut from = 0;
    for at in (lo..hi).step_by(cells::CELL_WORDS) {
        let c = cells::cell_at(s, at + cells::CELL_WORDS);
        if hits(c.flag, c.a, i) {
            return Route::To(from);
        }
        from += 1;
    }
    Route::Ends(Label::Unlabelled)
}

// Of column i of an Aggregate, a Projection or a Remap, whose own words start at m.
fn own_route(s: &[u32], lo: usize, hi: usize, m: usize, i: usize) -> Route
    requires node_at { NodeAt s.now lo hi }
    requires source_count { SourceCount s.now lo hi 1 }
    requires own_start { OwnStart s.now lo hi m }
    requires fact { (tag_at s.now hi ≡ 50) ⊎ (60 ≤ tag_at s.now hi) }
    ensures { Routes s.now lo hi i result }
{
    match cells::tag_at(s, hi) {
        tags::AGGREGATE => aggregate_route(s, lo, hi, i),
        tags::PROJECTION => projection_route(s, lo, hi, i),
        _ => remap_route(s, m, hi - cells::CELL_WORDS, i),
    }
}

// The alias that the cell of a Scan or a lookup says, if it says one.
fn alias_in(tag: u32, flag: u32, b: u32) -> Option<u32>
    ensures { alias_of result ≡ alias_if (is_aliased tag flag) b }
{
    let aliased = if tag == tags::SCAN {
        2 <= flag
    } else {
        1 <= flag
    };
    aliased.then_some(b)
}

// What the label of column i of a node without sources comes from.
fn leaf_traced(s: &[u32], lo: usize, hi: usize, i: usize) -> Traced
    requires node_at { NodeAt s.now lo hi }
    requires source_count { SourceCount s.now lo hi 0 }
    ensures { LeafTraced s.now lo hi i result }
{
    let c = cells::cell_at(s, hi);
    match c.tag {
        tags::NOTHING if i < c.a as usize => {
            let k = cells::cell_at(s, lo + cells::CELL_WORDS * i + cells::CELL_WORDS);
            Traced::Said(label_in(k.flag, k.a, k.b))
        }
        tags::NOTHING | tags::VALUES => Traced::Said(Label::Unlabelled),
        _ => Traced::Column {
            table: c.a as usize,
            alias: alias_in(c.tag, c.flag, c.b),
            column: i,
        },
    }
}

// Whether a node with this tag says its columns itself: an Aggregate, a Projection, a Remap, a Scan or a Values. A leaf of another tag isn't asked.
pub fn says_columns(tag: u32) -> bool
    ensures { result ≡ says_columns tag }
{
    tag == tags::AGGREGATE || tags::PROJECTION <= tag
}

// The number of columns of the node from lo to hi, which is asked for only where they are those of its sources. So 0 stands for a Remap's, which would be
// found by going through all its Targets for each label, and for that of an Aggregate, a Projection, a Scan or a Values.
fn columns_for(s: &[u32], lo: usize, hi: usize, tables: &[u8]) -> usize
    requires { ColumnsAt tables.now s.now lo hi }
    ensures { AskedCount tables.now s.now lo hi result }
{
    if says_columns(cells::tag_at(s, hi)) {
        return 0;
    }
    nodes::columns(s, lo, hi, tables)
}

// One step from a column of a node with one source, which ends at m: to what the column's label comes from, or to the column that has the same label.
fn next_over(s: &[u32], spot: Spot, m: usize, tables: &[u8]) -> ControlFlow<Traced, Spot>
    requires counted_at { CountedAt tables.now s.now spot.lo spot.hi spot.columns }
    requires source_count { SourceCount s.now spot.lo spot.hi 1 }
    requires own_start { OwnStart s.now spot.lo spot.hi m }
    ensures { Steps tables.now s.now spot result }
{
    if !says_columns(cells::tag_at(s, spot.hi)) {
        return ControlFlow::Continue(Spot { hi: m, ..spot });
    }
    match own_route(s, spot.lo, spot.hi, m, spot.column) {
        Route::Ends(label) => ControlFlow::Break(Traced::Said(label)),
        Route::To(column) => ControlFlow::Continue(Spot {
            lo: spot.lo,
            hi: m,
            column,
            columns: columns_for(s, spot.lo, m, tables),
        }),
    }
}

// The number of columns of the left source, which ends at mid, of a node whose right source ends at m. The shorter source is counted, so that the counts on
// the way to a column are never long.
fn left_columns(s: &[u32], spot: Spot, m: usize, mid: usize, tables: &[u8]) -> usize
    requires counted_at { CountedAt tables.now s.now spot.lo spot.hi spot.columns }
    requires source_count { SourceCount s.now spot.lo spot.hi 2 }
    requires own_start { OwnStart s.now spot.lo spot.hi m }
    requires mid_value { mid ≡ start_at s.now m }
    ensures { LeftColumns tables.now s.now spot.lo spot.hi spot.columns result }
{
    if mid - spot.lo <= m - mid {
        return nodes::columns(s, spot.lo, mid, tables);
    }
    let right = nodes::columns(s, mid, m, tables);
    spot.columns - right
}

// One step from a column of a node with two sources, of which the right one ends at m.
fn next_join(s: &[u32], spot: Spot, m: usize, tables: &[u8]) -> ControlFlow<Traced, Spot>
    requires counted_at { CountedAt tables.now s.now spot.lo spot.hi spot.columns }
    requires source_count { SourceCount s.now spot.lo spot.hi 2 }
    requires own_start { OwnStart s.now spot.lo spot.hi m }
    ensures { Steps tables.now s.now spot result }
{
    let mid = cells::start(s, m);
    let left = left_columns(s, spot, m, mid, tables);
    if spot.column < left {
        return ControlFlow::Continue(Spot {
            hi: mid,
            columns: left,
            ..spot
        });
    }
    ControlFlow::Continue(Spot {
        lo: mid,
        hi: m,
        column: spot.column - left,
        columns: spot.columns - left,
    })
}

// One step from a column of any node.
fn next_of(s: &[u32], spot: Spot, tables: &[u8]) -> ControlFlow<Traced, Spot>
    requires { CountedAt tables.now s.now spot.lo spot.hi spot.columns }
    ensures { Steps tables.now s.now spot result }
{
    let sources = nodes::source_count(s, spot.lo, spot.hi);
    if sources == 0 {
        return ControlFlow::Break(leaf_traced(s, spot.lo, spot.hi, spot.column));
    }
    let m = nodes::own_start(s, spot.lo, spot.hi);
    if sources == 1 {
        next_over(s, spot, m, tables)
    } else {
        next_join(s, spot, m, tables)
    }
}

// What the label of column i of the node from lo to hi comes from; the node has w columns.
fn trace(s: &[u32], lo: usize, hi: usize, i: usize, w: usize, tables: &[u8]) -> Traced
    requires columns_at { ColumnsAt tables.now s.now lo hi }
    requires column_count { ColumnCount tables.now s.now lo hi w }
    ensures { Traces tables.now s.now lo hi i result }
{
    let mut spot = Spot {
        lo,
        hi,
        column: i,
        columns: w,
    };
    loop {
        match next_of(s, spot, tables) {
            ControlFlow::Break(traced) => {
                return traced;
            }
            ControlFlow::Continue(next) => {
                spot = next;
            }
        }
    }
}

// The name of column i of table t, or 0 where there is none. It is the first word of the column's record, of 16 bytes.
fn column_name(t: usize, i: usize, tables: &[u8], columns: &[u8]) -> u32
    requires { RecordsAt tables.now columns.now }
    ensures { ColumnName tables.now columns.now t i result }
{
    if records::table_width(tables, t) <= i {
        return 0;
    }
    let first = records::first_column(tables, t);
    layout::word_at(columns, (first + i) * 16) as u32
}

// The alias if there is one, also an empty one, otherwise the table's name; both are text references. The flag stays a parameter of its own here and below:
// docs/DECISIONS.md names both, and a law says that they choose alike (chosen_text).
pub fn qualifier(aliased: bool, alias: u32, name: u32) -> u32
    ensures { result ≡ Plan.qualifier (alias_if aliased alias) name }
{
    if aliased { alias } else { name }
}

// The same of the two texts: both are lent, and the chosen one is handed back.
pub fn qualifier_text<'a>(aliased: bool, alias: &'a [u8], name: &'a [u8]) -> &'a [u8]
    ensures { result.now ≡ qualifier_text aliased alias.now name.now }
{
    if aliased { alias } else { name }
}

// The label of column i of table t, behind the alias if there is one.
fn table_label(t: usize, alias: Option<u32>, i: usize, tables: &[u8], columns: &[u8]) -> Label
    requires { RecordsAt tables.now columns.now }
    ensures { TableLabel tables.now columns.now t alias i result }
{
    let q = qualifier(
        alias.is_some(),
        alias.unwrap_or(0),
        records::table_name(tables, t),
    );
    Label::Qualified(q, column_name(t, i, tables, columns))
}

// The label of column i of the node from lo to hi, which has w columns: who asks for all labels counts them once. tables and
// columns are the schema's records (crate records).
pub fn column_label(
    s: &[u32],
    lo: usize,
    hi: usize,
    i: usize,
    w: usize,
    tables: &[u8],
    columns: &[u8],
) -> Label
    requires columns_at { ColumnsAt tables.now s.now lo hi }
    requires column_count { ColumnCount tables.now s.now lo hi w }
    requires records_at { RecordsAt tables.now columns.now }
    ensures { ColumnLabel tables.now columns.now s.now lo hi i result }
{
    match trace(s, lo, hi, i, w, tables) {
        Traced::Said(label) => label,
        Traced::Column {
            table,
            alias,
            column,
        } => table_label(table, alias, column, tables, columns),
    }
}
