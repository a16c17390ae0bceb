// optimizer.rs, the `collect` in short_circuit that asks plan.rs's column_label for each column of a node: all its labels, written as Label cells.
#![tactic(auto)]

ghost use Rattle.std.specs.Prelude.{◌≡◌, ℕ};
ghost use Rattle.sheet.specs.Content.{label_cell};
ghost use Rattle.cells.specs.Room.{Wrote};
ghost use Rattle.words.specs.Words.{cell, label_words};
ghost use Rattle.nodes.specs.Own.{SourceCount};
ghost use Rattle.nodes.specs.Columns.{ColumnsAt};
ghost use Rattle.labels.specs.Labels.{label};
ghost use Rattle.records.specs.Records.{RecordsAt};
ghost use Rattle.column_labels.specs.ColumnLabels.{LabelsUp, Marks, WritesLabels};

// The cell of a Label with an origin.
fn label_cell(l: labels::Label, origin: u32) -> cells::Cell
    ensures { result ≡ cell origin (label_cell (label l)) }
{
    let cell = cells::Cell::new(tags::LABEL, origin);
    match l {
        labels::Label::Unlabelled => cell,
        labels::Label::Unqualified(name) => cells::Cell {
            flag: 1,
            a: name,
            ..cell
        },
        labels::Label::Qualified(table, name) => cells::Cell {
            flag: 2,
            a: table,
            b: name,
            ..cell
        },
    }
}

// A Label after the first `at` words of d.
fn put_label(d: &mut [u32], at: usize, l: labels::Label, origin: u32) -> usize
    ensures { Wrote d.old at (label_words (label l, origin)) result d.new }
{
    cells::put(d, at, at, label_cell(l, origin))
}

// The labels of the node from lo to hi, column by column, each with the given origin. An Aggregate, a Projection or a Remap says no more labels than it has
// parts (a Remap at most 256), and looking for one passes the parts and the nodes below: no more than n² short steps in a plan of n cells.
fn each_label(
    s: &[u32],
    lo: usize,
    hi: usize,
    d: &mut [u32],
    at: usize,
    tables: &[u8],
    columns: &[u8],
    origin: u32,
) -> usize
    requires columns_at { ColumnsAt tables.now s.now lo hi }
    requires records_at { RecordsAt tables.now columns.now }
    ensures { WritesLabels origin tables.now columns.now s.now lo hi d.old at result d.new }
{
    let n = nodes::columns(s, lo, hi, tables);
    let mut end = at;
    for i in 0..n {
        let l = labels::column_label(s, lo, hi, i, n, tables, columns);
        end = put_label(d, end, l, origin);
    }
    end
}

// The Labels from lo to hi, with another origin. Only that differs, so the words are copied, and each label's first word is written again.
fn marked_labels(s: &[u32], lo: usize, hi: usize, d: &mut [u32], at: usize, origin: u32) -> usize
    requires { LabelsUp s.now lo hi }
    ensures { Marks origin s.now lo hi d.old at result d.new }
{
    let end = cells::copy(s, lo, hi, d, at);
    if d.len() < end {
        return end;
    }
    for i in (at..end).step_by(cells::CELL_WORDS) {
        d[i] = origin;
    }
    end
}

// The labels of a node without sources. Those of a Nothing stand there already, but for the origin.
fn leaf_labels(
    s: &[u32],
    lo: usize,
    hi: usize,
    d: &mut [u32],
    at: usize,
    tables: &[u8],
    columns: &[u8],
    origin: u32,
) -> usize
    requires columns_at { ColumnsAt tables.now s.now lo hi }
    requires records_at { RecordsAt tables.now columns.now }
    ensures { WritesLabels origin tables.now columns.now s.now lo hi d.old at result d.new }
{
    if cells::tag_at(s, hi) == tags::NOTHING {
        return marked_labels(s, lo, hi - cells::CELL_WORDS, d, at, origin);
    }
    each_label(s, lo, hi, d, at, tables, columns, origin)
}

// The labels of all columns of the node from lo to hi, each with the given origin, after the first `at` words of d. A node whose columns are those of its
// sources gives way to these, the left one first, so that each leaf below is met once.
pub fn write_labels(
    s: &[u32],
    lo: usize,
    hi: usize,
    d: &mut [u32],
    at: usize,
    tables: &[u8],
    columns: &[u8],
    origin: u32,
) -> usize
    requires columns_at { ColumnsAt tables.now s.now lo hi }
    requires records_at { RecordsAt tables.now columns.now }
    ensures { WritesLabels origin tables.now columns.now s.now lo hi d.old at result d.new }
{
    let n = nodes::source_count(s, lo, hi);
    if n == 0 {
        return leaf_labels(s, lo, hi, d, at, tables, columns, origin);
    }
    let m = nodes::own_start(s, lo, hi);
    if n == 1 {
        if labels::says_columns(cells::tag_at(s, hi)) {
            return each_label(s, lo, hi, d, at, tables, columns, origin);
        }
        return write_labels(s, lo, m, d, at, tables, columns, origin);
    }
    let mid = cells::start(s, m);
    let next = write_labels(s, lo, mid, d, at, tables, columns, origin);
    write_labels(s, mid, m, d, next, tables, columns, origin)
}
