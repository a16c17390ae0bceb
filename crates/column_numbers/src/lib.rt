// expression.rs, shift_column and replace_column, and optimizer.rs, ref_left and ref_right: the numbers of an expression's columns. An expression is in its
// working form (crate cells), and the rewritten one is appended to another slice. Its cells follow each other, operands before operators, and what is asked or
// rewritten stands in a column's cell alone: so a loop over the cells does it, whatever the operators are and however deep they nest.
#![tactic(auto)]

ghost use Rattle.std.specs.Prelude.{◌≡◌, ◌+◌, ◌-◌, ◌<◌};
ghost use Rattle.sql.specs.Expression.{map_columns, replace_column, shift_column_down, shift_column_up};
ghost use Rattle.words.specs.Place.{ExpressionAt, Maps};
ghost use Rattle.column_numbers.specs.Columns.{source_of, changed, Room, CellsAt, Rewrites, Changeable, SmallAt};
ghost use Rattle.column_numbers.specs.References.{RefersLeft, RefersRight};

// A column of a join's left source.
#[derive(Clone, Copy)]
pub struct LeftColumn(pub u32);

// A column of a join's right source.
#[derive(Clone, Copy)]
pub struct RightColumn(pub u32);

// A column of a join's row: the left source's columns, and behind them the right source's.
#[derive(Clone, Copy)]
pub struct JoinedColumn(pub u32);

// A column of one of a join's sources.
#[derive(Clone, Copy)]
pub enum SourceColumn {
    Left(LeftColumn),
    Right(RightColumn),
}

impl LeftColumn {
    pub fn joined(self) -> JoinedColumn
        ensures { result.0 ≡ self.0 }
    {
        JoinedColumn(self.0)
    }
}

impl RightColumn {
    // The left source has n columns.
    pub fn joined(self, n: usize) -> JoinedColumn
        requires { n + self.0 < 4294967296 }
        ensures { result.0 ≡ n + self.0 }
    {
        JoinedColumn((n + self.0 as usize) as u32)
    }
}

impl JoinedColumn {
    // The right source's column. A column of the left source, which has n columns, would be 0.
    pub fn right(self, n: usize) -> RightColumn
        ensures { result.0 ≡ self.0 - n }
    {
        RightColumn((self.0 as usize).saturating_sub(n) as u32)
    }

    // The source's column that it is, if the left source has n columns.
    pub fn source(self, n: usize) -> SourceColumn
        ensures { result ≡ source_of self.0 n }
    {
        let c = self.0 as usize;
        if c < n {
            return SourceColumn::Left(LeftColumn(self.0));
        }
        SourceColumn::Right(RightColumn((c - n) as u32))
    }
}

// A rewrite of column numbers.
#[derive(Clone, Copy)]
pub enum Change {
    // From the joined row to the right source's row, where the left source has that many columns.
    Down(usize),
    // From the right source's row to the joined row.
    Up(usize),
    // From the one column to the other.
    Replace(u32, u32),
}

fn changed(k: Change, c: u32) -> u32
    requires { Room k c }
    ensures { result ≡ changed k c }
{
    match k {
        Change::Down(n) => JoinedColumn(c).right(n).0,
        Change::Up(n) => RightColumn(c).joined(n).0,
        Change::Replace(from, to) => { if c == from { to } else { c } }
    }
}

// The columns among the cells of d from `at` up to n, rewritten where they stand: no cell changes its size.
fn change_columns(d: &mut [u32], at: usize, n: usize, k: Change)
    requires { CellsAt k d.old at n }
    ensures { Rewrites k d.old at n d.new }
{
    for i in (at..n).step_by(cells::CELL_WORDS) {
        if d[i + cells::TAG] == tags::COLUMN {
            d[i + cells::A] = changed(k, d[i + cells::A]);
        }
    }
}

// The expression from lo to hi with its columns rewritten.
pub fn map_columns(s: &[u32], lo: usize, hi: usize, d: &mut [u32], at: usize, k: Change) -> usize
    requires { Changeable k s.now lo hi }
    ensures { Maps (map_columns (changed k)) s.now lo hi d.old at result d.new }
{
    let n = cells::copy(s, lo, hi, d, at);
    if d.len() < n {
        return n;
    }
    change_columns(d, at, n, k);
    n
}

// shift_column by −n: from the joined row to the right source's row.
pub fn shift_column_down(
    s: &[u32],
    lo: usize,
    hi: usize,
    d: &mut [u32],
    at: usize,
    n: usize,
) -> usize
    requires { ExpressionAt s.now lo hi }
    ensures { Maps (shift_column_down n) s.now lo hi d.old at result d.new }
{
    map_columns(s, lo, hi, d, at, Change::Down(n))
}

// shift_column by n: from the right source's row to the joined row.
pub fn shift_column_up(s: &[u32], lo: usize, hi: usize, d: &mut [u32], at: usize, n: usize) -> usize
    requires { SmallAt n s.now lo hi }
    ensures { Maps (shift_column_up n) s.now lo hi d.old at result d.new }
{
    map_columns(s, lo, hi, d, at, Change::Up(n))
}

pub fn replace_column(
    s: &[u32],
    lo: usize,
    hi: usize,
    d: &mut [u32],
    at: usize,
    from: u32,
    to: u32,
) -> usize
    requires { ExpressionAt s.now lo hi }
    ensures { Maps (replace_column from to) s.now lo hi d.old at result d.new }
{
    map_columns(s, lo, hi, d, at, Change::Replace(from, to))
}

// ref_left of the expression from lo to hi: whether it refers to a column of a join's left source, which has n columns.
pub fn refers_left(s: &[u32], lo: usize, hi: usize, n: usize) -> bool
    requires { ExpressionAt s.now lo hi }
    ensures { RefersLeft n s.now lo hi result }
{
    let (all, _) = s[lo..hi].as_chunks::<{ cells::CELL_WORDS }>();
    all.iter().any(|cell| cell[cells::TAG] == tags::COLUMN && (cell[cells::A] as usize) < n)
}

// ref_right of it: whether it refers to a column of the right source.
pub fn refers_right(s: &[u32], lo: usize, hi: usize, n: usize) -> bool
    requires { ExpressionAt s.now lo hi }
    ensures { RefersRight n s.now lo hi result }
{
    let (all, _) = s[lo..hi].as_chunks::<{ cells::CELL_WORDS }>();
    all.iter().any(|cell| cell[cells::TAG] == tags::COLUMN && n <= cell[cells::A] as usize)
}
