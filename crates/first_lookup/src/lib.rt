// optimizer.rs, index_lookup: the first conjunct of a scan's filter that looks up a column with an index, and the conjuncts that remain. Which columns of the
// table a lookup can go by, the marked ones, is read from what is lent: the table's primary key, and its columns' records as a sheet has them.
#![tactic(auto)]

ghost use Rattle.std.specs.Prelude.{◌≡◌, false, ◌-◌, ◌<◌, get_or};
ghost use Rattle.words.specs.Place.{ExpressionAt};
ghost use Rattle.conjuncts.specs.Conjuncts.{GatheredAt};
ghost use Rattle.first_lookup.specs.First.{marks_in, FindsOne, FindsFirst, LeavesOne, Leaves};

use words::Expression;

// Where a conjunct stands, from a word up to another, and the column that it looks up.
#[derive(Clone, Copy)]
pub struct FoundLookup {
    pub start: usize,
    pub end: usize,
    pub column: u32,
}

// The words written, and whether the lookup was met.
#[derive(Clone, Copy)]
pub struct Rest {
    pub at: usize,
    pub met: bool,
}

// Whether column c is marked: it has a record, of 16 bytes, and is the key, or byte 5 of the record says that it has an index.
fn has_index(key: usize, columns: &[u8], c: usize) -> bool
    ensures { result ≡ get_or (marks_in key columns.now) c false }
{
    if columns.len() / 16 <= c {
        return false;
    }
    c == key || layout::byte_at(columns, c * 16 + 5) == 1
}

// The conjunct from lo to hi, if it looks up a marked column.
fn find_one(s: &[u32], lo: usize, hi: usize, key: usize, columns: &[u8]) -> Option<FoundLookup>
    requires { ExpressionAt s.now lo hi }
    ensures { FindsOne (marks_in key columns.now) s.now lo hi result }
{
    let conjunct = Expression { words: &s[lo..hi] };
    let column = column_lookup::is_column_lookup(conjunct)?;
    has_index(key, columns, column as usize).then_some(FoundLookup {
        start: lo,
        end: hi,
        column,
    })
}

// The first conjunct of the expression from lo to hi that looks up a marked column.
pub fn find_lookup(
    s: &[u32],
    lo: usize,
    hi: usize,
    key: usize,
    columns: &[u8],
) -> Option<FoundLookup>
    requires { ExpressionAt s.now lo hi }
    ensures { FindsFirst (marks_in key columns.now) s.now lo hi result }
{
    if cells::tag_at(s, hi) == tags::AND {
        let end = hi - cells::CELL_WORDS;
        let mid = cells::start(s, end);
        if let Some(earlier) = find_lookup(s, lo, mid, key, columns) {
            return Some(earlier);
        }
        return find_lookup(s, mid, end, key, columns);
    }
    find_one(s, lo, hi, key, columns)
}

// The conjunct from lo to hi, unless it is the first that looks up a marked column, as one more conjunct in d (crate conjuncts). The
// Ands over the conjuncts have the origin that the caller gives.
fn remaining_one(
    s: &[u32],
    lo: usize,
    hi: usize,
    d: &mut [u32],
    from: usize,
    at: usize,
    key: usize,
    columns: &[u8],
    met: bool,
    origin: u32,
) -> Rest
    requires expression_at { ExpressionAt s.now lo hi }
    requires gathered_at { GatheredAt d.old from at }
    ensures { LeavesOne origin (marks_in key columns.now) met s.now lo hi d.old from at result d.new }
{
    if !met && find_one(s, lo, hi, key, columns).is_some() {
        return Rest { at, met: true };
    }
    let m = conjuncts::append(s, lo, hi, d, from, at, 0, origin);
    Rest { at: m, met }
}

// The conjuncts of the expression from lo to hi but the first that looks up a marked column; all of them if that was met before.
pub fn remaining(
    s: &[u32],
    lo: usize,
    hi: usize,
    d: &mut [u32],
    from: usize,
    at: usize,
    key: usize,
    columns: &[u8],
    met: bool,
    origin: u32,
) -> Rest
    requires expression_at { ExpressionAt s.now lo hi }
    requires gathered_at { GatheredAt d.old from at }
    ensures { Leaves origin (marks_in key columns.now) met s.now lo hi d.old from at result d.new }
{
    if cells::tag_at(s, hi) == tags::AND {
        let end = hi - cells::CELL_WORDS;
        let mid = cells::start(s, end);
        let l = remaining(s, lo, mid, d, from, at, key, columns, met, origin);
        return remaining(s, mid, end, d, from, l.at, key, columns, l.met, origin);
    }
    remaining_one(s, lo, hi, d, from, at, key, columns, met, origin)
}
