// expression.rs, is_column_lookup and into_column_values, and optimizer.rs, the test for an equijoin: which column an expression looks up, the values that it
// is looked up for, and which two columns it sets equal. Expressions are in their working form (crate cells).
#![tactic(auto)]

ghost use Rattle.std.specs.Prelude.{◌≡◌, ℕ, ◌-◌, ◌<◌, length};
ghost use Rattle.sql.specs.Expression.{same_column};
ghost use Rattle.sql.specs.Optimizer.{ordered};
ghost use Rattle.cells.specs.Room.{Wrote};
ghost use Rattle.column_lookup.specs.Lookup.{found, pair, column_in, equal_cells, LooksUp, SetsEqual};
ghost use Rattle.column_lookup.specs.Values.{is_number, is_defined, value_words, is_words, Gathers};

use cells::Cell;
use column_numbers::JoinedColumn;
use words::Expression;

// The column of a Column's cell.
fn is_column(k: Cell) -> Option<u32>
    ensures { result ≡ column_in k }
{
    if k.tag == tags::COLUMN {
        Some(k.a)
    } else {
        None
    }
}

// The column that Equal looks up, from its operands' cells: one is a column's, the other a constant's.
fn is_equal_lookup(l: Cell, r: Cell) -> Option<u32>
    ensures { result ≡ equal_cells l r }
{
    if l.tag < tags::COLUMN {
        return is_column(r);
    }
    if l.tag == tags::COLUMN && r.tag < tags::COLUMN {
        return Some(l.a);
    }
    None
}

// The column that Or looks up, from its operands' answers.
fn same_column(l: Option<u32>, r: Option<u32>) -> Option<u32>
    ensures { found result ≡ same_column (found l) (found r) }
{
    match (l, r) {
        (Some(l), Some(r)) if l == r => Some(l),
        _ => None,
    }
}

// The column that the expression looks up: Equal of a column and a constant, Is Null or Is NaN of a column, or an Or of lookups of one column.
pub fn is_column_lookup(e: Expression) -> Option<u32>
    ensures { LooksUp e.entry.words.now 0 (length e.entry.words.now) result }
{
    match e.tag() {
        tags::OR => {
            let (left, right) = e.operands();
            let l = is_column_lookup(left);
            let r = is_column_lookup(right);
            same_column(l, r)
        }
        tags::EQUAL => {
            let (left, right) = e.operands();
            is_equal_lookup(left.cell(), right.cell())
        }
        tags::IS_NULL | tags::IS_NAN => is_column(e.operand().cell()),
        _ => None,
    }
}

// Whether a Float is a number, from the halves of its pattern: without the sign it is at most infinity's.
fn is_number(low: u32, high: u32) -> bool
    ensures { result ≡ is_number low high }
{
    let h = high % 2147483648;
    h < 2146435072 || h == 2146435072 && low == 0
}

// Whether a cell is a constant's, neither Null nor NaN.
fn is_defined(k: Cell) -> bool
    ensures { result ≡ is_defined k }
{
    match k.tag {
        tags::FLOAT => is_number(k.a, k.b),
        tags::BOOLEAN..=tags::STRING => true,
        _ => false,
    }
}

// The value of one of Equal's operands: a constant's, unless it is Null or NaN.
fn equal_value(d: &mut [u32], at: usize, k: Cell) -> usize
    ensures { Wrote d.old at (value_words k) result d.new }
{
    if is_defined(k) {
        return cells::put(d, at, at, k);
    }
    at
}

// The value of Is Null, which has tag 31, and of Is NaN, 32. It has the origin of the Is.
fn is_value(d: &mut [u32], at: usize, t: u32, origin: u32) -> usize
    ensures { Wrote d.old at (is_words t origin) result d.new }
{
    match t {
        tags::IS_NULL => cells::put(d, at, at, Cell::new(tags::NULL, origin)),
        tags::IS_NAN => {
            let nan = Cell {
                b: 2146959360,
                ..Cell::new(tags::FLOAT, origin)
            };
            cells::put(d, at, at, nan)
        }
        _ => at,
    }
}

// The constants that the expression, a lookup, looks its column up for.
pub fn into_column_values(e: Expression, d: &mut [u32], at: usize) -> usize
    ensures { Gathers e.entry.words.now 0 (length e.entry.words.now) d.old at result d.new }
{
    match e.tag() {
        tags::AND | tags::OR => {
            let (left, right) = e.operands();
            let m = into_column_values(left, d, at);
            into_column_values(right, d, m)
        }
        tags::EQUAL => {
            let (left, right) = e.operands();
            let m = equal_value(d, at, left.cell());
            equal_value(d, m, right.cell())
        }
        t => is_value(d, at, t, e.origin()),
    }
}

// Two columns, the lower one first.
fn ordered(l: Option<u32>, r: Option<u32>) -> Option<(JoinedColumn, JoinedColumn)>
    ensures { pair result ≡ ordered (found l) (found r) }
{
    let (mut l, mut r) = (l?, r?);
    if r < l {
        (l, r) = (r, l);
    }
    Some((JoinedColumn(l), JoinedColumn(r)))
}

// The two columns of a join's row that the expression sets equal, the lower one first, if it is an equijoin.
pub fn equijoin(e: Expression) -> Option<(JoinedColumn, JoinedColumn)>
    ensures { SetsEqual e.entry.words.now 0 (length e.entry.words.now) result }
{
    if e.tag() != tags::EQUAL {
        return None;
    }
    let (left, right) = e.operands();
    let l = is_column(left.cell());
    let r = is_column(right.cell());
    ordered(l, r)
}
