// expression.rs, into_cnf after into_nnf: Ors are spread over the Ands at the top of their operands. The result is written directly and can be
// exponentially longer than the source, so each function stops as soon as there is no room. An expression without an Or stays as it is.
#![tactic(auto)]

ghost use Rattle.std.specs.Prelude.{◌≡◌, ℕ, ◌+◌, ◌-◌, ◌≤◌, ◌<◌, length};
ghost use Rattle.sql.specs.Expression as Defined;
ghost use Rattle.cells.specs.Cells.{tag_at};
ghost use Rattle.words.specs.Words.{map_operands};
ghost use Rattle.words.specs.Place.{ExpressionAt, Maps};
ghost use Rattle.cnf.specs.Cnf.{MapsTwo, spread, spread_right};

use cells::Cell;
use words::Expression;

// distribute of the expression, which is its words as they are if it holds no Or.
pub fn distribute(e: Expression, d: &mut [u32], at: usize) -> usize
    ensures { Maps Defined.distribute e.entry.words.now 0 (length e.entry.words.now) d.old at result d.new }
{
    if nnf::contains_tag(e, tags::OR) {
        return distribute_expression(e, d, at);
    }
    cells::copy(e.words, 0, e.words.len(), d, at)
}

// distribute of the expression, cell by cell.
#[cycle(distribute_expression_distribute_operands_or_both_or_right)]
fn distribute_expression(e: Expression, d: &mut [u32], at: usize) -> usize
    ensures { Maps Defined.distribute e.entry.words.now 0 (length e.entry.words.now) d.old at result d.new }
{
    if d.len() < at {
        return at;
    }
    if e.tag() == tags::OR {
        let (left, right) = e.operands();
        return or_both(left, right, d, at, e.origin());
    }
    distribute_operands(e, d, at)
}

// The expression with distribute of its operands.
#[cycle(distribute_expression_distribute_operands_or_both_or_right)]
fn distribute_operands(e: Expression, d: &mut [u32], at: usize) -> usize
    ensures { Maps (map_operands Defined.distribute) e.entry.words.now 0 (length e.entry.words.now) d.old at result d.new }
{
    let cell = e.cell();
    if cell.tag < tags::BINARY {
        return cells::put(d, at, at, cell);
    }
    if tags::UNARY <= cell.tag {
        let m = distribute_expression(e.operand(), d, at);
        return cells::put(d, at, m, cell);
    }
    let (left, right) = e.operands();
    let m = distribute_expression(left, d, at);
    let end = distribute_expression(right, d, m);
    cells::put(d, at, end, cell)
}

// Or, with that origin, of two expressions, spread over the Ands at the top of both. What it puts together has the Or's origin.
#[cycle(distribute_expression_distribute_operands_or_both_or_right)]
fn or_both(left: Expression, right: Expression, d: &mut [u32], at: usize, origin: u32) -> usize
    ensures { MapsTwo (spread origin) left.entry.words.now 0 (length left.entry.words.now) right.entry.words.now 0 (length right.entry.words.now) d.old at result d.new }
{
    if d.len() < at {
        return at;
    }
    if left.tag() == tags::AND {
        let (first, second) = left.operands();
        let m = or_both(first, right, d, at, origin);
        let n = or_both(second, right, d, m, origin);
        return cells::put(d, at, n, Cell::new(tags::AND, origin));
    }
    or_right(left, right, d, at, origin)
}

// The same where the left one is no And.
#[cycle(distribute_expression_distribute_operands_or_both_or_right)]
fn or_right(left: Expression, right: Expression, d: &mut [u32], at: usize, origin: u32) -> usize
    ensures { MapsTwo (spread_right origin) left.entry.words.now 0 (length left.entry.words.now) right.entry.words.now 0 (length right.entry.words.now) d.old at result d.new }
{
    if d.len() < at {
        return at;
    }
    if right.tag() == tags::AND {
        let (first, second) = right.operands();
        let m = or_right(left, first, d, at, origin);
        let n = or_right(left, second, d, m, origin);
        return cells::put(d, at, n, Cell::new(tags::AND, origin));
    }
    let m = distribute_expression(left, d, at);
    let n = distribute_expression(right, d, m);
    cells::put(d, at, n, Cell::new(tags::OR, origin))
}
