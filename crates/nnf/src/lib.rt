// expression.rs, into_nnf: an expression in its working form is read from one slice, and its negation normal form appended to another. The result is
// written directly, so that its size alone counts for room. Most predicates hold no Not, and are their own normal form: one pass over the cells tells.
#![tactic(auto)]

ghost use Rattle.std.specs.Prelude.{◌⊎◌, ◌≡◌, ℕ, ◌+◌, ◌-◌, ◌≤◌, ◌<◌, length};
ghost use Rattle.sql.specs.Expression.{into_nnf, into_nnf_not, into_nnf_operands};
ghost use Rattle.cells.specs.Cells.{tag_at};
ghost use Rattle.words.specs.Place.{ExpressionAt, Maps};
ghost use Rattle.nnf.specs.Nnf.{negated};
ghost use Rattle.nnf.specs.Tags.{ContainsTag};

use cells::Cell;
use words::Expression;

// Whether a cell of the expression has the tag.
pub fn contains_tag(e: Expression, tag: u32) -> bool
    ensures { ContainsTag e.entry.words.now 0 (length e.entry.words.now) tag result }
{
    let (all, _) = e.words.as_chunks::<{ cells::CELL_WORDS }>();
    all.iter().any(|cell| cell[cells::TAG] == tag)
}

// into_nnf of the expression, which is its words as they are if it holds no Not.
pub fn into_nnf(e: Expression, d: &mut [u32], at: usize) -> usize
    ensures { Maps into_nnf e.entry.words.now 0 (length e.entry.words.now) d.old at result d.new }
{
    if contains_tag(e, tags::NOT) {
        return into_nnf_expression(e, d, at);
    }
    cells::copy(e.words, 0, e.words.len(), d, at)
}

// into_nnf of the expression, cell by cell.
#[cycle(into_nnf_expression_into_nnf_not_into_nnf_operands_negate_both)]
fn into_nnf_expression(e: Expression, d: &mut [u32], at: usize) -> usize
    ensures { Maps into_nnf e.entry.words.now 0 (length e.entry.words.now) d.old at result d.new }
{
    if e.tag() == tags::NOT {
        return into_nnf_not(e.operand(), d, at, e.origin());
    }
    into_nnf_operands(e, d, at)
}

// into_nnf of Not, with that origin, of the expression. What it puts together has the Not's origin.
#[cycle(into_nnf_expression_into_nnf_not_into_nnf_operands_negate_both)]
fn into_nnf_not(e: Expression, d: &mut [u32], at: usize, origin: u32) -> usize
    ensures { Maps (into_nnf_not origin) e.entry.words.now 0 (length e.entry.words.now) d.old at result d.new }
{
    match e.tag() {
        tags::NOT => into_nnf_operands(e.operand(), d, at),
        tags::AND => negate_both(e, d, at, tags::OR, origin),
        tags::OR => negate_both(e, d, at, tags::AND, origin),
        _ => {
            let m = into_nnf_operands(e, d, at);
            cells::put(d, at, m, Cell::new(tags::NOT, origin))
        }
    }
}

// The two operands of the expression, negated, under the And or Or with tag o and that origin.
#[cycle(into_nnf_expression_into_nnf_not_into_nnf_operands_negate_both)]
fn negate_both(e: Expression, d: &mut [u32], at: usize, o: u32, origin: u32) -> usize
    requires bound { (10 ≤ tag_at e.words.now (length e.words.now)) × (tag_at e.words.now (length e.words.now) < 30) }
    requires fact { (o ≡ 10) ⊎ (o ≡ 11) }
    ensures { Maps (negated o origin) e.entry.words.now 0 (length e.entry.words.now) d.old at result d.new }
{
    let (left, right) = e.operands();
    let m = into_nnf_not(left, d, at, origin);
    let n = into_nnf_not(right, d, m, origin);
    cells::put(d, at, n, Cell::new(o, origin))
}

// The expression with into_nnf of its operands.
#[cycle(into_nnf_expression_into_nnf_not_into_nnf_operands_negate_both)]
fn into_nnf_operands(e: Expression, d: &mut [u32], at: usize) -> usize
    ensures { Maps into_nnf_operands e.entry.words.now 0 (length e.entry.words.now) d.old at result d.new }
{
    let cell = e.cell();
    if cell.tag < tags::BINARY {
        return cells::put(d, at, at, cell);
    }
    if tags::UNARY <= cell.tag {
        let m = into_nnf_expression(e.operand(), d, at);
        return cells::put(d, at, m, cell);
    }
    let (left, right) = e.operands();
    let m = into_nnf_expression(left, d, at);
    let n = into_nnf_expression(right, d, m);
    cells::put(d, at, n, cell)
}
