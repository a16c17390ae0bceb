// optimizer.rs, ConstantFolding of an expression in its working form: it is read from one slice, and what it folds to is appended to another.
#![tactic(auto)]

ghost use Rattle.std.specs.Prelude.{ℕ, ◌+◌, ◌-◌, ◌≤◌, ◌<◌, ◌≡◌, length};
ghost use Rattle.cells.specs.Room.{Short};
ghost use Rattle.folding.specs.Folding.{Counts, FoldableAt, Folds, RightAt, FoldsRight};

use fold_operator::Failure;

// The number of cells from word lo up to hi.
fn count(lo: usize, hi: usize) -> usize
    requires { lo ≤ hi }
    ensures { Counts lo hi result }
{
    (hi - lo) / cells::CELL_WORDS
}

// All of the expression from lo to hi, operands first. `first` is the number of its first cell in the given sheet. What is written is never longer than
// the expression, so that there is always room.
#[cycle(fold_expression_fold_operand_fold_right)]
pub fn fold_expression(
    text: &[u8],
    s: &[u32],
    lo: usize,
    hi: usize,
    d: &mut [u32],
    at: usize,
    first: usize,
) -> Result<usize, Failure>
    requires foldable_at { FoldableAt text.now s.now lo hi }
    requires lo_in_bounds { (at + (hi - lo) ≤ length d.old) × ((first ≤ lo) × Short d.old) }
    ensures { Folds text.now first s.now lo hi d.old at result d.new }
{
    let k = cells::cell_at(s, hi);
    if k.tag < tags::BINARY {
        return Ok(cells::put(d, at, at, k));
    }
    let end = hi - cells::CELL_WORDS;
    if tags::UNARY <= k.tag {
        let n = fold_operand(text, s, lo, end, d, at, first)?;
        return fold_operator::fold_unary(d, at, n, k.tag, first + count(lo, end), k.origin);
    }
    let mid = cells::start(s, end);
    let m = fold_operand(text, s, lo, mid, d, at, first)?;
    fold_right(text, s, lo, hi, d, at, first, mid, m)
}

// An operand of an operator, from lo to hi. Half of all operands are leaves, which need no call of fold_expression (LLVM puts this function into its
// callers).
#[cycle(fold_expression_fold_operand_fold_right)]
fn fold_operand(
    text: &[u8],
    s: &[u32],
    lo: usize,
    hi: usize,
    d: &mut [u32],
    at: usize,
    first: usize,
) -> Result<usize, Failure>
    requires foldable_at { FoldableAt text.now s.now lo hi }
    requires lo_in_bounds { (at + (hi - lo) ≤ length d.old) × ((first ≤ lo) × Short d.old) }
    ensures { Folds text.now first s.now lo hi d.old at result d.new }
{
    let k = cells::cell_at(s, hi);
    if k.tag < tags::BINARY {
        return Ok(cells::put(d, at, at, k));
    }
    fold_expression(text, s, lo, hi, d, at, first)
}

// The operator at hi once its left operand is folded, and stands in d from `at` to m; its right one starts at mid. A neutral left operand leaves only the
// right one, which is then written in its place.
#[cycle(fold_expression_fold_operand_fold_right)]
fn fold_right(
    text: &[u8],
    s: &[u32],
    lo: usize,
    hi: usize,
    d: &mut [u32],
    at: usize,
    first: usize,
    mid: usize,
    m: usize,
) -> Result<usize, Failure>
    requires { RightAt text.now s.now lo hi d.old at first mid m }
    ensures { FoldsRight text.now s.now lo hi d.old at first mid m result d.new }
{
    let o = cells::tag_at(s, hi);
    let origin = cells::origin_at(s, hi);
    let end = hi - cells::CELL_WORDS;
    let next = first + count(lo, mid);
    let place = first + count(lo, end);
    if fold_operator::is_neutral(o, cells::cell_at(d, m)) {
        let n = fold_operand(text, s, mid, end, d, at, next)?;
        return fold_operator::fold_neutral(d, at, n, place, origin);
    }
    let n = fold_operand(text, s, mid, end, d, m, next)?;
    fold_operator::fold_binary(text, d, at, m, n, o, place, origin)
}
