// optimizer.rs, ConstantFolding of a node's own parts in their working form: they are read from one slice, and what they fold to is appended to another.
// The slice that is read holds the given sheet's plan from its first word on, so that a cell's number is a seventh of the word that it starts at.
#![tactic(auto)]

ghost use Rattle.std.specs.Prelude.{ℕ, ◌+◌, ◌-◌, ◌≤◌, ◌<◌, ◌≡◌, length};
ghost use Rattle.cells.specs.Cells.{tag_at};
ghost use Rattle.cells.specs.Room.{Short};
ghost use Rattle.words.specs.Place.{NodeAt};
ghost use Rattle.nodes.specs.Own.{OwnStart};
ghost use Rattle.fold_parts.specs.Parts.{Numbers, PartsAt, FoldsParts, PartAt, FoldsPart};
ghost use Rattle.fold_parts.specs.Own.{Visits, OwnAt, FoldsOwn};

use fold_operator::Failure;

// The number of the cell that starts at a word.
fn number(at: usize) -> usize
    ensures { Numbers at result }
{
    at / cells::CELL_WORDS
}

// All parts from lo to hi, from the first to the last. The last one's start is known from its end, so that those before it are folded by a call.
#[cycle(fold_expressions_fold_part_fold_parts)]
fn fold_parts(
    text: &[u8],
    s: &[u32],
    lo: usize,
    hi: usize,
    d: &mut [u32],
    at: usize,
) -> Result<usize, Failure>
    requires parts_at { PartsAt text.now s.now lo hi }
    requires lo_in_bounds { (at + (hi - lo) ≤ length d.old) × Short d.old }
    ensures { FoldsParts text.now s.now lo hi d.old at result d.new }
{
    if hi <= lo {
        return Ok(at);
    }
    let mid = cells::start(s, hi);
    let m = fold_parts(text, s, lo, mid, d, at)?;
    fold_part(text, s, mid, hi, d, m)
}

// One part: an expression, or the expressions below the cell of an Item, a Key or a Row.
#[cycle(fold_expressions_fold_part_fold_parts)]
fn fold_part(
    text: &[u8],
    s: &[u32],
    lo: usize,
    hi: usize,
    d: &mut [u32],
    at: usize,
) -> Result<usize, Failure>
    requires part_at { PartAt text.now s.now lo hi }
    requires lo_in_bounds { (at + (hi - lo) ≤ length d.old) × Short d.old }
    ensures { FoldsPart text.now s.now lo hi d.old at result d.new }
{
    if cells::tag_at(s, hi) < tags::PARTS {
        return folding::fold_expression(text, s, lo, hi, d, at, number(lo));
    }
    let n = fold_expressions(text, s, lo, hi - cells::CELL_WORDS, d, at)?;
    Ok(cells::put(d, at, n, cells::cell_at(s, hi)))
}

// The expressions from lo to end, where the cell over them starts. An Item and a Key have one, which needs no walk through a list.
#[cycle(fold_expressions_fold_part_fold_parts)]
fn fold_expressions(
    text: &[u8],
    s: &[u32],
    lo: usize,
    end: usize,
    d: &mut [u32],
    at: usize,
) -> Result<usize, Failure>
    requires parts_at { PartsAt text.now s.now lo end × (lo < end → tag_at s.now end < 40) }
    requires lo_in_bounds { (at + (end - lo) ≤ length d.old) × Short d.old }
    ensures { FoldsParts text.now s.now lo end d.old at result d.new }
{
    if end <= lo {
        return Ok(at);
    }
    if cells::start(s, end) == lo {
        return folding::fold_expression(text, s, lo, end, d, at, number(lo));
    }
    fold_parts(text, s, lo, end, d, at)
}

// Whether the own expressions of a node are visited.
fn is_visited(s: &[u32], lo: usize, hi: usize) -> bool
    requires { NodeAt s.now lo hi }
    ensures { Visits s.now lo hi result }
{
    matches!(
        cells::tag_at(s, hi),
        tags::FILTER
            | tags::NESTED_LOOP_JOIN
            | tags::ORDER
            | tags::PROJECTION
            | tags::SCAN
            | tags::VALUES
    )
}

// The own parts, from word m on, of the node from lo to hi. Those that aren't visited are copied.
pub fn fold_own(
    text: &[u8],
    s: &[u32],
    lo: usize,
    hi: usize,
    d: &mut [u32],
    at: usize,
    m: usize,
) -> Result<usize, Failure>
    requires own_at { OwnAt text.now s.now lo hi m }
    requires m_in_bounds { (at + (hi - m) ≤ length d.old) × Short d.old }
    ensures { FoldsOwn text.now s.now lo hi d.old at m result d.new }
{
    if is_visited(s, lo, hi) {
        return fold_parts(text, s, m, hi - cells::CELL_WORDS, d, at);
    }
    Ok(cells::copy(s, m, hi - cells::CELL_WORDS, d, at))
}
