// optimizer.rs, ConstantFolding of a plan in its working form: it is read from one slice, and what it folds to is written to another. In the Rust a node's own
// parts are folded before its sources; in postfix order they stand behind them. Nothing but a refusal tells which came first: so the sources are folded first here,
// to where they stand, and where one is refused the own parts are folded after all, as a refusal of theirs comes first.
#![tactic(auto)]

ghost use Rattle.std.specs.Prelude.{ℕ, ◌+◌, ◌-◌, ◌≤◌, ◌<◌, ◌≡◌, length};
ghost use Rattle.cells.specs.Room.{Short};
ghost use Rattle.fold_parts.specs.Own.{OwnAt};
ghost use Rattle.constant_folding.specs.Nodes.{SourcesAt, LastStart, Refuses, SourceAt, FoldsSource};
ghost use Rattle.constant_folding.specs.Plans.{PlanAt, FoldsPlan};

use fold_operator::Failure;

// Where the last source starts of a node whose sources stand from lo to m; lo if it has none.
fn last_source(x: &[u32], lo: usize, m: usize) -> usize
    requires { SourcesAt x.now lo m }
    ensures { LastStart x.now lo m result }
{
    if m <= lo {
        return lo;
    }
    cells::start(x, m)
}

// The failure of the node from lo to hi, a source of which fails by `why`: that of its own parts, if they fail. They stand from m on; what they fold to is
// written to y, where nothing is needed any more.
fn refuse(
    text: &[u8],
    x: &[u32],
    lo: usize,
    hi: usize,
    m: usize,
    y: &mut [u32],
    at: usize,
    why: Failure,
) -> Failure
    requires own_at { OwnAt text.now x.now lo hi m }
    requires m_in_bounds { (at + (hi - m) ≤ length y.old) × Short y.old }
    ensures { Refuses text.now x.now lo hi m why result }
{
    match fold_parts::fold_own(text, x, lo, hi, y, at, m) {
        Ok(_) => why,
        Err(own) => own,
    }
}

// The node from lo to hi. What is written is never longer than the node, so that there is always room. A chain of nodes without parts, which fold to
// themselves, is gone through without a frame for each (crate chain).
#[cycle(fold_node_fold_source)]
fn fold_node(
    text: &[u8],
    x: &[u32],
    lo: usize,
    hi: usize,
    y: &mut [u32],
    at: usize,
) -> Result<usize, Failure>
    requires source_at { SourceAt text.now x.now lo hi × (lo < hi) }
    requires lo_in_bounds { (at + (hi - lo) ≤ length y.old) × Short y.old }
    ensures { FoldsSource text.now x.now lo hi y.old at result y.new }
{
    let end = chain::descend_bare(x, lo, hi);
    let m = nodes::own_start(x, lo, end);
    let mid = last_source(x, lo, m);
    let e = match fold_source(text, x, lo, mid, y, at) {
        Ok(e) => e,
        Err(why) => return Err(refuse(text, x, lo, end, m, y, at, why)),
    };
    let f = match fold_source(text, x, mid, m, y, e) {
        Ok(f) => f,
        Err(why) => return Err(refuse(text, x, lo, end, m, y, at, why)),
    };
    let n = fold_parts::fold_own(text, x, lo, end, y, f, m)?;
    let u = cells::put(y, at, n, cells::cell_at(x, end));
    Ok(chain::follow(x, end, hi, y, at, u))
}

// The node from lo to hi; nothing, if there is none. Most nodes have one source or none, and what isn't there needs no call of fold_node (LLVM puts this
// function into its caller). A node of one cell, as a Scan without a filter, folds to itself, and needs none either.
#[cycle(fold_node_fold_source)]
fn fold_source(
    text: &[u8],
    x: &[u32],
    lo: usize,
    hi: usize,
    y: &mut [u32],
    at: usize,
) -> Result<usize, Failure>
    requires source_at { SourceAt text.now x.now lo hi }
    requires lo_in_bounds { (at + (hi - lo) ≤ length y.old) × Short y.old }
    ensures { FoldsSource text.now x.now lo hi y.old at result y.new }
{
    if hi <= lo {
        return Ok(at);
    }
    if hi - lo == cells::CELL_WORDS {
        return Ok(cells::copy(x, lo, hi, y, at));
    }
    fold_node(text, x, lo, hi, y, at)
}

// The plan in the first t words of x.
pub fn constant_folding(text: &[u8], x: &[u32], t: usize, y: &mut [u32]) -> Result<usize, Failure>
    requires plan_at { PlanAt text.now x.now t }
    requires t_in_bounds { (t ≤ length y.old) × Short y.old }
    ensures { FoldsPlan text.now x.now t result y.new }
{
    fold_node(text, x, 0, t, y, 0)
}
