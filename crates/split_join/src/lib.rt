// optimizer.rs, maybe_push_join: a join after one split of its predicate. The conjuncts of the predicate are pushed into the join's sources, as far as these take
// them. The plan is edited in place (crate edit): it stands in the first t words of x, the join from lo up to t - tail. What stands before the first word that
// changes stays where it is; what comes behind that word, up to the join's end, is written to the scratch y and takes its place at once. So where the join
// is as long as before, which it often is, the words behind it stay where they are too. `origin` is the join's; each And that is put together has it.
#![tactic(auto)]

ghost use Rattle.std.specs.Prelude.{◌≡◌, ◌-◌, ◌≤◌, length};
ghost use Rattle.words.specs.Place.{ExpressionAt, NodeAt};
ghost use Rattle.nodes.specs.Own.{OwnStart};
ghost use Rattle.split_join.specs.Split.{PredicateAt, JoinAt, SplitAt, Stays, Rejoins, ReplacesEnd, SplitsRight, SplitsBoth, Splits};

use copied_lookups::Source;

// The new predicate of a join of the sources from lo to mid and from mid to m, behind the first `at` words of d: the conjuncts that stay, and behind them what
// comes back from each source. The left source has n columns.
fn joined_predicate(
    s: &[u32],
    lo: usize,
    mid: usize,
    m: usize,
    cnf: &[u32],
    end: usize,
    g: &mut [u32],
    d: &mut [u32],
    at: usize,
    n: usize,
    origin: u32,
) -> usize
    requires node_at { NodeAt s.now lo mid }
    requires node_at_2 { NodeAt s.now mid m }
    requires expression_at { ExpressionAt cnf.now 0 end }
    requires g_len { length g.old ≡ length cnf.now }
    ensures { Stays origin n s.now lo mid m cnf.now end d.old at result d.new }
{
    let i = conjuncts::for_both(cnf, 0, end, d, at, at, n, origin);
    let j = push_part::come_back(s, lo, mid, cnf, end, g, d, at, i, Source::Left, n, origin);
    push_part::come_back(s, mid, m, cnf, end, g, d, at, j, Source::Right, n, origin)
}

// The cell of the join from lo to hi, which has a predicate, over the first `at` words of d: from mid on they are the new predicate, or nothing.
fn rejoin(s: &[u32], lo: usize, hi: usize, d: &mut [u32], mid: usize, at: usize) -> usize
    requires { PredicateAt s.now lo hi }
    ensures { Rejoins s.now lo hi d.old mid at result d.new }
{
    if d.len() < at {
        return at;
    }
    let c = cells::cell_at(s, hi);
    if at == mid {
        let without_flag = cells::Cell {
            flag: c.flag - 1,
            ..c
        };
        return cells::put(d, 0, at, without_flag);
    }
    cells::put(d, 0, at, c)
}

// The first `at` words of y, the new predicate and the join's cell in the place of the join's words from word `from` on, which is one of its sources' words or m.
// The sources end at mid and at m, and the left one has n columns. The predicate's normal form stands in cnf up to word `end`; g is lent for the conjuncts of
// one source at a time.
fn replace_end(
    x: &mut [u32],
    y: &mut [u32],
    cnf: &[u32],
    end: usize,
    g: &mut [u32],
    t: usize,
    lo: usize,
    mid: usize,
    m: usize,
    tail: usize,
    n: usize,
    from: usize,
    at: usize,
    origin: u32,
) -> usize
    requires join_at { JoinAt x.old t lo mid m tail origin }
    requires lo_le_from { (lo ≤ from) × (from ≤ m) }
    requires y_len { length y.old ≡ length x.old }
    requires expression_at { ExpressionAt cnf.now 0 end }
    requires g_len { length g.old ≡ length cnf.now }
    ensures { ReplacesEnd origin n x.old y.old t lo mid m tail cnf.now end from at result x.new }
{
    let b = joined_predicate(x, lo, mid, m, cnf, end, g, y, at, n, origin);
    let c = rejoin(x, lo, t - tail, y, at, b);
    edit::replace_own(x, y, c, t, lo, from, tail)
}

// The join with the new predicate, and with the right source's part in that source. The left source stays where it is, as it is.
fn split_right(
    x: &mut [u32],
    y: &mut [u32],
    cnf: &[u32],
    end: usize,
    g: &mut [u32],
    t: usize,
    lo: usize,
    mid: usize,
    m: usize,
    tail: usize,
    n: usize,
    origin: u32,
) -> usize
    requires join_at { JoinAt x.old t lo mid m tail origin }
    requires y_len { length y.old ≡ length x.old }
    requires expression_at { ExpressionAt cnf.now 0 end }
    requires g_len { length g.old ≡ length cnf.now }
    ensures { SplitsRight origin n x.old t lo mid m tail cnf.now end result x.new }
{
    let part = push_part::own_part(x, mid, m, cnf, end, g, y, Source::Right, n, n, origin);
    let Some(k) = part else {
        return replace_end(x, y, cnf, end, g, t, lo, mid, m, tail, n, m, 0, origin);
    };
    let own = nodes::own_start(x, mid, m);
    let u = replace_end(x, y, cnf, end, g, t, lo, mid, m, tail, n, own, k, origin);
    if x.len() < u {
        return u;
    }
    edit::reseal(x, u, mid, u - own - k)
}

// The join with the new predicate, and with each source's part in that source. If the left source takes a part, the right one is written again behind it.
fn split_both(
    x: &mut [u32],
    y: &mut [u32],
    cnf: &[u32],
    end: usize,
    g: &mut [u32],
    t: usize,
    lo: usize,
    mid: usize,
    m: usize,
    tail: usize,
    n: usize,
    origin: u32,
) -> usize
    requires join_at { JoinAt x.old t lo mid m tail origin }
    requires y_len { length y.old ≡ length x.old }
    requires expression_at { ExpressionAt cnf.now 0 end }
    requires g_len { length g.old ≡ length cnf.now }
    ensures { SplitsBoth origin n x.old t lo mid m tail cnf.now end result x.new }
{
    let part = push_part::own_part(x, lo, mid, cnf, end, g, y, Source::Left, n, 0, origin);
    let Some(k) = part else {
        return split_right(x, y, cnf, end, g, t, lo, mid, m, tail, n, origin);
    };
    let own = nodes::own_start(x, lo, mid);
    let b = push_part::push_part(x, mid, m, cnf, end, g, y, k, Source::Right, n, n, origin);
    let u = replace_end(x, y, cnf, end, g, t, lo, mid, m, tail, n, own, b, origin);
    if x.len() < u {
        return u;
    }
    edit::reseal(x, u, lo, u - own - k)
}

// The join, whose predicate starts at m, after the split of its predicate. tables are the table records (crate records).
pub fn split(
    x: &mut [u32],
    y: &mut [u32],
    cnf: &[u32],
    end: usize,
    g: &mut [u32],
    t: usize,
    lo: usize,
    m: usize,
    tail: usize,
    tables: &[u8],
) -> usize
    requires split_at { SplitAt tables.now x.old t lo tail }
    requires own_start { OwnStart x.old lo (t - tail) m }
    requires y_len { length y.old ≡ length x.old }
    requires expression_at { ExpressionAt cnf.now 0 end }
    requires g_len { length g.old ≡ length cnf.now }
    ensures { Splits tables.now x.old t lo tail cnf.now end result x.new }
{
    let mid = cells::start(x, m);
    let n = nodes::columns(x, lo, mid, tables);
    let origin = cells::origin_at(x, t - tail);
    split_both(x, y, cnf, end, g, t, lo, mid, m, tail, n, origin)
}
