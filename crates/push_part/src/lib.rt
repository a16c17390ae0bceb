// optimizer.rs, maybe_push_join: one of a join's sources with the part of the predicate that is for it, and what comes back from a source that takes none. The
// predicate's normal form stands in a slice of its own, `cnf`, up to word `end`; the conjuncts for the other source are gathered into the lent slice g. Each And
// that is put together here has the origin that is given, the join's.
#![tactic(auto)]

ghost use Rattle.std.specs.Prelude.{◌≡◌, length};
ghost use Rattle.words.specs.Place.{ExpressionAt, NodeAt};
ghost use Rattle.nodes.specs.Own.{OwnStart};
ghost use Rattle.conjuncts.specs.Conjuncts.{GatheredAt};
ghost use Rattle.push_into.specs.Push.{TakerAt};
ghost use Rattle.push_part.specs.Part.{WritesPart, WritesOwn, CloseableAt, Closes, PushesPart, ComesBack};

use copied_lookups::Source;

// The part of the predicate that is for a source, with the right source's columns `shift` lower. The left source has n columns.
fn part(
    cnf: &[u32],
    end: usize,
    g: &mut [u32],
    d: &mut [u32],
    at: usize,
    into: Source,
    n: usize,
    shift: usize,
    origin: u32,
) -> usize
    requires expression_at { ExpressionAt cnf.now 0 end }
    requires g_len { length g.old ≡ length cnf.now }
    ensures { WritesPart origin into n shift cnf.now end d.old at result d.new }
{
    match into {
        Source::Left => {
            let m = conjuncts::for_right(cnf, 0, end, g, 0, 0, n, 0, origin);
            copied_lookups::push_left(cnf, 0, end, g, 0, m, d, at, n, origin)
        }
        Source::Right => {
            let m = conjuncts::for_left(cnf, 0, end, g, 0, 0, n, origin);
            copied_lookups::push_right(cnf, 0, end, g, 0, m, d, at, n, shift, origin)
        }
    }
}

// The own words and the cell of the source from lo to hi with its part of the predicate, in the first words of d, if it takes one. The left source has n
// columns; the right source's part has its columns n lower, which is its `shift`. The caller seals the source.
pub fn own_part(
    s: &[u32],
    lo: usize,
    hi: usize,
    cnf: &[u32],
    end: usize,
    g: &mut [u32],
    d: &mut [u32],
    into: Source,
    n: usize,
    shift: usize,
    origin: u32,
) -> Option<usize>
    requires node_at { NodeAt s.now lo hi }
    requires expression_at { ExpressionAt cnf.now 0 end }
    requires g_len { length g.old ≡ length cnf.now }
    ensures { WritesOwn origin into n shift s.now lo hi cnf.now end d.old result d.new }
{
    if !push_into::takes(s, lo, hi) {
        return None;
    }
    let m = part(cnf, end, g, d, 0, into, n, shift, origin);
    if m == 0 {
        return None;
    }
    Some(push_into::with_predicate(s, lo, hi, d, 0, 0, m, origin))
}

// The node from lo to hi, whose own words start at m: its sources stand in d from word `from` up to mid, and from there up to at an expression that goes into
// its predicate, or nothing.
fn close(
    s: &[u32],
    lo: usize,
    hi: usize,
    m: usize,
    d: &mut [u32],
    from: usize,
    mid: usize,
    at: usize,
    origin: u32,
) -> usize
    requires taker_at { TakerAt s.now lo hi }
    requires own_start { OwnStart s.now lo hi m }
    requires closeable_at { CloseableAt d.old from mid at }
    ensures { Closes origin s.now lo hi d.old from mid at result d.new }
{
    if d.len() < at {
        return at;
    }
    if at == mid {
        return cells::copy(s, m, hi, d, at);
    }
    push_into::with_predicate(s, lo, hi, d, from, mid, at, origin)
}

// The whole source from lo to hi with its part of the predicate, if it takes one.
pub fn push_part(
    s: &[u32],
    lo: usize,
    hi: usize,
    cnf: &[u32],
    end: usize,
    g: &mut [u32],
    d: &mut [u32],
    at: usize,
    into: Source,
    n: usize,
    shift: usize,
    origin: u32,
) -> usize
    requires node_at { NodeAt s.now lo hi }
    requires expression_at { ExpressionAt cnf.now 0 end }
    requires g_len { length g.old ≡ length cnf.now }
    ensures { PushesPart origin into n shift s.now lo hi cnf.now end d.old at result d.new }
{
    if push_into::takes(s, lo, hi) {
        let m = nodes::own_start(s, lo, hi);
        let a = cells::copy(s, lo, m, d, at);
        let b = part(cnf, end, g, d, a, into, n, shift, origin);
        return close(s, lo, hi, m, d, at, a, b, origin);
    }
    cells::copy(s, lo, hi, d, at)
}

// What comes back from the source from lo to hi, if it takes nothing, as one more of the conjuncts that stand in d from word `from` up to at. Its columns are
// the joined row's.
pub fn come_back(
    s: &[u32],
    lo: usize,
    hi: usize,
    cnf: &[u32],
    end: usize,
    g: &mut [u32],
    d: &mut [u32],
    from: usize,
    at: usize,
    into: Source,
    n: usize,
    origin: u32,
) -> usize
    requires node_at { NodeAt s.now lo hi }
    requires expression_at { ExpressionAt cnf.now 0 end }
    requires g_len { length g.old ≡ length cnf.now }
    requires gathered_at { GatheredAt d.old from at }
    ensures { ComesBack origin into n s.now lo hi cnf.now end d.old from at result d.new }
{
    if push_into::takes(s, lo, hi) {
        return at;
    }
    if d.len() < at {
        return at;
    }
    let m = part(cnf, end, g, d, at, into, n, 0, origin);
    if m == at {
        return at;
    }
    if d.len() < m {
        return m;
    }
    conjuncts::and_over(d, from, at, m, origin)
}
