// optimizer.rs, maybe_push_join: what is pushed into a join's sources. Beside its own conjuncts a source gets, for each equijoin that stays with the join, the
// last lookup of the other source's column, copied to its own column. The conjuncts of the other source are lent, gathered before (crate conjuncts), so that
// no others are searched. The Ands over the conjuncts have the origin that the caller gives.
#![tactic(auto)]

ghost use Rattle.std.specs.Prelude.{◌≡◌, ◌-◌, ◌<◌};
ghost use Rattle.sql.specs.Optimizer.{is_number};
ghost use Rattle.words.specs.Place.{ExpressionAt};
ghost use Rattle.column_lookup.specs.Lookup.{found, column_in, equal_cells};
ghost use Rattle.conjuncts.specs.Conjuncts.{OptionalAt, GatheredAt};
ghost use Rattle.copied_lookups.specs.Copies.{IsLookupOf, ending, FindsLast, CopiesLast, CopiesPair, CopiesConjunct, CopiesEach, LeftAt, PushesLeft, RightAt, PushesRight};

use words::Expression;

// A source of a join.
#[derive(Clone, Copy)]
pub enum Source {
    Left,
    Right,
}

// Where an expression stands, from a word up to another.
#[derive(Clone, Copy)]
pub struct Place {
    pub start: usize,
    pub end: usize,
}

// Whether a cell is that of Column c.
fn is_column(k: cells::Cell, c: u32) -> bool
    ensures { result ≡ is_number c (found (column_in k)) }
{
    k.tag == tags::COLUMN && k.a == c
}

// Whether Equal of operands with these cells is a lookup of column c.
fn is_equal_lookup(l: cells::Cell, r: cells::Cell, c: u32) -> bool
    ensures { result ≡ is_number c (found (equal_cells l r)) }
{
    if l.tag < tags::COLUMN {
        return is_column(r, c);
    }
    l.tag == tags::COLUMN && r.tag < tags::COLUMN && l.a == c
}

// Whether the Or from lo to hi is a lookup of column c.
fn is_or_lookup(s: &[u32], lo: usize, hi: usize, c: u32) -> bool
    requires { ExpressionAt s.now lo hi }
    ensures { IsLookupOf c s.now lo hi result }
{
    let or = Expression { words: &s[lo..hi] };
    column_lookup::is_column_lookup(or) == Some(c)
}

// Whether the expression from lo to hi is a lookup of column c. For each equijoin all lookups may be asked, so that only an Or is left to a call.
fn is_lookup_of(s: &[u32], lo: usize, hi: usize, c: u32) -> bool
    requires { ExpressionAt s.now lo hi }
    ensures { IsLookupOf c s.now lo hi result }
{
    let end = hi - cells::CELL_WORDS;
    match cells::tag_at(s, hi) {
        tags::OR => is_or_lookup(s, lo, hi, c),
        tags::EQUAL => {
            let mid = cells::start(s, end);
            is_equal_lookup(cells::cell_at(s, mid), cells::cell_at(s, end), c)
        }
        tags::IS_NULL | tags::IS_NAN => is_column(cells::cell_at(s, end), c),
        _ => false,
    }
}

// Where the last lookup of column c among the conjuncts of the expression from lo to hi ends.
fn last_end(s: &[u32], lo: usize, hi: usize, c: u32) -> Option<usize>
    requires { ExpressionAt s.now lo hi }
    ensures { FindsLast c s.now lo hi (ending s.now result) }
{
    if cells::tag_at(s, hi) == tags::AND {
        let end = hi - cells::CELL_WORDS;
        let mid = cells::start(s, end);
        if let Some(later) = last_end(s, mid, end, c) {
            return Some(later);
        }
        return last_end(s, lo, mid, c);
    }
    is_lookup_of(s, lo, hi, c).then_some(hi)
}

// The same for one conjunct, which is no And as a rule; then there is no call.
fn conjunct_end(s: &[u32], lo: usize, hi: usize, c: u32) -> Option<usize>
    requires { ExpressionAt s.now lo hi }
    ensures { FindsLast c s.now lo hi (ending s.now result) }
{
    if cells::tag_at(s, hi) == tags::AND {
        return last_end(s, lo, hi, c);
    }
    is_lookup_of(s, lo, hi, c).then_some(hi)
}

// The same, from the last conjunct to the first: those that and_vec joined stand to the left.
fn last_joined_end(s: &[u32], lo: usize, hi: usize, c: u32) -> Option<usize>
    requires { ExpressionAt s.now lo hi }
    ensures { FindsLast c s.now lo hi (ending s.now result) }
{
    let mut at = hi;
    while cells::tag_at(s, at) == tags::AND {
        let end = at - cells::CELL_WORDS;
        let mid = cells::start(s, end);
        if let Some(later) = conjunct_end(s, mid, end, c) {
            return Some(later);
        }
        at = mid;
    }
    is_lookup_of(s, lo, at, c).then_some(at)
}

// The last lookup of column c among the conjuncts of the expression from lo to hi.
pub fn last_lookup(s: &[u32], lo: usize, hi: usize, c: u32) -> Option<Place>
    requires { ExpressionAt s.now lo hi }
    ensures { FindsLast c s.now lo hi result }
{
    let end = last_joined_end(s, lo, hi, c)?;
    let start = cells::start(s, end);
    Some(Place { start, end })
}

// The last lookup of a column among the conjuncts that stand in s from lo up to hi, copied to another column, as one more conjunct.
fn copy_last(
    s: &[u32],
    lo: usize,
    hi: usize,
    d: &mut [u32],
    from: usize,
    at: usize,
    column: u32,
    to: u32,
    origin: u32,
) -> usize
    requires optional_at { OptionalAt s.now lo hi }
    requires gathered_at { GatheredAt d.old from at }
    ensures { CopiesLast origin column to s.now lo hi d.old from at result d.new }
{
    if lo == hi {
        return at;
    }
    let Some(last) = last_lookup(s, lo, hi, column) else {
        return at;
    };
    let m = column_numbers::replace_column(s, last.start, last.end, d, at, column, to);
    conjuncts::and_over(d, from, at, m, origin)
}

// What the equijoin of columns l and r copies into a source, if it stays with the join: it has a column of each source. The right source's columns are written
// `shift` lower.
fn copy_pair(
    s: &[u32],
    lo: usize,
    hi: usize,
    d: &mut [u32],
    from: usize,
    at: usize,
    l: column_numbers::JoinedColumn,
    r: column_numbers::JoinedColumn,
    into: Source,
    n: usize,
    shift: usize,
    origin: u32,
) -> usize
    requires optional_at { OptionalAt s.now lo hi }
    requires gathered_at { GatheredAt d.old from at }
    ensures { CopiesPair origin into n shift l.0 r.0 s.now lo hi d.old from at result d.new }
{
    if n <= l.0 as usize || (r.0 as usize) < n {
        return at;
    }
    match into {
        Source::Left => copy_last(s, lo, hi, d, from, at, r.0, l.0, origin),
        Source::Right => {
            let own = r.right(shift);
            copy_last(s, lo, hi, d, from, at, l.0, own.0, origin)
        }
    }
}

// What the conjunct from lo to hi copies into a source. The conjuncts of the other source stand in g from a up to b.
fn copy_conjunct(
    s: &[u32],
    lo: usize,
    hi: usize,
    g: &[u32],
    a: usize,
    b: usize,
    d: &mut [u32],
    from: usize,
    at: usize,
    into: Source,
    n: usize,
    shift: usize,
    origin: u32,
) -> usize
    requires expression_at { ExpressionAt s.now lo hi }
    requires optional_at { OptionalAt g.now a b }
    requires gathered_at { GatheredAt d.old from at }
    ensures { CopiesConjunct origin into n shift s.now lo hi g.now a b d.old from at result d.new }
{
    let conjunct = Expression { words: &s[lo..hi] };
    let Some((l, r)) = column_lookup::equijoin(conjunct) else {
        return at;
    };
    copy_pair(g, a, b, d, from, at, l, r, into, n, shift, origin)
}

// What the conjuncts of the expression from lo to hi copy into a source.
fn copy_each(
    s: &[u32],
    lo: usize,
    hi: usize,
    g: &[u32],
    a: usize,
    b: usize,
    d: &mut [u32],
    from: usize,
    at: usize,
    into: Source,
    n: usize,
    shift: usize,
    origin: u32,
) -> usize
    requires expression_at { ExpressionAt s.now lo hi }
    requires optional_at { OptionalAt g.now a b }
    requires gathered_at { GatheredAt d.old from at }
    ensures { CopiesEach origin into n shift s.now lo hi g.now a b d.old from at result d.new }
{
    if cells::tag_at(s, hi) == tags::AND {
        let end = hi - cells::CELL_WORDS;
        let mid = cells::start(s, end);
        let m = copy_each(s, lo, mid, g, a, b, d, from, at, into, n, shift, origin);
        return copy_each(s, mid, end, g, a, b, d, from, m, into, n, shift, origin);
    }
    copy_conjunct(s, lo, hi, g, a, b, d, from, at, into, n, shift, origin)
}

// What of the predicate from lo to hi is pushed into the left source, which has n columns. The conjuncts for the right source stand in g from a up to b.
pub fn push_left(
    s: &[u32],
    lo: usize,
    hi: usize,
    g: &[u32],
    a: usize,
    b: usize,
    d: &mut [u32],
    at: usize,
    n: usize,
    origin: u32,
) -> usize
    requires { LeftAt origin n s.now lo hi g.now a b }
    ensures { PushesLeft origin n s.now lo hi g.now a b d.old at result d.new }
{
    let m = conjuncts::for_left(s, lo, hi, d, at, at, n, origin);
    copy_each(s, lo, hi, g, a, b, d, at, m, Source::Left, n, 0, origin)
}

// What is pushed into the right source, with its columns `shift` lower: n, to push it, or 0. The conjuncts for the left source stand in g from a up to b.
pub fn push_right(
    s: &[u32],
    lo: usize,
    hi: usize,
    g: &[u32],
    a: usize,
    b: usize,
    d: &mut [u32],
    at: usize,
    n: usize,
    shift: usize,
    origin: u32,
) -> usize
    requires { RightAt origin n s.now lo hi g.now a b }
    ensures { PushesRight origin n shift s.now lo hi g.now a b d.old at result d.new }
{
    let m = conjuncts::for_right(s, lo, hi, d, at, at, n, shift, origin);
    copy_each(
        s,
        lo,
        hi,
        g,
        a,
        b,
        d,
        at,
        m,
        Source::Right,
        n,
        shift,
        origin,
    )
}
