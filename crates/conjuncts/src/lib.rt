// optimizer.rs, maybe_push_join: the conjuncts of a join's predicate, joined by And in order, by where they go. The predicate is in its working form (crate
// cells); a conjunct is appended to another slice, behind those that stand there from word `from` up to `at`, with an And over both (and_vec), whose
// origin the caller gives.
#![tactic(auto)]

ghost use Rattle.std.specs.Prelude.{◌≡◌, [], ◌∷◌, map, ◌-◌, ◌<◌};
ghost use Rattle.sql.specs.Expression.{shift_column_down, ands};
ghost use Rattle.sql.specs.Optimizer.{for_left, for_right, for_both};
ghost use Rattle.words.specs.Place.{ExpressionAt, Maps};
ghost use Rattle.conjuncts.specs.Conjuncts.{GatheredAt, JoinableAt, Joins, Walks, Goes, chosen, AppendsEach};

// Where a conjunct goes: to one of the join's sources, or nowhere, and stays with the join.
#[derive(Clone, Copy)]
pub enum Destination {
    Left,
    Right,
    Join,
}

// The expression from lo to hi with its columns `shift` lower.
fn move_down(s: &[u32], lo: usize, hi: usize, d: &mut [u32], at: usize, shift: usize) -> usize
    requires { ExpressionAt s.now lo hi }
    ensures { Maps (shift_column_down shift) s.now lo hi d.old at result d.new }
{
    if shift == 0 {
        return cells::copy(s, lo, hi, d, at);
    }
    column_numbers::shift_column_down(s, lo, hi, d, at, shift)
}

// The And of the conjuncts that stand in d from `from` up to at and the expression from at up to m; that expression alone if no conjunct stands before it.
pub fn and_over(d: &mut [u32], from: usize, at: usize, m: usize, origin: u32) -> usize
    requires { JoinableAt d.old from at m }
    ensures { Joins origin d.old from at m result d.new }
{
    if d.len() < at {
        return at;
    }
    if at == from {
        return m;
    }
    cells::put(d, from, m, cells::Cell::new(tags::AND, origin))
}

// The expression from lo to hi, with its columns `shift` lower, as one more conjunct.
pub fn append(
    s: &[u32],
    lo: usize,
    hi: usize,
    d: &mut [u32],
    from: usize,
    at: usize,
    shift: usize,
    origin: u32,
) -> usize
    requires expression_at { ExpressionAt s.now lo hi }
    requires gathered_at { GatheredAt d.old from at }
    ensures { AppendsEach origin (λ e. shift_column_down shift e ∷ []) s.now lo hi d.old from at result d.new }
{
    let m = move_down(s, lo, hi, d, at, shift);
    and_over(d, from, at, m, origin)
}

// Whether a conjunct, the expression from lo to hi, goes there. One that refers to no column goes to both sources. The left source has n columns.
fn goes(s: &[u32], lo: usize, hi: usize, to: Destination, n: usize) -> bool
    requires { ExpressionAt s.now lo hi }
    ensures { Goes to n s.now lo hi result }
{
    match to {
        Destination::Left => !column_numbers::refers_right(s, lo, hi, n),
        Destination::Right => !column_numbers::refers_left(s, lo, hi, n),
        Destination::Join => {
            column_numbers::refers_left(s, lo, hi, n) && column_numbers::refers_right(s, lo, hi, n)
        }
    }
}

// The conjuncts of the expression from lo to hi that go there, with their columns `shift` lower. The left source has n columns.
fn gather(
    s: &[u32],
    lo: usize,
    hi: usize,
    d: &mut [u32],
    from: usize,
    at: usize,
    to: Destination,
    n: usize,
    shift: usize,
    origin: u32,
) -> usize
    requires expression_at { ExpressionAt s.now lo hi }
    requires gathered_at { GatheredAt d.old from at }
    ensures { Walks origin (chosen to n shift) s.now lo hi d.old from at result d.new }
{
    if cells::tag_at(s, hi) == tags::AND {
        let end = hi - cells::CELL_WORDS;
        let mid = cells::start(s, end);
        let m = gather(s, lo, mid, d, from, at, to, n, shift, origin);
        return gather(s, mid, end, d, from, m, to, n, shift, origin);
    }
    if goes(s, lo, hi, to, n) {
        return append(s, lo, hi, d, from, at, shift, origin);
    }
    at
}

// The conjuncts of the expression from lo to hi for the left source.
pub fn for_left(
    s: &[u32],
    lo: usize,
    hi: usize,
    d: &mut [u32],
    from: usize,
    at: usize,
    n: usize,
    origin: u32,
) -> usize
    requires expression_at { ExpressionAt s.now lo hi }
    requires gathered_at { GatheredAt d.old from at }
    ensures { AppendsEach origin (λ e. for_left n (ands e)) s.now lo hi d.old from at result d.new }
{
    gather(s, lo, hi, d, from, at, Destination::Left, n, 0, origin)
}

// Those for the right source, with their columns `shift` lower: n, to push them, or 0.
pub fn for_right(
    s: &[u32],
    lo: usize,
    hi: usize,
    d: &mut [u32],
    from: usize,
    at: usize,
    n: usize,
    shift: usize,
    origin: u32,
) -> usize
    requires expression_at { ExpressionAt s.now lo hi }
    requires gathered_at { GatheredAt d.old from at }
    ensures { AppendsEach origin (λ e. map (shift_column_down shift) (for_right n (ands e))) s.now lo hi d.old from at result d.new }
{
    gather(s, lo, hi, d, from, at, Destination::Right, n, shift, origin)
}

// Those that stay with the join.
pub fn for_both(
    s: &[u32],
    lo: usize,
    hi: usize,
    d: &mut [u32],
    from: usize,
    at: usize,
    n: usize,
    origin: u32,
) -> usize
    requires expression_at { ExpressionAt s.now lo hi }
    requires gathered_at { GatheredAt d.old from at }
    ensures { AppendsEach origin (λ e. for_both n (ands e)) s.now lo hi d.old from at result d.new }
{
    gather(s, lo, hi, d, from, at, Destination::Join, n, 0, origin)
}
