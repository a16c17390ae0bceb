// optimizer.rs, push_filters and maybe_push_filter, in place (crate edit): the whole plan stands in the first t words of x, the node that is worked on from lo
// up to t - tail. A number of words past the end of x stands for refusal 14. y, z and w are scratch; tables are the table records (crate records). n bounds
// the nodes, as in the definition (crate sql, Room).
//
// A run of Filters can be as long as the plan. So a Filter that is merged into one is only gathered: its predicate is the first `at` words of y, its source
// ends at `end` in x, and the words from there up to t - tail are gone once it is placed. With at = 0 nothing is gathered, and the node is no Filter. `origin`
// is the origin of the Filter that is gathered, which is that of the lowest one in it; each And has that of the upper Filter, the one that is merged.
#![tactic(auto)]

ghost use Rattle.std.specs.Prelude.{◌≡◌, ◌+◌, ◌≤◌, length};
ghost use Rattle.sql.specs.Room;
ghost use Rattle.kept.specs.Pass.{PassAt, Passes};
ghost use Rattle.push_filters.specs.Buffers.{Buffers};
ghost use Rattle.push_filters.specs.Tried.{TriedAt, Tries, Gathers, Filters};

use cells::Cell;

// The predicate of x from lo to hi is gathered behind the one in the first `at` words of y, with an And of that origin over both.
fn gather(x: &[u32], lo: usize, hi: usize, y: &mut [u32], at: usize, origin: u32) -> usize
    requires { (lo ≤ hi) × (hi ≤ length x.now) }
    ensures { Gathers origin x.now lo hi y.old at result y.new }
{
    let m = cells::copy(x, lo, hi, y, at);
    cells::put(y, 0, m, Cell::new(tags::AND, origin))
}

// A Filter of that origin with the predicate in the first n words of y, over the node of x from lo up to `end`, takes the place of all from lo up to t - tail.
fn filter_over(
    x: &mut [u32],
    y: &mut [u32],
    n: usize,
    t: usize,
    lo: usize,
    end: usize,
    tail: usize,
    origin: u32,
) -> usize
    requires lo_le_end { lo ≤ end }
    requires tail_bound { (end + tail ≤ t) × (t ≤ length x.old) }
    requires y_len { length y.old ≡ length x.old }
    ensures { Filters origin x.old y.old n t lo end tail result x.new }
{
    let m = cells::put(y, 0, n, Cell::new(tags::FILTER, origin));
    edit::replace_own(x, y, m, t, lo, end, tail)
}

// A Filter that its source takes is gone, and push_filters goes on with the source. No merge makes the plan larger: there is room for it.
#[cycle(maybe_push_filter_push_filters)]
fn maybe_push_filter(
    x: &mut [u32],
    y: &mut [u32],
    z: &mut [u32],
    w: &mut [u32],
    n: usize,
    at: usize,
    end: usize,
    t: usize,
    lo: usize,
    tail: usize,
    tables: &[u8],
    origin: u32,
) -> usize
    requires tried_at { TriedAt tables.now x.old y.old at end t lo tail origin }
    requires buffers { Buffers x.old y.old z.old w.old }
    ensures { Tries (λ room schema. Room.maybe_push_filter room schema n) tables.now x.old y.old at end t lo tail origin result x.new }
{
    if at == 0 {
        return t;
    }
    if n == 0 {
        return filter_over(x, y, at, t, lo, end, tail, origin);
    }
    if cells::tag_at(x, end) == tags::FILTER {
        let own = nodes::own_start(x, lo, end);
        let more = gather(x, own, end - cells::CELL_WORDS, y, at, origin);
        let below = cells::origin_at(x, end);
        return push_filters(x, y, z, w, n - 1, more, own, t, lo, tail, tables, below);
    }
    if push_into::takes(x, lo, end) {
        let into = push_into::push_into(x, y, at, t, lo, end, tail, origin);
        // Nothing is gathered now, so no origin is asked for.
        return push_filters(x, y, z, w, n - 1, 0, end, into, lo, tail, tables, 0);
    }
    filter_over(x, y, at, t, lo, end, tail, origin)
}

// maybe_push_filter, then the join rule.
#[cycle(maybe_push_filter_push_filters)]
fn push_filters(
    x: &mut [u32],
    y: &mut [u32],
    z: &mut [u32],
    w: &mut [u32],
    n: usize,
    at: usize,
    end: usize,
    t: usize,
    lo: usize,
    tail: usize,
    tables: &[u8],
    origin: u32,
) -> usize
    requires tried_at { TriedAt tables.now x.old y.old at end t lo tail origin }
    requires buffers { Buffers x.old y.old z.old w.old }
    ensures { Tries (λ room schema. Room.push_filters room schema n) tables.now x.old y.old at end t lo tail origin result x.new }
{
    let pushed = maybe_push_filter(x, y, z, w, n, at, end, t, lo, tail, tables, origin);
    if x.len() < pushed {
        return pushed;
    }
    push_join::maybe_push_join(x, y, z, w, pushed, lo, tail, tables)
}

// push_filters of the node that stands in x from lo up to t - tail.
pub fn push_filters_in_place(
    x: &mut [u32],
    y: &mut [u32],
    z: &mut [u32],
    w: &mut [u32],
    n: usize,
    t: usize,
    lo: usize,
    tail: usize,
    tables: &[u8],
) -> usize
    requires pass_at { PassAt tables.now x.old t lo tail }
    requires buffers { Buffers x.old y.old z.old w.old }
    ensures { Passes (λ room schema. Room.push_filters room schema n) tables.now x.old t lo tail result x.new }
{
    let hi = t - tail;
    if cells::tag_at(x, hi) == tags::FILTER {
        let own = nodes::own_start(x, lo, hi);
        let at = cells::copy(x, own, hi - cells::CELL_WORDS, y, 0);
        let origin = cells::origin_at(x, hi);
        return push_filters(x, y, z, w, n, at, own, t, lo, tail, tables, origin);
    }
    // Nothing is gathered, so no origin is asked for.
    push_filters(x, y, z, w, n, 0, hi, t, lo, tail, tables, 0)
}
