// optimizer.rs, push_into: a predicate goes into a node that can take one, before the predicate that the node has. The plan is edited in place (crate edit):
// only the words that change are written.
#![tactic(auto)]

ghost use Rattle.std.specs.Prelude.{◌≡◌, ◌+◌, ◌≤◌, length};
ghost use Rattle.words.specs.Place.{NodeAt};
ghost use Rattle.push_into.specs.Push.{Takes, TakerAt, PredicateWritten, Pushes, PushesInPlace};

use cells::Cell;

// Whether the node from lo to hi can take a predicate: a Filter, a NestedLoopJoin or a Scan.
pub fn takes(s: &[u32], lo: usize, hi: usize) -> bool
    requires { NodeAt s.now lo hi }
    ensures { Takes s.now lo hi result }
{
    matches!(
        cells::tag_at(s, hi),
        tags::FILTER | tags::NESTED_LOOP_JOIN | tags::SCAN,
    )
}

// A predicate stands in d from mid up to at. Behind it come the own predicate of the node from lo to hi of s, with an And of that origin over both, and the
// node's cell, which is over all words of d from `from` on: the words of the node's sources stand before the predicate, or the caller seals the node. The flag
// of a node that had no predicate now says that there is one.
pub fn with_predicate(
    s: &[u32],
    lo: usize,
    hi: usize,
    d: &mut [u32],
    from: usize,
    mid: usize,
    at: usize,
    origin: u32,
) -> usize
    requires taker_at { TakerAt s.now lo hi }
    requires predicate_written { PredicateWritten d.old from mid at }
    ensures { Pushes origin s.now lo hi d.old from mid at result d.new }
{
    let k = cells::cell_at(s, hi);
    let own = nodes::own_start(s, lo, hi);
    let end = hi - cells::CELL_WORDS;
    if own == end {
        let with_flag = Cell {
            flag: k.flag + 1,
            ..k
        };
        return cells::put(d, from, at, with_flag);
    }
    let m = cells::copy(s, own, end, d, at);
    let n = cells::put(d, mid, m, Cell::new(tags::AND, origin));
    cells::put(d, from, n, k)
}

// The predicate in the first n words of y goes into the node of x from lo up to `end`, which takes one; an And over it and the node's own predicate has that
// origin. What stands behind the node, up to t - tail, is gone.
pub fn push_into(
    x: &mut [u32],
    y: &mut [u32],
    n: usize,
    t: usize,
    lo: usize,
    end: usize,
    tail: usize,
    origin: u32,
) -> usize
    requires taker_at { TakerAt x.old lo end }
    requires predicate_written { PredicateWritten y.old 0 0 n }
    requires tail_bound { (end + tail ≤ t) × (t ≤ length x.old) }
    requires y_len { length y.old ≡ length x.old }
    ensures { PushesInPlace origin x.old y.old n t lo end tail result x.new }
{
    let own = nodes::own_start(x, lo, end);
    let m = with_predicate(x, lo, end, y, 0, 0, n, origin);
    edit::replace_own(x, y, m, t, lo, own, tail)
}
