// optimizer.rs, is_empty of short_circuit: whether a node in its working form can't produce anything.
#![tactic(auto)]

ghost use Rattle.std.specs.Prelude.{◌≡◌};
ghost use Rattle.cells.specs.Cells.{tag_at};
ghost use Rattle.words.specs.Place.{NodeAt};
ghost use Rattle.nodes.specs.Own.{SourceCount};
ghost use Rattle.labels.specs.Labels.{ExpressionEnds};
ghost use Rattle.remove_useless.specs.RemoveUseless.{OptionalAt};
ghost use Rattle.is_empty.specs.IsEmpty.{NeverTrue, OptionalNever, SourceNothing, IsEmpty};

// Whether the expression that ends before hi is the constant false or Null.
fn is_never(s: &[u32], hi: usize) -> bool
    requires { ExpressionEnds s.now hi }
    ensures { NeverTrue s.now hi result }
{
    let c = cells::cell_at(s, hi);
    match c.tag {
        tags::BOOLEAN => c.a == 0,
        tags::NULL => true,
        _ => false,
    }
}

// The same of a predicate from lo to hi, which may be absent.
fn optional_is_never(s: &[u32], lo: usize, hi: usize) -> bool
    requires { OptionalAt s.now lo hi }
    ensures { OptionalNever s.now lo hi result }
{
    lo != hi && is_never(s, hi)
}

// Of a node without sources. A lookup without constants and a Values without Rows are their cell alone.
fn leaf_is_empty(s: &[u32], lo: usize, hi: usize) -> bool
    requires node_at { NodeAt s.now lo hi }
    requires source_count { SourceCount s.now lo hi 0 }
    ensures { IsEmpty s.now lo hi result }
{
    match cells::tag_at(s, hi) {
        tags::SCAN => optional_is_never(s, lo, hi - cells::CELL_WORDS),
        tags::NOTHING => false,
        _ => hi - lo == cells::CELL_WORDS,
    }
}

// Whether the source of a node with one source is a Nothing.
fn source_is_nothing(s: &[u32], lo: usize, hi: usize) -> bool
    requires node_at { NodeAt s.now lo hi }
    requires source_count { SourceCount s.now lo hi 1 }
    ensures { SourceNothing s.now lo hi result }
{
    cells::tag_at(s, nodes::own_start(s, lo, hi)) == tags::NOTHING
}

fn filter_is_empty(s: &[u32], lo: usize, hi: usize) -> bool
    requires node_at { NodeAt s.now lo hi }
    requires source_count { SourceCount s.now lo hi 1 }
    requires hi_value { tag_at s.now hi ≡ 51 }
    ensures { IsEmpty s.now lo hi result }
{
    is_never(s, hi - cells::CELL_WORDS) || source_is_nothing(s, lo, hi)
}

// The amount is said in two halves.
pub fn limit_is_empty(s: &[u32], lo: usize, hi: usize) -> bool
    requires node_at { NodeAt s.now lo hi }
    requires hi_value { tag_at s.now hi ≡ 55 }
    ensures { IsEmpty s.now lo hi result }
{
    let c = cells::cell_at(s, hi);
    c.a == 0 && c.b == 0
}

// Of a node with one source. An Aggregate and a Remap over a Nothing stay.
fn over_is_empty(s: &[u32], lo: usize, hi: usize) -> bool
    requires node_at { NodeAt s.now lo hi }
    requires source_count { SourceCount s.now lo hi 1 }
    ensures { IsEmpty s.now lo hi result }
{
    match cells::tag_at(s, hi) {
        tags::FILTER => filter_is_empty(s, lo, hi),
        tags::LIMIT => limit_is_empty(s, lo, hi),
        tags::AGGREGATE | tags::REMAP => false,
        _ => source_is_nothing(s, lo, hi),
    }
}

// Of a node with two sources, outer or not. A HashJoin has no predicate.
fn join_is_empty(s: &[u32], lo: usize, hi: usize) -> bool
    requires node_at { NodeAt s.now lo hi }
    requires source_count { SourceCount s.now lo hi 2 }
    ensures { IsEmpty s.now lo hi result }
{
    let m = nodes::own_start(s, lo, hi);
    if optional_is_never(s, m, hi - cells::CELL_WORDS) {
        return true;
    }
    let mid = cells::start(s, m);
    cells::tag_at(s, mid) == tags::NOTHING || cells::tag_at(s, m) == tags::NOTHING
}

// The second match of short_circuit, by how many sources the node from lo to hi has.
pub fn is_empty(s: &[u32], lo: usize, hi: usize) -> bool
    requires { NodeAt s.now lo hi }
    ensures { IsEmpty s.now lo hi result }
{
    match nodes::source_count(s, lo, hi) {
        0 => leaf_is_empty(s, lo, hi),
        1 => over_is_empty(s, lo, hi),
        _ => join_is_empty(s, lo, hi),
    }
}
