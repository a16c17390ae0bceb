// optimizer.rs, maybe_push_join: one split of a join's predicate (crate split_join), as a step of a pass. The plan is edited in place (crate edit): it stands in
// the first t words of x, the node from lo up to t - tail.
#![tactic(auto)]

ghost use Rattle.std.specs.Prelude.{◌≡◌, length};
ghost use Rattle.sql.specs.Room;
ghost use Rattle.words.specs.Place.{NodeAt};
ghost use Rattle.kept.specs.Pass.{PassAt, Passes};
ghost use Rattle.split_join.specs.Split.{HasPredicate};
ghost use Rattle.push_join.specs.Below.{PassesBelow};

use words::Expression;

// Whether the node from lo to hi is a NestedLoopJoin with a predicate.
fn has_predicate(s: &[u32], lo: usize, hi: usize) -> bool
    requires { NodeAt s.now lo hi }
    ensures { HasPredicate s.now lo hi result }
{
    let c = cells::cell_at(s, hi);
    c.tag == tags::NESTED_LOOP_JOIN && c.flag % 2 == 1
}

// One split of the predicate of the node there, if it is a join with a predicate. The results of into_nnf and into_cnf go to z and w, and y is scratch; each has
// room for as many cells as x. A result past the end of x is refusal 14. What column numbers these arrays hold is said in specs/Below.antt.
pub fn maybe_push_join(
    x: &mut [u32],
    y: &mut [u32],
    z: &mut [u32],
    w: &mut [u32],
    t: usize,
    lo: usize,
    tail: usize,
    tables: &[u8],
) -> usize
    requires pass_at { PassAt tables.now x.old t lo tail }
    requires y_len { length y.old ≡ length x.old }
    requires z_len { length z.old ≡ length x.old }
    requires w_len { length w.old ≡ length x.old }
    ensures passes { Passes Room.maybe_push_join tables.now x.old t lo tail result x.new }
    ensures passes_below { PassesBelow x.old lo tail result x.new }
{
    let hi = t - tail;
    if has_predicate(x, lo, hi) {
        let m = nodes::own_start(x, lo, hi);
        let predicate = Expression {
            words: &x[m..hi - cells::CELL_WORDS],
        };
        let k = nnf::into_nnf(predicate, z, 0);
        if z.len() < k {
            return k;
        }
        let nnf = Expression { words: &z[..k] };
        let end = cnf::distribute(nnf, w, 0);
        if w.len() < end {
            return end;
        }
        return split_join::split(x, y, w, end, z, t, lo, m, tail, tables);
    }
    t
}
