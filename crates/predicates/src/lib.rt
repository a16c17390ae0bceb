// Whether a plan has a predicate at all: a Filter, a Scan with a filter, or a NestedLoopJoin with a predicate. FilterPushdown, IndexLookup and HashJoin look for
// nothing else, and leave a plan without one as it is: one look at each cell's tag and flag is less than three walks over the plan and its copies.
#![tactic(auto)]

ghost use Rattle.std.specs.Prelude.{◌≡◌, ◌&&◌, ◌||◌, ◌%◌, eqb};
ghost use Rattle.sheet.specs.Tags;
ghost use Rattle.words.specs.Place.{NodeAt};
ghost use Rattle.predicates.specs.Predicates.{says_predicate, HasPredicate};

// Whether a cell with this tag and flag says that there is a predicate: a Filter always, a NestedLoopJoin and a Scan by bit 0 of their flag. No part of a node,
// which most cells are, has a tag so high.
fn says_predicate(tag: u32, flag: u32) -> bool
    ensures { result ≡ says_predicate tag flag }
{
    match tag {
        tags::FILTER => true,
        tags::NESTED_LOOP_JOIN | tags::SCAN => flag % 2 == 1,
        _ => false,
    }
}

// Whether the plan in the first n words of x has a predicate.
pub fn has_predicate(x: &[u32], n: usize) -> bool
    requires { NodeAt x.now 0 n }
    ensures { HasPredicate x.now n result }
{
    let (all, _) = x[..n].as_chunks::<{ cells::CELL_WORDS }>();
    all.iter()
        .any(|cell| says_predicate(cell[cells::TAG], cell[cells::FLAG]))
}
