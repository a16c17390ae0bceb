// Chains: nodes with one source that are no Filters, each over the next one; passes 2 and 3 leave such nodes as they are. A chain can be as long as the plan, so
// a pass goes down through it in a loop, works on the node below it, and seals the chain's cells over what that node has become in a second loop. A pass that works on
// each node's own parts goes through those nodes alone that have none: they are one cell each, so the way back is known too.
#![tactic(auto)]

ghost use Rattle.std.specs.Prelude.{◌≡◌, ◌<◌, ◌+◌, ◌≤◌, length};
ghost use Rattle.words.specs.Place.{NodeAt};
ghost use Rattle.chain.specs.Chain.{IsOther, GoesDown, GoesBelow, ChainAt, Follows};
ghost use Rattle.chain.specs.Resized.{new_size, Reseals};

// Whether the node from lo to hi has one source and is no Filter.
fn is_other(s: &[u32], lo: usize, hi: usize) -> bool
    requires { NodeAt s.now lo hi }
    ensures { IsOther s.now lo hi result }
{
    cells::tag_at(s, hi) != tags::FILTER && nodes::source_count(s, lo, hi) == 1
}

// Where the node below a chain ends, and what is left of a number that is one lower for each node of the chain.
#[derive(Clone, Copy)]
pub struct Below {
    pub end: usize,
    pub left: usize,
}

// The node below the first n nodes of the chain that ends before hi, or below all of it if there are fewer. They all start at lo.
pub fn descend(s: &[u32], n: usize, lo: usize, hi: usize) -> Below
    requires { NodeAt s.now lo hi }
    ensures { GoesDown s.now n lo hi result.left result.end }
{
    let mut left = n;
    let mut end = hi;
    while 0 < left && is_other(s, lo, end) {
        end = nodes::own_start(s, lo, end);
        left -= 1;
    }
    Below { end, left }
}

// Where the node ends that stands below all bare nodes of the chain that ends before hi. They all start at lo.
pub fn descend_bare(s: &[u32], lo: usize, hi: usize) -> usize
    requires { NodeAt s.now lo hi }
    ensures { GoesBelow s.now lo hi result }
{
    let mut end = hi;
    while nodes::source_count(s, lo, end) == 1 && nodes::own_trees(s, lo, end) == 0 {
        end -= cells::CELL_WORDS;
    }
    end
}

// The size in a cell of a chain: the cells of nodes, whose tags are from 50 up, get the new one, those of their parts keep theirs.
fn size(tag: u32, new: u32, old: u32) -> u32
    ensures { result ≡ new_size tag new old }
{
    if tags::NODES <= tag { new } else { old }
}

// The plan stands in the first t words of x, and all but the last `tail` of the words behind `from` are those of a chain: its cells say how long its nodes
// are, which start at lo.
pub fn reseal(x: &mut [u32], t: usize, lo: usize, from: usize, tail: usize) -> usize
    requires { (lo ≤ from) × ((from + tail ≤ t) × ((t ≤ length x.old) × (t < 4294967296))) }
    ensures { Reseals x.old t lo from tail result x.new }
{
    let to = t - tail;
    let mut at = from;
    while cells::CELL_WORDS <= to - at {
        x[at + cells::SIZE] = size(
            x[at + cells::TAG],
            (at + cells::CELL_WORDS - lo) as u32,
            x[at + cells::SIZE],
        );
        at += cells::CELL_WORDS;
    }
    t
}

// The words of a chain, read in x from `end` up to hi, behind the node that was written to y from lo up to at: the chain over that node. The last of
// them is the length of the chain with the node that it stood over. Where that is the length now too, the two nodes are equally long, and the sizes in the
// chain's cells are right already.
pub fn follow(x: &[u32], end: usize, hi: usize, y: &mut [u32], lo: usize, at: usize) -> usize
    requires chain_at { ChainAt x.now end hi }
    requires node_at { at ≤ length y.old → NodeAt y.old lo at }
    ensures { Follows x.now end hi y.old lo at result y.new }
{
    if hi <= end {
        return at;
    }
    let n = cells::copy(x, end, hi, y, at);
    if y.len() < n {
        return n;
    }
    if 4294967295 < n {
        return cells::FULL;
    }
    if x[hi - 1] == (n - lo) as u32 {
        return n;
    }
    reseal(y, n, lo, at, 0)
}
