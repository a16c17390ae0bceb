// What a cell is and which children it asks for, by its tag and its numbers. A constant array over all tags would be stored anew at each call, which takes longer
// than all else that is done for a cell; a `match` is not.
#![tactic(auto)]

ghost use Rattle.std.specs.Prelude.{◌≡◌};
ghost use Rattle.arity.specs.Arity.{Sorted, asking, parts_only, parts_over, Asked};

// The sorts of cells. A constant is an expression too, and serves where one is asked for.
#[derive(Clone, Copy, PartialEq, Eq)]
#[repr(u8)]
pub enum Sort {
    Constant,
    Expression,
    Label,
    Item,
    Key,
    Target,
    Agg,
    Row,
    Node,
}

// The children of a cell, in the order in which they stand before it: so many nodes, so many parts of one sort, so many Aggs.
#[derive(Clone, Copy)]
pub struct Children {
    pub nodes: usize,
    pub part: Sort,
    pub parts: usize,
    pub aggs: usize,
}

// The sort of a cell with this tag, or none where no cell has it. It is asked for each cell, and read in place.
#[inline(always)]
pub fn sort_of(tag: u32) -> Option<Sort>
    ensures { Sorted tag result }
{
    match tag {
        1..tags::COLUMN => Some(Sort::Constant),
        tags::COLUMN => Some(Sort::Expression),
        tags::SQUARE_ROOT => Some(Sort::Expression),
        tags::BINARY..tags::EXPONENTIATE => Some(Sort::Expression),
        tags::UNARY..tags::FACTORIAL => Some(Sort::Expression),
        tags::LABEL => Some(Sort::Label),
        tags::ITEM => Some(Sort::Item),
        tags::KEY => Some(Sort::Key),
        tags::TARGET => Some(Sort::Target),
        tags::AGG => Some(Sort::Agg),
        tags::ROW => Some(Sort::Row),
        tags::NODES..tags::NODES_END => Some(Sort::Node),
        _ => None,
    }
}

const CHILDLESS: Children = Children {
    nodes: 0,
    part: Sort::Expression,
    parts: 0,
    aggs: 0,
};

fn asking(nodes: usize, part: Sort, parts: usize, aggs: usize) -> Children
    ensures { result ≡ asking nodes part parts aggs }
{
    Children {
        nodes,
        part,
        parts,
        aggs,
    }
}

// Parts alone.
fn parts_only(part: Sort, parts: usize) -> Children
    ensures { result ≡ parts_only part parts }
{
    asking(0, part, parts, 0)
}

// Parts over one node.
fn parts_over(part: Sort, parts: usize) -> Children
    ensures { result ≡ parts_over part parts }
{
    asking(1, part, parts, 0)
}

// The children of the cell with these fields.
pub fn children_of(tag: u32, flag: usize, a: usize, b: usize, c: usize) -> Children
    ensures { Asked tag flag a b c result }
{
    match tag {
        tags::BINARY..tags::EXPONENTIATE => parts_only(Sort::Expression, 2),
        tags::UNARY..tags::FACTORIAL => parts_only(Sort::Expression, 1),
        tags::SQUARE_ROOT => parts_only(Sort::Expression, 1),
        tags::ITEM => parts_only(Sort::Expression, 1),
        tags::KEY => parts_only(Sort::Expression, 1),
        tags::AGG => parts_only(Sort::Expression, 1),
        tags::ROW => parts_only(Sort::Expression, a),
        tags::AGGREGATE => asking(1, Sort::Expression, a, b),
        tags::FILTER => parts_over(Sort::Expression, 1),
        tags::HASH_JOIN => asking(2, Sort::Expression, 0, 0),
        tags::INDEX_LOOKUP => parts_only(Sort::Constant, c / 65536),
        tags::KEY_LOOKUP => parts_only(Sort::Constant, c),
        tags::LIMIT => parts_over(Sort::Expression, 0),
        tags::NESTED_LOOP_JOIN => asking(2, Sort::Expression, flag % 2, 0),
        tags::NOTHING => parts_only(Sort::Label, a),
        tags::OFFSET => parts_over(Sort::Expression, 0),
        tags::ORDER => parts_over(Sort::Key, a),
        tags::PROJECTION => parts_over(Sort::Item, a),
        tags::REMAP => parts_over(Sort::Target, a),
        tags::SCAN => parts_only(Sort::Expression, flag % 2),
        tags::VALUES => parts_only(Sort::Row, a),
        _ => CHILDLESS,
    }
}
