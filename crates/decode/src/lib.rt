// From a sheet to the working form: the cells of an accepted sheet, each over the trees that it asks for, in words.
#![tactic(auto)]

ghost use Rattle.std.specs.Prelude.{◌≡◌, ◌-◌, ◌≤◌, ◌<◌, get_or};
ghost use Rattle.layout.specs.Layout.{as_cell};
ghost use Rattle.nodes.specs.Trees.{trees_start};
ghost use Rattle.decode.specs.Decode.{Acceptable, Decodes, part_trees, node_trees, trees, Last, Put};

// How many trees the cell k stands over: its operands, or its sources and parts. A constant array over all tags would be stored anew at each call, which takes
// longer than all else that is done for a cell.
fn trees_of(k: layout::Cell) -> usize
    requires { (k.a < 4294967296) × (k.b < 4294967296) }
    ensures { result ≡ trees (as_cell k) }
{
    match k.tag {
        tags::BINARY..tags::UNARY => 2,
        tags::UNARY..tags::PARTS => 1,
        tags::PARTS..tags::PARTS_END => trees_of_part(k.tag, k.a),
        tags::NODES..tags::NODES_END => trees_of_node(k),
        _ => 0,
    }
}

fn trees_of_part(tag: u32, a: usize) -> usize
    requires { (40 ≤ tag) × (tag < 46) }
    ensures { result ≡ get_or (part_trees a) (tag - 40) 0 }
{
    match tag {
        tags::LABEL => 0,
        tags::ITEM => 1,
        tags::KEY => 1,
        tags::TARGET => 0,
        tags::AGG => 1,
        _ => a,
    }
}

fn trees_of_node(k: layout::Cell) -> usize
    requires { ((50 ≤ k.tag) × (k.tag < 64)) × ((k.a < 4294967296) × (k.b < 4294967296)) }
    ensures { result ≡ get_or (node_trees (as_cell k)) (k.tag - 50) 0 }
{
    match k.tag {
        tags::AGGREGATE => 1 + k.a + k.b,
        tags::FILTER => 2,
        tags::HASH_JOIN => 2,
        tags::INDEX_LOOKUP => k.c / 65536,
        tags::KEY_LOOKUP => k.c,
        tags::LIMIT => 1,
        tags::NESTED_LOOP_JOIN => 2 + k.flag % 2,
        tags::NOTHING => k.a,
        tags::OFFSET => 1,
        tags::ORDER => 1 + k.a,
        tags::PROJECTION => 1 + k.a,
        tags::REMAP => 1 + k.a,
        tags::SCAN => k.flag % 2,
        _ => k.a,
    }
}

// Where the trees start that the cell k asks for, the last ones before `at`. Most cells are leaves or operators, for which a loop takes longer than the
// steps that they need.
fn start_of(x: &[u32], at: usize, k: layout::Cell) -> usize
    requires { Last x.now at k }
    ensures { result ≡ trees_start x.now (trees (as_cell k)) at }
{
    match k.tag {
        0..tags::BINARY => at,
        tags::BINARY..tags::UNARY => {
            let mid = cells::start(x, at);
            cells::start(x, mid)
        }
        tags::UNARY..tags::PARTS => cells::start(x, at),
        _ => nodes::trees_start(x, trees_of(k), at),
    }
}

// The cell k over the trees that it asks for, which are the last ones before `at`.
fn put_over(x: &mut [u32], at: usize, k: layout::Cell) -> usize
    requires { Last x.old at k }
    ensures { Put x.old at k result x.new }
{
    let lo = start_of(x, at, k);
    let cell = cells::Cell {
        origin: k.origin as u32,
        tag: k.tag,
        flag: k.flag as u32,
        a: k.a as u32,
        b: k.b as u32,
        c: k.c as u32,
    };
    cells::put(x, lo, at, cell)
}

// The plan that the sheet s stands for, in words from the start of x. Each tree is stepped over once, by the cell over it.
pub fn decode(s: &[u8], x: &mut [u32]) -> usize
    requires { Acceptable s.now }
    ensures { Decodes s.now x.old result x.new }
{
    let parts = layout::parts_of(s);
    let count = parts.cells.count;
    let first = parts.cells.at;
    let mut at: usize = 0;
    for i in 0..count {
        let k = layout::cell_from(s, first + i * 16);
        at = put_over(x, at, k);
        if x.len() < at {
            return cells::FULL;
        }
    }
    at
}
