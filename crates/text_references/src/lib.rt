// The text references of a sheet, in order: the names of tables and columns, then those in cells.
#![tactic(auto)]

ghost use Rattle.std.specs.Prelude.{◌≡◌, [], ◌∷◌, ◌+◌, ◌*◌, ◌≤◌, length};
ghost use Rattle.sheet.specs.Cell.{tag_of};
ghost use Rattle.compact.specs.Slots.{record_slots, cell_slots, in_each, slots};
ghost use Rattle.layout.specs.Layout.{Whole};
ghost use Rattle.text_references.specs.Asks.{asks_a, asks_b, if_refers, slot_of, Fields, Listed};

// The most references that a sheet has: a name for each of 16 tables and 256 columns, and two for each of 2,048 cells.
pub const MOST: usize = 4368;

// Field a of a cell is a reference: a String, and the first text of a Label or an Item.
pub fn a_refers(tag: u32, flag: usize) -> bool
    ensures { result ≡ asks_a (tag_of tag) flag }
{
    match tag {
        tags::STRING => true,
        tags::LABEL => 1 <= flag,
        tags::ITEM => 1 <= flag,
        _ => false,
    }
}

// Field b of a cell is a reference: the second text of a Label or an Item, and the alias of a lookup or a Scan.
pub fn b_refers(tag: u32, flag: usize) -> bool
    ensures { result ≡ asks_b (tag_of tag) flag }
{
    match tag {
        tags::LABEL => 2 <= flag,
        tags::ITEM => 2 <= flag,
        tags::INDEX_LOOKUP => 1 <= flag,
        tags::KEY_LOOKUP => 1 <= flag,
        tags::SCAN => 2 <= flag,
        _ => false,
    }
}

// A field's word: a number, or a reference.
#[derive(Clone, Copy)]
pub enum Slot {
    Number(usize),
    Reference(usize),
}

// Fields a and b of a cell. They are asked for each cell twice, and read in place.
#[inline(always)]
pub fn fields(k: layout::Cell) -> (Slot, Slot)
    ensures { Fields k result.0 result.1 }
{
    (
        field(a_refers(k.tag, k.flag), k.a),
        field(b_refers(k.tag, k.flag), k.b),
    )
}

// The word v of a field, a reference or not.
fn field(refers: bool, v: usize) -> Slot
    ensures { slot_of result ∷ [] ≡ if_refers refers v }
{
    if refers {
        Slot::Reference(v)
    } else {
        Slot::Number(v)
    }
}

// The names of n records, the first at byte `at`.
fn list_records(s: &[u8], at: usize, n: usize, refs: &mut [usize]) -> usize
    requires { (at + n * 16 ≤ length s.now) × (n ≤ length refs.old) }
    ensures { Listed (in_each (record_slots s.now) at n) refs.old 0 n refs.new result }
{
    for i in 0..n {
        refs[i] = layout::word_at(s, at + i * 16);
    }
    n
}

// One more reference, if it is one.
fn push(refs: &mut [usize], j: usize, slot: Slot) -> usize
    requires { j + 1 ≤ length refs.old }
    ensures { Listed (slot_of slot ∷ []) refs.old j 1 refs.new result }
{
    match slot {
        Slot::Number(_) => j,
        Slot::Reference(r) => {
            refs[j] = r;
            j + 1
        }
    }
}

// Those of the cell that starts at byte p, behind the first j.
fn list_cell(s: &[u8], p: usize, refs: &mut [usize], j: usize) -> usize
    requires { (p + 16 ≤ length s.now) × (j + 2 ≤ length refs.old) }
    ensures { Listed (cell_slots s.now p) refs.old j 2 refs.new result }
{
    let (a, b) = fields(layout::cell_from(s, p));
    let i = push(refs, j, a);
    push(refs, i, b)
}

// Those of n cells, the first at byte `at`, behind the first `from`.
fn list_cells(s: &[u8], at: usize, n: usize, refs: &mut [usize], from: usize) -> usize
    requires { (at + n * 16 ≤ length s.now) × (from + n * 2 ≤ length refs.old) }
    ensures { Listed (in_each (cell_slots s.now) at n) refs.old from (n * 2) refs.new result }
{
    let mut j = from;
    for i in 0..n {
        j = list_cell(s, at + i * 16, refs, j);
    }
    j
}

// All of a sheet.
pub fn references(s: &[u8], refs: &mut [usize]) -> usize
    requires { Whole s.now × (4368 ≤ length refs.old) }
    ensures { Listed (slots s.now) refs.old 0 4368 refs.new result }
{
    let p = layout::parts_of(s);
    let records = list_records(s, p.tables.at, p.tables.count + p.columns.count, refs);
    list_cells(s, p.cells.at, p.cells.count, refs, records)
}
