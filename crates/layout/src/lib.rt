// A sheet's bytes read and checked where they lie: refusals 2 to 7 of document 01, each the answer that the definitions of crate `sheet` give.
// Bytes, halves and words are read as `usize`: they are positions, counts and amounts, and a sum of two of them doesn't wrap.
#![tactic(auto)]

ghost use Rattle.std.specs.Prelude.{◌≡◌, Bool, true, false, ◌&&◌, ℕ, ◌+◌, ◌-◌, ◌*◌, ◌≤◌, ◌<◌, length};
ghost use Rattle.sheet.specs.Bytes.{byte, half, word};
ghost use Rattle.sheet.specs.Parts.{length_ok, edition_ok, records_ok, parts_ok, table_count, column_count, cell_count, columns_before, table_ok, bad_record};
ghost use Rattle.sheet.specs.Parts as Sheet;
ghost use Rattle.sheet.specs.Cell.{cell, cell_from, origins, tag_of, field_ok, fields_ok, float_ok, cell_ok, bad_cell, bad_number};
ghost use Rattle.layout.specs.Layout.{Number, Whole, Laid, IsTable, IsCell, IsColumn, table_from, table_at, column_from, column_at, column_fields_ok, bad_column, as_cell, found};
ghost use Rattle.layout.specs.Row.{field_of, tag_from};

// ---- numbers, little-endian

// The byte i.
pub fn byte_at(s: &[u8], i: usize) -> usize
    requires { i < length s.now }
    ensures { Number 256 (byte s.now i) result }
{
    usize::from(s[i])
}

// The byte i as a tag. Tags are `u32`, as in the working form of plans.
fn tag_at(s: &[u8], i: usize) -> u32
    requires { i < length s.now }
    ensures { Number 256 (byte s.now i) result }
{
    u32::from(s[i])
}

// The number of 2 bytes that starts at byte i.
pub fn half_at(s: &[u8], i: usize) -> usize
    requires { i + 2 ≤ length s.now }
    ensures { Number 65536 (half s.now i) result }
{
    usize::from(u16::from_le_bytes([s[i], s[i + 1]]))
}

// The number of 4 bytes that starts at byte i.
pub fn word_at(s: &[u8], i: usize) -> usize
    requires { i + 4 ≤ length s.now }
    ensures { Number 4294967296 (word s.now i) result }
{
    u32::from_le_bytes([s[i], s[i + 1], s[i + 2], s[i + 3]]) as usize
}

// ---- the trailer and the parts

// Refusal 2 is not met.
#[tactic(auto, unfolding(sheet::specs::Parts::length_ok))]
pub fn length_ok(s: &[u8]) -> bool
    ensures { result ≡ length_ok s.now }
{
    20 <= s.len() && s.len() <= 45332 && word_at(s, s.len() - 4) == s.len()
}

// The number of 4 bytes that starts k bytes before the end.
fn word_from_end(s: &[u8], k: usize) -> usize
    requires { (20 ≤ length s.now) × ((4 ≤ k) × (k ≤ 20)) }
    ensures { Number 4294967296 (word s.now (length s.now - k)) result }
{
    word_at(s, s.len() - k)
}

// Refusal 3 is not met.
#[tactic(auto, using(crate::proofs::Laws::length_known), unfolding(sheet::specs::Parts::edition_ok))]
pub fn edition_ok(s: &[u8]) -> bool
    requires { length_ok s.now ≡ true }
    ensures { result ≡ edition_ok s.now }
{
    matches!(word_from_end(s, 8), 1 | 2)
}

// How many origins there are for a cell, counted from 0: an edition 1 sheet has 0 alone.
#[tactic(auto, using(crate::proofs::Laws::length_known))]
fn origins_of(s: &[u8]) -> usize
    requires { length_ok s.now ≡ true }
    ensures { result ≡ origins s.now }
{
    if word_from_end(s, 8) == 1 { 1 } else { 65536 }
}

// From a byte up to another there are whole records, at least `few` and at most `many`.
fn records_ok(from: usize, upto: usize, few: usize, many: usize) -> bool
    requires { (few ≤ 2048) × (many ≤ 2048) }
    ensures { result ≡ records_ok from upto few many }
{
    from <= upto && (upto - from) % 16 == 0 && few * 16 <= upto - from && upto - from <= many * 16
}

// Refusal 4 is not met.
#[tactic(auto, using(crate::proofs::Laws::length_known), unfolding(sheet::specs::Parts::parts_ok))]
pub fn parts_ok(s: &[u8]) -> bool
    requires { length_ok s.now ≡ true }
    ensures { result ≡ parts_ok s.now }
{
    let tables_at = word_from_end(s, 20);
    let columns_at = word_from_end(s, 16);
    let cells_at = word_from_end(s, 12);
    tables_at <= 8192
        && records_ok(tables_at, columns_at, 0, 16)
        && records_ok(columns_at, cells_at, 0, 256)
        && records_ok(cells_at, s.len() - 20, 1, 2048)
}

// Where a part of a sheet starts, and how many records it has.
#[derive(Clone, Copy)]
pub struct Part {
    pub at: usize,
    pub count: usize,
}

// The parts behind the text. The text is what stands before the tables, so its length is `tables.at`.
#[derive(Clone, Copy)]
pub struct Parts {
    pub tables: Part,
    pub columns: Part,
    pub cells: Part,
}

// The numbers of the parts, from the trailer.
pub fn parts_of(s: &[u8]) -> Parts
    requires { Whole s.now }
    ensures { Laid s.now result }
{
    let tables_at = word_from_end(s, 20);
    let columns_at = word_from_end(s, 16);
    let cells_at = word_from_end(s, 12);
    Parts {
        tables: Part {
            at: tables_at,
            count: (columns_at - tables_at) / 16,
        },
        columns: Part {
            at: columns_at,
            count: (cells_at - columns_at) / 16,
        },
        cells: Part {
            at: cells_at,
            count: (s.len() - 20 - cells_at) / 16,
        },
    }
}

// ---- records

// A text reference lies inside a text of so many bytes.
pub fn inside(text: usize, r: usize) -> bool
    ensures { result ≡ Sheet.inside text r }
{
    r % 65536 + r / 65536 <= text
}

// A table record: its name, its range of columns and its key, which counts in that range.
#[derive(Clone, Copy)]
pub struct Table {
    pub name: usize,
    pub first: usize,
    pub count: usize,
    pub key: usize,
}

// The table record that starts at byte i.
fn table_from(s: &[u8], i: usize) -> Table
    requires { i + 16 ≤ length s.now }
    ensures { IsTable (table_from s.now i) result }
{
    Table {
        name: word_at(s, i),
        first: word_at(s, i + 4),
        count: word_at(s, i + 8),
        key: word_at(s, i + 12),
    }
}

// The record of table i.
#[tactic(auto, using(crate::proofs::Laws::tables_are, crate::proofs::Laws::table_there))]
pub fn table_at(s: &[u8], i: usize) -> Table
    requires { Whole s.now × (i < table_count s.now) }
    ensures { IsTable (table_at s.now i) result }
{
    let p = parts_of(s);
    table_from(s, p.tables.at + i * 16)
}

// The number of columns that the first i tables have.
#[tactic(auto, using(crate::proofs::Laws::columns_before_is))]
fn columns_before(s: &[u8], p: Parts, i: usize) -> usize
    requires { Laid s.now p × (i ≤ p.tables.count) }
    ensures { result ≡ columns_before s.now i }
{
    if i == 0 {
        return 0;
    }
    let t = table_from(s, p.tables.at + (i - 1) * 16);
    t.first + t.count
}

// The record of table i is as it should be.
#[tactic(auto, using(crate::proofs::Laws::text_is, crate::proofs::Laws::columns_are, crate::proofs::Laws::table_there), unfolding(sheet::specs::Parts::table_ok))]
fn table_ok(s: &[u8], p: Parts, i: usize) -> bool
    requires { Laid s.now p × (i < p.tables.count) }
    ensures { result ≡ table_ok s.now i }
{
    let t = table_from(s, p.tables.at + i * 16);
    inside(p.tables.at, t.name)
        && t.first == columns_before(s, p, i)
        && 1 <= t.count
        && t.first + t.count <= p.columns.count
        && t.key < t.count
}

// A column record: its name, its kind and its index mark.
#[derive(Clone, Copy)]
pub struct Column {
    pub name: usize,
    pub kind: usize,
    pub index: usize,
}

// The column record that starts at byte i.
fn column_from(s: &[u8], i: usize) -> Column
    requires { i + 16 ≤ length s.now }
    ensures { IsColumn (column_from s.now i) result }
{
    Column {
        name: word_at(s, i),
        kind: byte_at(s, i + 4),
        index: byte_at(s, i + 5),
    }
}

// The record of column i.
#[tactic(auto, using(crate::proofs::Laws::columns_are, crate::proofs::Laws::column_there))]
pub fn column_at(s: &[u8], i: usize) -> Column
    requires { Whole s.now × (i < column_count s.now) }
    ensures { IsColumn (column_at s.now i) result }
{
    let p = parts_of(s);
    column_from(s, p.columns.at + i * 16)
}

// All that a column record should have but its range, which its number tells. It starts at byte i, and the text has so many bytes. Its kind, its index mark
// and two zeros are one word.
#[tactic(auto, using(crate::proofs::Laws::fields_tested))]
fn column_fields_ok(s: &[u8], i: usize, text: usize) -> bool
    requires { i + 16 ≤ length s.now }
    ensures { result ≡ column_fields_ok s.now i text }
{
    let marks = word_at(s, i + 4);
    inside(text, word_at(s, i))
        & (marks < 512)
        & (marks % 256 < 4)
        & (word_at(s, i + 8) == 0)
        & (word_at(s, i + 12) == 0)
}

// The lowest column record that breaks its layout, by its number among the records, tables counted first. There can be many columns, so how many the tables
// have is read once.
fn bad_column(s: &[u8], p: Parts) -> Option<usize>
    requires { Laid s.now p }
    ensures { found result ≡ bad_column s.now }
{
    let tables = p.tables.count;
    let covered = columns_before(s, p, tables);
    for i in tables..tables + p.columns.count {
        let column = i - tables;
        if covered <= column {
            return Some(i);
        }
        if !column_fields_ok(s, p.columns.at + column * 16, p.tables.at) {
            return Some(i);
        }
    }
    None
}

// Refusal 5: the lowest record that breaks its layout.
pub fn bad_record(s: &[u8]) -> Option<usize>
    requires { Whole s.now }
    ensures { found result ≡ bad_record s.now }
{
    let p = parts_of(s);
    for i in 0..p.tables.count {
        if !table_ok(s, p, i) {
            return Some(i);
        }
    }
    bad_column(s, p)
}

// ---- cells

// A cell: tag, flag, origin, and the numbers a, b, c.
#[derive(Clone, Copy)]
pub struct Cell {
    pub tag: u32,
    pub flag: usize,
    pub origin: usize,
    pub a: usize,
    pub b: usize,
    pub c: usize,
}

// The cell that starts at byte i.
pub fn cell_from(s: &[u8], i: usize) -> Cell
    requires { i + 16 ≤ length s.now }
    ensures { IsCell (cell_from s.now i) result }
{
    Cell {
        tag: tag_at(s, i),
        flag: byte_at(s, i + 1),
        origin: half_at(s, i + 2),
        a: word_at(s, i + 4),
        b: word_at(s, i + 8),
        c: word_at(s, i + 12),
    }
}

// Cell number i.
#[tactic(auto, using(crate::proofs::Laws::cells_are, crate::proofs::Laws::cells_start), unfolding(sheet::specs::Cell::cell))]
pub fn cell_at(s: &[u8], i: usize) -> Cell
    requires { Whole s.now × (i < cell_count s.now) }
    ensures { IsCell (cell s.now i) result }
{
    let p = parts_of(s);
    cell_from(s, p.cells.at + i * 16)
}

// What one of the numbers a, b, c of a cell may hold: `Small` is up to 255, `Text` a text reference. `From1` and `From2` are from flag 1 or 2 on: below that
// the field is unused, and 0. Variants that hold that flag were tried, and are slower.
#[derive(Clone, Copy)]
enum Field {
    Unused,
    Any,
    Bit,
    Table,
    SmallFrom1,
    Text,
    TextFrom1,
    TextFrom2,
}

// The number of flags of a carried tag, and what its fields may hold.
#[derive(Clone, Copy)]
struct Fields {
    flags: u8,
    a: Field,
    b: Field,
    c: Field,
}

// No fields, with flag 0 alone.
const PLAIN: Fields = Fields {
    flags: 1,
    a: Field::Unused,
    b: Field::Unused,
    c: Field::Unused,
};

// What a tag stands for. Tags are told apart by tests: a constant array over all tags would be stored anew for each cell.
#[derive(Clone, Copy)]
enum Row {
    Unknown,
    NotCarried,
    Carried(Fields),
}

// 1 Null, 2 Boolean, 3 Integer, 4 Float, 5 String, 6 Column.
fn row_to_9(tag: u32) -> Row
    requires { tag < 10 }
    ensures { tag_from result ≡ tag_of tag }
{
    match tag {
        tags::NULL => Row::Carried(PLAIN),
        tags::BOOLEAN => Row::Carried(Fields {
            a: Field::Bit,
            ..PLAIN
        }),
        tags::INTEGER | tags::FLOAT => Row::Carried(Fields {
            a: Field::Any,
            b: Field::Any,
            ..PLAIN
        }),
        tags::STRING => Row::Carried(Fields {
            a: Field::Text,
            ..PLAIN
        }),
        tags::COLUMN => Row::Carried(Fields {
            a: Field::Any,
            ..PLAIN
        }),
        _ => Row::Unknown,
    }
}

// Operators of two operands: 10 And to 18 Multiply, and those from 19 Exponentiate to 21 Like. Of one operand: 30 Not to 34 Negate, 35 Factorial and
// 36 SquareRoot.
fn row_to_39(tag: u32) -> Row
    requires { (10 ≤ tag) × (tag < 40) }
    ensures { tag_from result ≡ tag_of tag }
{
    if tag < tags::EXPONENTIATE {
        return Row::Carried(PLAIN);
    }
    if tag < tags::BINARY_END {
        return Row::NotCarried;
    }
    if tag < tags::UNARY {
        return Row::Unknown;
    }
    if tag < tags::FACTORIAL {
        return Row::Carried(PLAIN);
    }
    match tag {
        tags::FACTORIAL => Row::NotCarried,
        tags::SQUARE_ROOT => Row::Carried(PLAIN),
        _ => Row::Unknown,
    }
}

// 40 Label, 41 Item, 42 Key, 43 Target, 44 Agg, 45 Row.
fn row_to_49(tag: u32) -> Row
    requires { (40 ≤ tag) × (tag < 50) }
    ensures { tag_from result ≡ tag_of tag }
{
    match tag {
        tags::LABEL | tags::ITEM => Row::Carried(Fields {
            flags: 3,
            a: Field::TextFrom1,
            b: Field::TextFrom2,
            ..PLAIN
        }),
        tags::KEY => Row::Carried(Fields { flags: 2, ..PLAIN }),
        tags::TARGET => Row::Carried(Fields {
            flags: 2,
            a: Field::SmallFrom1,
            ..PLAIN
        }),
        tags::AGG => Row::Carried(Fields { flags: 5, ..PLAIN }),
        tags::ROW => Row::Carried(Fields {
            a: Field::Any,
            ..PLAIN
        }),
        _ => Row::Unknown,
    }
}

// 50 Aggregate, 51 Filter, 52 HashJoin, 53 IndexLookup, 54 KeyLookup, 55 Limit, 56 NestedLoopJoin.
fn row_to_56(tag: u32) -> Row
    requires { (50 ≤ tag) × (tag < 57) }
    ensures { tag_from result ≡ tag_of tag }
{
    match tag {
        tags::AGGREGATE => Row::Carried(Fields {
            a: Field::Any,
            b: Field::Any,
            ..PLAIN
        }),
        tags::FILTER => Row::Carried(PLAIN),
        tags::HASH_JOIN => Row::Carried(Fields {
            flags: 2,
            a: Field::Any,
            b: Field::Any,
            ..PLAIN
        }),
        tags::INDEX_LOOKUP | tags::KEY_LOOKUP => Row::Carried(Fields {
            flags: 2,
            a: Field::Table,
            b: Field::TextFrom1,
            c: Field::Any,
        }),
        tags::LIMIT => Row::Carried(Fields {
            a: Field::Any,
            b: Field::Any,
            ..PLAIN
        }),
        _ => Row::Carried(Fields { flags: 4, ..PLAIN }),
    }
}

// 57 Nothing, 58 Offset, 59 Order, 60 Projection, 61 Remap, 62 Scan, 63 Values.
fn row_to_63(tag: u32) -> Row
    requires { (57 ≤ tag) × (tag < 64) }
    ensures { tag_from result ≡ tag_of tag }
{
    match tag {
        tags::NOTHING => Row::Carried(Fields {
            a: Field::Any,
            ..PLAIN
        }),
        tags::OFFSET => Row::Carried(Fields {
            a: Field::Any,
            b: Field::Any,
            ..PLAIN
        }),
        tags::ORDER | tags::PROJECTION | tags::REMAP => Row::Carried(Fields {
            a: Field::Any,
            ..PLAIN
        }),
        tags::SCAN => Row::Carried(Fields {
            flags: 4,
            a: Field::Table,
            b: Field::TextFrom2,
            ..PLAIN
        }),
        _ => Row::Carried(Fields {
            a: Field::Any,
            ..PLAIN
        }),
    }
}

// The row of a tag. Those from 64 on are unknown. Read in place, a row's fields stay in registers: it is asked for each cell.
#[inline(always)]
fn row_of(tag: u32) -> Row
    ensures { tag_from result ≡ tag_of tag }
{
    if tag < tags::BINARY {
        return row_to_9(tag);
    }
    if tag < tags::PARTS {
        return row_to_39(tag);
    }
    if tag < tags::NODES {
        return row_to_49(tag);
    }
    if tag < tags::NOTHING {
        return row_to_56(tag);
    }
    if tag < tags::NODES_END {
        return row_to_63(tag);
    }
    Row::Unknown
}

// The field may hold the number v.
fn field_ok(text: usize, tables: usize, flag: usize, field: Field, v: usize) -> bool
    ensures { result ≡ field_ok text tables flag (field_of field) v }
{
    match field {
        Field::Unused => v == 0,
        Field::Any => true,
        Field::Bit => v < 2,
        Field::Table => v < tables,
        Field::SmallFrom1 => if flag < 1 { v == 0 } else { v < 256 },
        Field::Text => inside(text, v),
        Field::TextFrom1 => if flag < 1 { v == 0 } else { inside(text, v) },
        Field::TextFrom2 => if flag < 2 { v == 0 } else { inside(text, v) },
    }
}

// A cell has what its tag allows in the flag and the fields, and one of the sheet's origins. `text` is the length of the text, `tables` the number of tables.
fn fields_ok(origins: usize, text: usize, tables: usize, k: Cell) -> bool
    ensures { result ≡ fields_ok origins text tables (as_cell k) (tag_of k.tag) }
{
    let Row::Carried(row) = row_of(k.tag) else {
        return false;
    };
    k.flag < usize::from(row.flags)
        && k.origin < origins
        && field_ok(text, tables, k.flag, row.a, k.a)
        && field_ok(text, tables, k.flag, row.b, k.b)
        && field_ok(text, tables, k.flag, row.c, k.c)
}

// A Float is no NaN but the one that a sheet may hold. With the sign's bit taken off, a NaN is above the infinity.
#[tactic(auto, using(crate::proofs::Cells::nan_above))]
fn float_ok(k: Cell) -> bool
    requires { (k.a < 4294967296) × (k.b < 4294967296) }
    ensures { result ≡ float_ok (as_cell k) }
{
    let bits = k.a + 4294967296 * k.b;
    k.tag != tags::FLOAT
        || bits % 0x8000000000000000 <= 0x7FF0000000000000
        || bits == 0x7FF8000000000000
}

// A cell is as it should be.
#[tactic(auto, unfolding(sheet::specs::Cell::cell_ok))]
fn cell_ok(origins: usize, text: usize, tables: usize, k: Cell) -> bool
    requires { (k.a < 4294967296) × (k.b < 4294967296) }
    ensures { result ≡ cell_ok origins text tables (as_cell k) }
{
    fields_ok(origins, text, tables, k) && float_ok(k)
}

// Refusals 6 and 7: the lowest cell that breaks its layout.
pub fn bad_cell(s: &[u8]) -> Option<usize>
    requires { Whole s.now }
    ensures { found result ≡ bad_cell s.now }
{
    let p = parts_of(s);
    let origins = origins_of(s);
    for i in 0..p.cells.count {
        let k = cell_from(s, p.cells.at + i * 16);
        if !cell_ok(origins, p.tables.at, p.tables.count, k) {
            return Some(i);
        }
    }
    None
}

// The number of the refusal where a cell with this tag breaks its layout.
pub fn bad_number(tag: u32) -> usize
    ensures { result ≡ bad_number (tag_of tag) }
{
    match row_of(tag) {
        Row::NotCarried => 7,
        _ => 6,
    }
}
