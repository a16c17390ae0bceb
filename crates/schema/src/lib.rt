// schema.rs: tables and columns, read from the records of a sheet; and the records themselves, which the passes are lent (crate records).
#![tactic(auto)]

ghost use Rattle.std.specs.Prelude.{◌≡◌, ◌<◌};
ghost use Rattle.sheet.specs.Parts.{table_count, column_count, kind_of};
ghost use Rattle.sheet.specs.Check as Sheet;
ghost use Rattle.layout.specs.Layout.{Whole};
ghost use Rattle.schema.specs.Schema.{Recorded, table_records, column_records, as_kind, number, Decodes};

// ---- parts of a sheet

// The text of a sheet.
pub fn text(s: &[u8]) -> &[u8]
    requires { Whole s.now }
    ensures { result.now ≡ Sheet.text s.now }
{
    &s[..layout::parts_of(s).tables.at]
}

// The table records of a sheet, 16 bytes each.
pub fn table_records(s: &[u8]) -> &[u8]
    requires { Whole s.now }
    ensures { result.now ≡ table_records s.now }
{
    let p = layout::parts_of(s);
    &s[p.tables.at..p.columns.at]
}

// The column records of a sheet, 16 bytes each.
pub fn column_records(s: &[u8]) -> &[u8]
    requires { Whole s.now }
    ensures { result.now ≡ column_records s.now }
{
    let p = layout::parts_of(s);
    &s[p.columns.at..p.cells.at]
}

// ---- one record, by schema.rs's fields: for who asks for one. The passes are lent the records.

// The kinds of columns, the Rust's DataType.
#[derive(Clone, Copy)]
pub enum Kind {
    Boolean,
    Integer,
    Float,
    String,
}

// A number that stands for no kind.
#[derive(Clone, Copy)]
pub struct UnknownKind(pub usize);

impl TryFrom<usize> for Kind {
    type Error = UnknownKind;

    ghost try_from_gives = { Decodes };

    fn try_from(number: usize) -> Result<Kind, UnknownKind> {
        match number {
            0 => Ok(Kind::Boolean),
            1 => Ok(Kind::Integer),
            2 => Ok(Kind::Float),
            3 => Ok(Kind::String),
            _ => Err(UnknownKind(number)),
        }
    }
}

// The name of table t, a text reference.
pub fn table_name(s: &[u8], t: usize) -> usize
    requires { Whole s.now × (t < table_count s.now) }
    ensures { result ≡ (Sheet.table s.now t).name }
{
    layout::table_at(s, t).name
}

// The primary key of table t, counted among its columns.
pub fn primary_key(s: &[u8], t: usize) -> usize
    requires { Whole s.now × (t < table_count s.now) }
    ensures { result ≡ (Sheet.table s.now t).primary_key }
{
    layout::table_at(s, t).key
}

// The name of column i, counted among the columns of all tables.
pub fn column_name(s: &[u8], i: usize) -> usize
    requires { Whole s.now × (i < column_count s.now) }
    ensures { result ≡ (Sheet.column s.now i).name }
{
    layout::column_at(s, i).name
}

// The kind of column i.
#[tactic(auto, using(crate::proofs::Laws::kind_is, crate::proofs::Laws::kind_few))]
pub fn column_kind(s: &[u8], i: usize) -> Kind
    requires { Recorded s.now × (i < column_count s.now) }
    ensures { (number result ≡ kind_of s.now i) × (as_kind result ≡ (Sheet.column s.now i).kind) }
{
    Kind::try_from(layout::column_at(s, i).kind).unwrap()
}

// Column i has an index.
pub fn column_index(s: &[u8], i: usize) -> bool
    requires { Whole s.now × (i < column_count s.now) }
    ensures { result ≡ (Sheet.column s.now i).index }
{
    layout::column_at(s, i).index == 1
}
