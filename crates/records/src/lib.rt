// Tables as a sheet has them, in records of 16 bytes each: the passes are lent the records as they stand, and read what they ask for.
#![tactic(auto)]

ghost use Rattle.std.specs.Prelude.{◌≡◌, ◌≤◌};
ghost use Rattle.layout.specs.Layout.{Number};
ghost use Rattle.records.specs.Records as Records;

// The word at byte k of record i, or 0 if there is no such record.
#[tactic(auto, unfolding(crate::specs::Records::field))]
fn field(records: &[u8], i: usize, k: usize) -> usize
    requires { k ≤ 12 }
    ensures { Number 4294967296 (Records.field k records.now i) result }
{
    if i < records.len() / 16 {
        layout::word_at(records, i * 16 + k)
    } else {
        0
    }
}

// The name of table t, a text reference, as a word of the working form.
pub fn table_name(tables: &[u8], t: usize) -> u32
    ensures { result ≡ Records.table_name tables.now t }
{
    field(tables, t, 0) as u32
}

// Where the columns of table t start among the columns of all tables.
pub fn first_column(tables: &[u8], t: usize) -> usize
    ensures { result ≡ Records.first_column tables.now t }
{
    field(tables, t, 4)
}

// The number of columns of table t.
pub fn table_width(tables: &[u8], t: usize) -> usize
    ensures { result ≡ Records.table_width tables.now t }
{
    field(tables, t, 8)
}

// The primary key of table t, counted among its columns.
pub fn primary_key(tables: &[u8], t: usize) -> usize
    ensures { result ≡ Records.primary_key tables.now t }
{
    field(tables, t, 12)
}
