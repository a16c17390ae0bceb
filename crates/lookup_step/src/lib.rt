// optimizer.rs, index_lookup, as a step of the streamed pass (crate stream): a Scan whose filter has a conjunct that looks up a column with an index, or the
// primary key, becomes a lookup. tables and columns are the schema's records (crate records).
#![tactic(auto)]

ghost use Rattle.std.specs.Prelude.{◌≡◌, ◌-◌, ◌≤◌, ◌<◌, length};
ghost use Rattle.sql.specs.Room.{IndexLookup};
ghost use Rattle.cells.specs.Room.{most_words};
ghost use Rattle.words.specs.Place.{NodeAt};
ghost use Rattle.nodes.specs.Own.{SourceCount};
ghost use Rattle.records.specs.Records.{Records};
ghost use Rattle.stream.specs.Stream.{StreamAt, Streams};
ghost use Rattle.lookup_step.specs.Lookup.{FilteredAt, HasFilter, Normalizes, LooksUp};

use words::Expression;

// Whether the leaf from lo to hi is a Scan with a filter.
fn has_filter(x: &[u32], lo: usize, hi: usize) -> bool
    requires { NodeAt x.now lo hi }
    ensures { HasFilter x.now lo hi result }
{
    let k = cells::cell_at(x, hi);
    k.tag == tags::SCAN && k.flag % 2 == 1
}

// The conjunctive normal form of the expression, as the first words of w. What into_nnf gives stands in z, and counts for room too.
fn into_cnf(e: Expression, z: &mut [u32], w: &mut [u32]) -> usize
    requires { (length z.old ≡ length w.old) × (length w.old ≤ most_words) }
    ensures { Normalizes e.entry.words.now 0 (length e.entry.words.now) result w.new }
{
    let n = nnf::into_nnf(e, z, 0);
    if z.len() < n {
        return n;
    }
    let nnf = Expression { words: &z[..n] };
    cnf::distribute(nnf, w, 0)
}

// What becomes of the Scan from lo to hi, whose filter's conjunctive normal form is the first m words of w. A table that there isn't has no columns, so that
// nothing is looked up in it.
fn lookup_in_table(
    x: &[u32],
    lo: usize,
    hi: usize,
    y: &mut [u32],
    at: usize,
    w: &[u32],
    m: usize,
    tables: &[u8],
    columns: &[u8],
) -> usize
    requires { FilteredAt x.now lo hi y.old w.now m tables.now columns.now }
    ensures { LooksUp x.now lo hi y.old at w.now m tables.now columns.now result y.new }
{
    let k = cells::cell_at(x, hi);
    let t = k.a as usize;
    let width = records::table_width(tables, t);
    if width == 0 {
        return cells::copy(x, lo, hi, y, at);
    }
    let first = records::first_column(tables, t);
    let from = 16 * first;
    let to = 16 * (first + width);
    let key = records::primary_key(tables, t);
    lookup_or_scan::lookup_or_scan(x, lo, hi, y, at, w, m, key, &columns[from..to])
}

// index_lookup of the leaf from lo to hi. z and w are used for the normal forms of its filter, and as long as y.
pub fn index_lookup(
    x: &[u32],
    lo: usize,
    hi: usize,
    tail: usize,
    y: &mut [u32],
    at: usize,
    z: &mut [u32],
    w: &mut [u32],
    tables: &[u8],
    columns: &[u8],
) -> usize
    requires stream_at { StreamAt (Records tables.now columns.now) x.now lo hi tail y.old at }
    requires source_count { SourceCount x.now lo hi 0 }
    requires z_len { (length z.old ≡ length y.old) × (length w.old ≡ length y.old) }
    ensures { Streams (Records tables.now columns.now) IndexLookup x.now lo hi tail y.old at result y.new }
{
    if has_filter(x, lo, hi) {
        let filter = Expression {
            words: &x[lo..hi - cells::CELL_WORDS],
        };
        let m = into_cnf(filter, z, w);
        if w.len() < m {
            return m;
        }
        let n = lookup_in_table(x, lo, hi, y, at, w, m, tables, columns);
        return stream::in_room(y, n, tail);
    }
    cells::copy(x, lo, hi, y, at)
}
