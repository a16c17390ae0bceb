// optimizer.rs, index_lookup, of one Scan with a filter whose conjunctive normal form is known: the first conjunct that looks up a column with an index
// becomes a lookup, and the others a Filter over it. Where there is none, the Scan stays as it was.
#![tactic(auto)]

ghost use Rattle.std.specs.Prelude.{◌≡◌, ◌≤◌, ◌<◌, length};
ghost use Rattle.cells.specs.Room.{most_words};
ghost use Rattle.words.specs.Place.{ExpressionAt};
ghost use Rattle.first_lookup.specs.First.{marks_in};
ghost use Rattle.lookup_or_scan.specs.Scan.{lookup_cell, ScanAt, Looks, Filters, LooksOrScans};

use cells::Cell;
use first_lookup::FoundLookup;
use words::Expression;

// The cell of a lookup of column c with n constants, in the place of a Scan's cell. key is the column of the table's primary key.
fn lookup_cell(scan: Cell, key: usize, c: u32, n: u32) -> Cell
    requires { (c < 65536) × (n < 65536) }
    ensures { result ≡ lookup_cell scan key c n }
{
    let alias = scan.flag / 2;
    if c as usize == key {
        return Cell {
            tag: tags::KEY_LOOKUP,
            flag: alias,
            c: n,
            ..scan
        };
    }
    Cell {
        tag: tags::INDEX_LOOKUP,
        flag: alias,
        c: c + 65536 * n,
        ..scan
    }
}

// The lookup that was found in w, for the constants of its conjunct.
fn lookup(scan: Cell, key: usize, found: FoundLookup, w: &[u32], y: &mut [u32], at: usize) -> usize
    requires expression_at { ExpressionAt w.now found.start found.end }
    requires c_bound { (found.column < 65536) × (length y.old ≤ most_words) }
    ensures { Looks scan key found.column w.now found.start found.end y.old at result y.new }
{
    let conjunct = Expression {
        words: &w[found.start..found.end],
    };
    let n = column_lookup::into_column_values(conjunct, y, at);
    if y.len() < n {
        return n;
    }
    let constants = ((n - at) / cells::CELL_WORDS) as u32;
    cells::put(y, at, n, lookup_cell(scan, key, found.column, constants))
}

// The conjuncts of the expression in the first m words of w but the first that looks up a marked column, if there are any, as a Filter over the node that
// stands in y from at up to n. The Filter and its Ands have the origin that the caller gives.
fn filtered(
    w: &[u32],
    m: usize,
    y: &mut [u32],
    at: usize,
    n: usize,
    key: usize,
    columns: &[u8],
    origin: u32,
) -> usize
    requires { ExpressionAt w.now 0 m × (length y.old ≤ most_words) }
    ensures { Filters origin (marks_in key columns.now) w.now m y.old at n result y.new }
{
    let rest = first_lookup::remaining(w, 0, m, y, n, n, key, columns, false, origin);
    if rest.at == n {
        return n;
    }
    cells::put(y, at, rest.at, Cell::new(tags::FILTER, origin))
}

// What becomes of the Scan from lo to hi, whose filter's conjunctive normal form is the first m words of w. key is the column of the table's primary key, and
// columns are the records of its columns, as a sheet has them.
pub fn lookup_or_scan(
    x: &[u32],
    lo: usize,
    hi: usize,
    y: &mut [u32],
    at: usize,
    w: &[u32],
    m: usize,
    key: usize,
    columns: &[u8],
) -> usize
    requires { ScanAt x.now lo hi y.old w.now m key columns.now }
    ensures { LooksOrScans x.now lo hi y.old at w.now m key columns.now result y.new }
{
    let Some(found) = first_lookup::find_lookup(w, 0, m, key, columns) else {
        return cells::copy(x, lo, hi, y, at);
    };
    let scan = cells::cell_at(x, hi);
    let n = lookup(scan, key, found, w, y, at);
    filtered(w, m, y, at, n, key, columns, scan.origin)
}
