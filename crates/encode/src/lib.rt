// From the working form to a sheet: the text and the records of the sheet handed in, the cells of the plan, and the trailer.
#![tactic(auto)]

ghost use Rattle.std.specs.Prelude.{◌≡◌, ◌+◌, ◌*◌, ◌≤◌, ◌<◌, length, take};
ghost use Rattle.sheet.specs.Bytes.{bytes};
ghost use Rattle.sheet.specs.Write.{cell_bytes, cells_bytes};
ghost use Rattle.layout.specs.Layout.{Whole};
ghost use Rattle.cells.specs.Room.{most_words};
ghost use Rattle.encode.specs.Encode.{written, as_cell, cells_in, trailer_at, Small, CellsAt, PlanLong, Lengths, Encodable, Encodes};

// All bytes of s, from byte `at` of the output on. Where they end is returned.
pub fn put(out: &mut [u8], at: usize, s: &[u8]) -> usize
    requires { at + length s.now ≤ length out.old }
    ensures { (result ≡ at + length s.now) × (out.new ≡ written out.old at s.now) }
{
    out[at..at + s.len()].copy_from_slice(s);
    at + s.len()
}

// The 4 bytes of a number.
pub fn put_word(out: &mut [u8], at: usize, w: usize) -> usize
    requires { at + 4 ≤ length out.old }
    ensures { (result ≡ at + 4) × (out.new ≡ written out.old at (bytes w)) }
{
    put(out, at, &w.to_le_bytes()[..4])
}

// The 16 bytes of a cell: tag, flag and origin are one number.
fn put_cell(out: &mut [u8], at: usize, k: cells::Cell) -> usize
    requires { (at + 16 ≤ length out.old) × Small (as_cell k) }
    ensures { (result ≡ at + 16) × (out.new ≡ written out.old at (cell_bytes (as_cell k))) }
{
    let a = put_word(
        out,
        at,
        k.tag as usize + 256 * k.flag as usize + 65536 * k.origin as usize,
    );
    let b = put_word(out, a, k.a as usize);
    let c = put_word(out, b, k.b as usize);
    put_word(out, c, k.c as usize)
}

// The cells that the first n words of x say, without their sizes.
fn put_cells(x: &[u32], n: usize, out: &mut [u8], at: usize) -> usize
    requires { CellsAt x.now n out.old at }
    ensures { (result ≡ at + 16 * length (cells_in (take n x.now))) × (out.new ≡ written out.old at (cells_bytes (cells_in (take n x.now)))) }
{
    let mut to = at;
    for i in 0..n / cells::CELL_WORDS {
        let k = cells::cell_at(x, (i + 1) * cells::CELL_WORDS);
        to = put_cell(out, to, k);
    }
    to
}

// The trailer of a sheet of this edition that ends with it, and whose parts start at these bytes.
pub fn put_trailer(
    out: &mut [u8],
    at: usize,
    tables: usize,
    columns: usize,
    cells: usize,
    edition: usize,
) -> usize
    requires { at + 20 ≤ length out.old }
    ensures { (result ≡ at + 20) × (out.new ≡ written out.old at (trailer_at tables columns cells edition (at + 20))) }
{
    let a = put_word(out, at, tables);
    let b = put_word(out, a, columns);
    let c = put_word(out, b, cells);
    let d = put_word(out, c, edition);
    put_word(out, d, d + 4)
}

// How many bytes the sheet has that a plan of n words is written as.
pub fn encoded_length(s: &[u8], n: usize) -> usize
    requires whole { Whole s.now × (n ≤ most_words) }
    requires plan_long { PlanLong n }
    ensures { Lengths s.now n result }
{
    let p = layout::parts_of(s);
    p.cells.at + 16 * (n / cells::CELL_WORDS) + 20
}

// The plan in the first n words of x, as a sheet with the text, the records and the edition of s. The bytes after it stay.
pub fn encode(s: &[u8], x: &[u32], n: usize, out: &mut [u8]) -> usize
    requires { Encodable s.now x.now n out.old }
    ensures { Encodes s.now x.now n out.old result out.new }
{
    let p = layout::parts_of(s);
    let first = put(out, 0, &s[..p.cells.at]);
    let last = put_cells(x, n, out, first);
    let edition = layout::word_at(s, s.len() - 8);
    put_trailer(out, last, p.tables.at, p.columns.at, p.cells.at, edition)
}
