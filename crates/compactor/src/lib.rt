// The operation that drops text nobody refers to: strings are gathered first, and written where they are not refused.
#![tactic(auto)]

ghost use Rattle.std.specs.Prelude.{◌≡◌, List, [], ◌∷◌, ℕ, ◌+◌, ◌*◌, ◌≤◌, ◌<◌, length, take, drop};
ghost use Rattle.sheet.specs.Bytes.{bytes, word};
ghost use Rattle.compact.specs.Strings.{joined};
ghost use Rattle.compact.specs.Slots.{record_slots, cell_slots, in_each, references, slot_bytes};
ghost use Rattle.compact.specs.Compact as Definition;
ghost use Rattle.layout.specs.Layout.{Whole};
ghost use Rattle.checker.specs.Checker.{outcome};
ghost use Rattle.encode.specs.Encode.{written};
ghost use Rattle.gather.specs.Gather.{stretch, held};
ghost use Rattle.text_references.specs.Asks.{slot_of};
ghost use Rattle.compactor.specs.Compactor.{fill, TextAt, Ready, Writes, Counted, Runs, returned};

use checker::{Answer, Counts, Refusal};
use gather::{Kept, TooLong};
use text_references::Slot;

// ---- writing

// n bytes of s from `from` on.
fn copy(s: &[u8], from: usize, n: usize, out: &mut [u8], at: usize) -> usize
    requires { (from + n ≤ length s.now) × (at + n ≤ length out.old) }
    ensures { (result ≡ at + n) × (out.new ≡ written out.old at (stretch s.now from n)) }
{
    encode::put(out, at, &s[from..from + n])
}

// The strings that are kept, one behind the other.
fn put_text(s: &[u8], kept: &[Kept], out: &mut [u8]) -> usize
    requires { TextAt s.now kept.now out.old }
    ensures { (result ≡ length (joined (held s.now kept.now))) × (out.new ≡ written out.old 0 (joined (held s.now kept.now))) }
{
    let mut to: usize = 0;
    for k in kept {
        let r = k.reference as usize;
        to = copy(s, r % 65536, r / 65536, out, to);
    }
    to
}

// The record at byte p with the name w.
fn put_record(s: &[u8], p: usize, w: usize, out: &mut [u8], at: usize) -> usize
    requires { (p + 16 ≤ length s.now) × (at + 16 ≤ length out.old) }
    ensures { (result ≡ at + 16) × (out.new ≡ written out.old at (slot_bytes (fill (record_slots s.now p) (w ∷ [])))) }
{
    let a = encode::put_word(out, at, w);
    copy(s, p + 4, 12, out, a)
}

// n records, the first at byte `from`, with the names of `fresh`.
fn put_records(s: &[u8], from: usize, n: usize, fresh: &[usize], out: &mut [u8], at: usize) -> usize
    requires { (from + n * 16 ≤ length s.now) × ((n ≤ length fresh.now) × (at + n * 16 ≤ length out.old)) }
    ensures { (result ≡ at + n * 16) × (out.new ≡ written out.old at (slot_bytes (fill (in_each (record_slots s.now) from n) fresh.now))) }
{
    let mut to = at;
    for i in 0..n {
        to = put_record(s, from + i * 16, fresh[i], out, to);
    }
    to
}

// A field with its number, or where it is a reference number j of `fresh`. The next number is returned.
fn put_field(slot: Slot, fresh: &[usize], j: usize, out: &mut [u8], at: usize) -> usize
    requires { (j + 1 ≤ length fresh.now) × (at + 4 ≤ length out.old) }
    ensures { (result ≡ j + length (references (slot_of slot ∷ []))) × (out.new ≡ written out.old at (slot_bytes (fill (slot_of slot ∷ []) (drop j fresh.now)))) }
{
    match slot {
        Slot::Number(v) => {
            encode::put_word(out, at, v);
            j
        }
        Slot::Reference(_) => {
            encode::put_word(out, at, fresh[j]);
            j + 1
        }
    }
}

// The cell at byte p with references of `fresh` from number j on. The next number is returned.
fn put_cell(s: &[u8], p: usize, fresh: &[usize], j: usize, out: &mut [u8], at: usize) -> usize
    requires { (p + 16 ≤ length s.now) × ((j + 2 ≤ length fresh.now) × (at + 16 ≤ length out.old)) }
    ensures { (result ≡ j + length (references (cell_slots s.now p))) × (out.new ≡ written out.old at (slot_bytes (fill (cell_slots s.now p) (drop j fresh.now)))) }
{
    let (a, b) = text_references::fields(layout::cell_from(s, p));
    let x = copy(s, p, 4, out, at);
    let i = put_field(a, fresh, j, out, x);
    let m = put_field(b, fresh, i, out, x + 4);
    copy(s, p + 12, 4, out, x + 8);
    m
}

// n cells, the first at byte `from`, with references of `fresh` from number j on.
fn put_cells(
    s: &[u8],
    from: usize,
    n: usize,
    fresh: &[usize],
    first: usize,
    out: &mut [u8],
    at: usize,
) -> usize
    requires { (from + n * 16 ≤ length s.now) × ((first + n * 2 ≤ length fresh.now) × (at + n * 16 ≤ length out.old)) }
    ensures { (result ≡ at + n * 16) × (out.new ≡ written out.old at (slot_bytes (fill (in_each (cell_slots s.now) from n) (drop first fresh.now)))) }
{
    let mut j = first;
    for i in 0..n {
        j = put_cell(s, from + i * 16, fresh, j, out, at + i * 16);
    }
    at + n * 16
}

// ---- the operation

// The compacted sheet: its length, and what it counts. The strings that are kept have so many bytes together, and the plan has n columns.
fn write(
    s: &[u8],
    bytes: usize,
    n: usize,
    kept: &[Kept],
    fresh: &[usize],
    out: &mut [u8],
) -> Result<(usize, Counts), Refusal>
    requires { Ready s.now bytes n kept.now fresh.now }
    ensures { Writes s.now out.old result out.new }
{
    let p = layout::parts_of(s);
    let records = p.tables.count + p.columns.count;
    let needed = bytes + records * 16 + p.cells.count * 16 + 20;
    if out.len() < needed {
        return Err(Refusal::OutputTooShort(needed));
    }
    let a = put_text(s, kept, out);
    let b = put_records(s, p.tables.at, records, fresh, out, a);
    let c = put_cells(s, p.cells.at, p.cells.count, fresh, records, out, b);
    let edition = layout::word_at(s, s.len() - 8);
    encode::put_trailer(out, c, a, a + p.tables.count * 16, b, edition);
    let cells = p.cells.count;
    Ok((needed, Counts { cells, columns: n }))
}

// No string.
const NOTHING: Kept = Kept {
    mark: 0,
    reference: 0,
    place: 0,
};

// An accepted sheet whose plan has n columns: strings are gathered, and written if they have at most 8,192 bytes together.
fn run(s: &[u8], n: usize, out: &mut [u8]) -> Result<(usize, Counts), Refusal>
    requires { Counted s.now n }
    ensures { Runs s.now out.old result out.new }
{
    let mut refs = [0usize; text_references::MOST];
    let mut kept = [NOTHING; text_references::MOST];
    let mut fresh = [0usize; text_references::MOST];
    let m = text_references::references(s, &mut refs);
    match gather::gather(s, &refs[..m], &mut kept, &mut fresh) {
        Ok(total) => write(s, total.bytes, n, &kept[..total.count], &fresh, out),
        Err(TooLong) => Err(Refusal::NoRoom),
    }
}

// On any bytes: the length of the compacted sheet and what it counts, or the cause of a refusal, and then no byte of the output has changed.
fn compacted(s: &[u8], out: &mut [u8]) -> Result<(usize, Counts), Refusal>
    ensures { returned result out.new ≡ Definition.compact s.now out.old }
{
    let counts = checker::accepted(s)?;
    run(s, counts.columns, out)
}

// The same in numbers.
pub fn compact(s: &[u8], out: &mut [u8]) -> Answer
    ensures { outcome result out.new ≡ Definition.compact s.now out.old }
{
    match compacted(s, out) {
        Ok((length, counts)) => Answer {
            number: 0,
            place: 0,
            length,
            cells: counts.cells,
            columns: counts.columns,
        },
        Err(cause) => Answer::from(cause),
    }
}
