// The operation `convert`: a sheet of one edition carried to the other. Upward each cell's origin is its number, downward 0.
#![tactic(auto)]

ghost use Rattle.std.specs.Prelude.{◌≡◌, ◌++◌, ◌+◌, ◌*◌, ◌≤◌, ◌<◌, length, drop};
ghost use Rattle.std.proofs.lemmas.List.Edits.{sets};
ghost use Rattle.checker.specs.Checker.{outcome};
ghost use Rattle.editions.specs.Editions.{origin_bytes, with_origins};
ghost use Rattle.convert.specs.Convert;
ghost use Rattle.convert.specs.Convert.{origin_in, carried, other_edition};
ghost use Rattle.convert.specs.Code.{Carryable, returned};

use checker::{Answer, Counts, Refusal};

// The target is not the edition of s, and is one.
fn is_other(s: &[u8], target: usize) -> bool
    requires { 20 ≤ length s.now }
    ensures { result ≡ other_edition s.now target }
{
    target != layout::word_at(s, s.len() - 8) && matches!(target, 1 | 2)
}

// The origin that cell number i is given.
fn origin_in(target: usize, i: usize) -> usize
    ensures { result ≡ origin_in target i }
{
    if target == 1 { 0 } else { i }
}

// Bytes 2 and 3 of the cell that starts at byte `at`.
fn put_origin(origin: usize, out: &mut [u8], at: usize)
    requires { (origin < 65536) × (at + 4 ≤ length out.old) }
    ensures { out.new ≡ sets out.old (at + 2) (origin_bytes origin) }
{
    out[at + 2..at + 4].copy_from_slice(&origin.to_le_bytes()[..2]);
}

// The origins of the cells, so many from byte `at` on.
fn put_origins(target: usize, cells: usize, out: &mut [u8], at: usize)
    requires { (cells ≤ 2048) × (at + cells * 16 ≤ length out.old) }
    ensures { out.new ≡ with_origins (origin_in target) at 0 cells out.old }
{
    for i in 0..cells {
        put_origin(origin_in(target, i), out, at + i * 16);
    }
}

// The bytes of s over the first of out.
fn copy(s: &[u8], out: &mut [u8])
    requires { length s.now ≤ length out.old }
    ensures { out.new ≡ s.now ++ drop (length s.now) out.old }
{
    out[..s.len()].copy_from_slice(s);
}

// The sheet s in the target edition, over the first bytes of out. An edition's number is the first byte of its word; the other three are 0 in both.
fn carry(s: &[u8], target: usize, out: &mut [u8])
    requires { Carryable s.now target out.old }
    ensures { out.new ≡ carried target s.now ++ drop (length s.now) out.old }
{
    let cells = layout::parts_of(s).cells;
    copy(s, out);
    put_origins(target, cells.count, out, cells.at);
    out[s.len() - 8] = target as u8;
}

// The sheet s in the target edition and what it counts, or the cause of its refusal, and then no byte of the output has changed.
fn converted(s: &[u8], target: usize, out: &mut [u8]) -> Result<Counts, Refusal>
    ensures { returned (length s.now) result out.new ≡ Convert.convert s.now target out.old }
{
    let counts = checker::accepted(s)?;
    if !is_other(s, target) {
        return Err(Refusal::OtherEdition);
    }
    if out.len() < s.len() {
        return Err(Refusal::OutputTooShort(s.len()));
    }
    carry(s, target, out);
    Ok(counts)
}

// The same in numbers: refusals 2 to 10 as `check` gives them, 21 or 15.
pub fn convert(s: &[u8], target: usize, out: &mut [u8]) -> Answer
    ensures { outcome result out.new ≡ Convert.convert s.now target out.old }
{
    match converted(s, target, out) {
        Ok(counts) => Answer {
            number: 0,
            place: 0,
            length: s.len(),
            cells: counts.cells,
            columns: counts.columns,
        },
        Err(cause) => Answer::from(cause),
    }
}
