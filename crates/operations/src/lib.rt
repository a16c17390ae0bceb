// The operations that hand out a sheet, one pass and all five, on any bytes. Most plans are small, and buffers take time to clear: small ones that hold the
// plan are tried first, and what is refused there for want of room, by 14, is run again in larger ones, up to document 01's 2,048 cells.
#![tactic(auto)]

ghost use Rattle.std.specs.Prelude.{◌*◌, ◌/◌, ◌≡◌, ◌≤◌};
ghost use Rattle.sheet.specs.Operations.{one_pass, all_five};
ghost use Rattle.cells.specs.Cells.{cell_words};
ghost use Rattle.cells.specs.Room.{most_words};
ghost use Rattle.checker.specs.Checker.{outcome};
ghost use Rattle.optimizer.specs.Choices.{Choice};
ghost use Rattle.hand_out.specs.HandOut.{Counted};
ghost use Rattle.sheet_passes.specs.Rooms.{FitsIn, RunsIn};

use checker::Answer;
use optimizer::Chosen;

// Buffers for 24 cells, where plans of up to 16 are tried: copies of lookups make a small join's plan half as large again, and a second run takes longer than the
// clearing of some more words. There are buffers for 96 cells, where plans of up to 64 are tried, for 224 (up to 192), for 704 (up to 640), and for 2,048.
const WORDS_24: usize = 24 * cells::CELL_WORDS;

const WORDS_96: usize = 96 * cells::CELL_WORDS;

const WORDS_224: usize = 224 * cells::CELL_WORDS;

const WORDS_704: usize = 704 * cells::CELL_WORDS;

const WORDS_2048: usize = 2048 * cells::CELL_WORDS;

// The chosen passes in buffers of so many words, which are whole cells. Each size is a function of its own in the program, so that a small plan has a small frame:
// each page of a frame is touched when the function is entered.
#[inline(never)]
fn in_buffers<const WORDS: usize>(s: &[u8], c: Chosen, count: usize, out: &mut [u8]) -> Answer
    requires choice { Choice c }
    requires words { (cell_words * (WORDS / cell_words) ≡ WORDS) × (WORDS ≤ most_words) }
    requires fits_in { FitsIn (WORDS / cell_words) s.now }
    requires counted { Counted s.now count }
    ensures { RunsIn (WORDS / cell_words) s.now c count out.old result out.new }
{
    let mut x = [0u32; WORDS];
    let mut y = [0u32; WORDS];
    let mut z = [0u32; WORDS];
    let mut w = [0u32; WORDS];
    sheet_passes::run(s, c, count, &mut x, &mut y, &mut z, &mut w, out)
}

// The chosen passes on a sheet that is accepted, of at most so many cells: in small buffers that hold it, and where these have no room in larger
// ones. It keeps a small frame itself.
fn run(s: &[u8], c: Chosen, count: usize, cells: usize, out: &mut [u8]) -> Answer
    requires choice { Choice c }
    requires fits_in { FitsIn cells s.now × (cells ≤ 2048) }
    requires counted { Counted s.now count }
    ensures { RunsIn 2048 s.now c count out.old result out.new }
{
    let (a, larger) = match cells {
        0..=16 => (in_buffers::<WORDS_24>(s, c, count, out), 64),
        17..=64 => (in_buffers::<WORDS_96>(s, c, count, out), 640),
        65..=192 => (in_buffers::<WORDS_224>(s, c, count, out), 640),
        193..=640 => (in_buffers::<WORDS_704>(s, c, count, out), 2048),
        _ => return in_buffers::<WORDS_2048>(s, c, count, out),
    };
    if a.number == 14 {
        return run(s, c, count, larger, out);
    }
    a
}

// One pass by its number, 1 to 5.
pub fn pass(s: &[u8], k: usize, out: &mut [u8]) -> Answer
    ensures { outcome result out.new ≡ one_pass s.now k out.old }
{
    if k < 1 {
        return checker::refusal(1, 0);
    }
    if 5 < k {
        return checker::refusal(1, 0);
    }
    let a = checker::check(s);
    if a.number != 0 {
        return a;
    }
    run(s, Chosen::One(k), a.columns, a.cells, out)
}

// All five in turn.
pub fn optimize(s: &[u8], out: &mut [u8]) -> Answer
    ensures { outcome result out.new ≡ all_five s.now out.old }
{
    let a = checker::check(s);
    if a.number != 0 {
        return a;
    }
    run(s, Chosen::All, a.columns, a.cells, out)
}
