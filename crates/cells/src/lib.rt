// The working form of a plan: postfix cells of seven words in lent slices. A position is a number of words.
#![tactic(auto)]

ghost use Rattle.std.specs.Prelude.{◌≡◌, List, [], ◌∷◌, ◌++◌, ℕ, ◌+◌, ◌-◌, ◌≤◌, ◌<◌, length, take, drop};
ghost use Rattle.cells.specs.Cells.{cell_words, plain, cell_at, start_at, tag_at, origin_at, Part, Sized};
ghost use Rattle.cells.specs.Room.{Wrote, Puts, Copies};

#[derive(Clone, Copy)]
pub struct Cell {
    pub origin: u32,
    pub tag: u32,
    pub flag: u32,
    pub a: u32,
    pub b: u32,
    pub c: u32,
}

impl Cell {
    // The cell that says no more than its tag and its origin.
    pub fn new(tag: u32, origin: u32) -> Cell
        ensures { result ≡ plain origin tag }
    {
        Cell {
            origin,
            tag,
            flag: 0,
            a: 0,
            b: 0,
            c: 0,
        }
    }
}

// The words of a cell, and which of them is what: its origin stands first, then its tag, its flag, its numbers a, b and c, and its size, which is the number of
// words of the whole subtree that it ends.
pub const CELL_WORDS: usize = 7;

pub const TAG: usize = 1;

pub const FLAG: usize = 2;

pub const A: usize = 3;

pub const B: usize = 4;

pub const C: usize = 5;

pub const SIZE: usize = 6;

// The same, counted back from the cell's end.
const TAG_BACK: usize = CELL_WORDS - TAG;

const FLAG_BACK: usize = CELL_WORDS - FLAG;

const A_BACK: usize = CELL_WORDS - A;

const B_BACK: usize = CELL_WORDS - B;

const C_BACK: usize = CELL_WORDS - C;

// A position past the end of every slice.
pub const FULL: usize = 18446744073709551615;

// The most words that a cell can stand over, so that their number with its own fits a word.
const LONGEST: usize = 4294967288;

// The cell whose words end before hi, without the size.
pub fn cell_at(s: &[u32], hi: usize) -> Cell
    requires { (cell_words ≤ hi) × (hi ≤ length s.now) }
    ensures { result ≡ cell_at s.now hi }
{
    Cell {
        origin: s[hi - CELL_WORDS],
        tag: s[hi - TAG_BACK],
        flag: s[hi - FLAG_BACK],
        a: s[hi - A_BACK],
        b: s[hi - B_BACK],
        c: s[hi - C_BACK],
    }
}

pub fn tag_at(s: &[u32], hi: usize) -> u32
    requires { (cell_words ≤ hi) × (hi ≤ length s.now) }
    ensures { result ≡ tag_at s.now hi }
{
    s[hi - TAG_BACK]
}

// The origin of that cell.
pub fn origin_at(s: &[u32], hi: usize) -> u32
    requires { (cell_words ≤ hi) × (hi ≤ length s.now) }
    ensures { result ≡ origin_at s.now hi }
{
    s[hi - CELL_WORDS]
}

// A word as a number of words.
pub fn wide(x: u32) -> usize
    ensures { result ≡ x }
{
    x as usize
}

// Where the subtree that ends before hi starts.
pub fn start(s: &[u32], hi: usize) -> usize
    requires { Sized s.now hi }
    ensures { result ≡ start_at s.now hi }
{
    hi - wide(s[hi - 1])
}

// The cell k over the words of d from lo up to at.
pub fn put(d: &mut [u32], lo: usize, at: usize, k: Cell) -> usize
    ensures { Puts d.old lo at k result d.new }
{
    if at < lo || d.len() < at || d.len() - at < CELL_WORDS || LONGEST < at - lo {
        return FULL;
    }
    d[at] = k.origin;
    d[at + TAG] = k.tag;
    d[at + FLAG] = k.flag;
    d[at + A] = k.a;
    d[at + B] = k.b;
    d[at + C] = k.c;
    d[at + SIZE] = (at - lo + CELL_WORDS) as u32;
    at + CELL_WORDS
}

// All of s after the first `at` words of d.
pub fn copy_all(s: &[u32], d: &mut [u32], at: usize) -> usize
    ensures { Wrote d.old at s.now result d.new × (at + length s.now ≤ length d.old → result ≤ length d.old) }
{
    if d.len() < at || d.len() - at < s.len() {
        return FULL;
    }
    let end = at + s.len();
    d[at..end].copy_from_slice(s);
    end
}

// The words of s from lo up to hi after the first `at` words of d.
pub fn copy(s: &[u32], lo: usize, hi: usize, d: &mut [u32], at: usize) -> usize
    requires { (lo ≤ hi) × (hi ≤ length s.now) }
    ensures { Copies s.now lo hi d.old at result d.new }
{
    copy_all(&s[lo..hi], d, at)
}
