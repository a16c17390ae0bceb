// The listing of a sheet, as bytes in a lent slice: a header line, a line for each cell, and a line of totals, in unsigned decimal. What has no room ends past
// the end of the slice (crate cells).
#![tactic(auto)]

ghost use Rattle.std.specs.Prelude.{◌≡◌, [], ◌∷◌, ◌++◌, ◌+◌, ◌*◌, ◌≤◌, ◌<◌, length};
ghost use Rattle.sheet.specs.Check.{cells_of};
ghost use Rattle.layout.specs.Layout.{Whole, as_cell};
ghost use Rattle.sheet.specs.Listing;
ghost use Rattle.cells.specs.Room.{Wrote};
ghost use Rattle.listing.specs.Lines.{ended, Listed, FewKinds, OneMore, IsKinds};

// The bytes of s after the first `at` bytes of d.
fn text(s: &[u8], d: &mut [u8], at: usize) -> usize
    ensures { Wrote d.old at s.now result d.new }
{
    if d.len() < at || d.len() - at < s.len() {
        return cells::FULL;
    }
    d[at..at + s.len()].copy_from_slice(s);
    at + s.len()
}

// A number, and the byte that ends it.
fn number(n: usize, end: u8, d: &mut [u8], at: usize) -> usize
    ensures { Wrote d.old at (ended n end) result d.new }
{
    let mut digits = itoa::Buffer::new();
    let m = text(digits.format(n).as_bytes(), d, at);
    text(&[end], d, m)
}

const SPACE: u8 = b' ';

const NEWLINE: u8 = b'\n';

// The line of cell i.
fn cell_line(i: usize, k: layout::Cell, d: &mut [u8], at: usize) -> usize
    ensures { Wrote d.old at (Listing.cell_line i (as_cell k)) result d.new }
{
    let tag = number(i, SPACE, d, at);
    let flag = number(k.tag as usize, SPACE, d, tag);
    let a = number(k.flag, SPACE, d, flag);
    let b = number(k.a, SPACE, d, a);
    let c = number(k.b, SPACE, d, b);
    number(k.c, NEWLINE, d, c)
}

// The lines of all cells of the sheet s.
fn cell_lines(s: &[u8], d: &mut [u8], at: usize) -> usize
    requires { Whole s.now }
    ensures { Wrote d.old at (Listing.cell_lines 0 (cells_of s.now)) result d.new }
{
    let mut m = at;
    for i in 0..layout::parts_of(s).cells.count {
        m = cell_line(i, cell_view::cell_of(s, i), d, m);
    }
    m
}

// "cells N bytes B columns C"
fn header(cells: usize, bytes: usize, columns: usize, d: &mut [u8], at: usize) -> usize
    ensures { Wrote d.old at (Listing.header cells bytes columns) result d.new }
{
    let a = text(b"cells ", d, at);
    let b = number(cells, SPACE, d, a);
    let c = text(b"bytes ", d, b);
    let e = number(bytes, SPACE, d, c);
    let f = text(b"columns ", d, e);
    number(columns, NEWLINE, d, f)
}

// How many cells there are of each kind.
#[derive(Clone, Copy)]
pub struct Kinds {
    pub expressions: usize,
    pub parts: usize,
    pub nodes: usize,
}

// One cell more, by its tag.
fn one_more(k: Kinds, tag: u32) -> Kinds
    requires { FewKinds k }
    ensures { OneMore k tag result }
{
    if tag < tags::PARTS {
        Kinds {
            expressions: k.expressions + 1,
            ..k
        }
    } else if tag < tags::NODES {
        Kinds {
            parts: k.parts + 1,
            ..k
        }
    } else {
        Kinds {
            nodes: k.nodes + 1,
            ..k
        }
    }
}

// The cells of the sheet s, counted by kind.
fn kinds_of(s: &[u8]) -> Kinds
    requires { Whole s.now }
    ensures { IsKinds (cells_of s.now) result }
{
    let mut k = Kinds {
        expressions: 0,
        parts: 0,
        nodes: 0,
    };
    for i in 0..layout::parts_of(s).cells.count {
        k = one_more(k, cell_view::cell_of(s, i).tag);
    }
    k
}

// "kinds E P N total T" of the sheet s.
fn totals(s: &[u8], d: &mut [u8], at: usize) -> usize
    requires { Whole s.now }
    ensures { Wrote d.old at (Listing.totals (cells_of s.now)) result d.new }
{
    let k = kinds_of(s);
    let a = text(b"kinds ", d, at);
    let b = number(k.expressions, SPACE, d, a);
    let c = number(k.parts, SPACE, d, b);
    let e = number(k.nodes, SPACE, d, c);
    let f = text(b"total ", d, e);
    number(k.expressions + k.parts + k.nodes, NEWLINE, d, f)
}

// The listing of a sheet whose plan has so many columns.
pub fn listing(s: &[u8], columns: usize, d: &mut [u8], at: usize) -> usize
    requires { Whole s.now }
    ensures { Listed s.now columns d.old at result d.new }
{
    let p = layout::parts_of(s);
    let m = header(p.cells.count, s.len(), columns, d, at);
    let n = cell_lines(s, d, m);
    totals(s, d, n)
}

// "refused N place P"
pub fn refusal_line(refused: usize, place: usize, d: &mut [u8], at: usize) -> usize
    ensures { Wrote d.old at (Listing.refusal_line refused place) result d.new }
{
    let a = text(b"refused ", d, at);
    let b = number(refused, SPACE, d, a);
    let c = text(b"place ", d, b);
    number(place, NEWLINE, d, c)
}
