// Refusal 9 of document 01: a plan's columns are in scope. The cells are walked once, from the first to the last. A node's own cells are looked at when the
// node's cell is met, since only then it is known which sources it has. Each cell belongs to one node's own cells, so the work is linear in the sheet.
#![tactic(auto)]

ghost use Rattle.std.specs.Prelude.{◌≡◌, ◌≤◌, length};
ghost use Rattle.sheet.specs.Parts.{cell_count};
ghost use Rattle.layout.specs.Layout.{Whole};
ghost use Rattle.scope.specs.Scope.{width_at, OnePlan, Judges};

use layout::{cell_at, parts_of};
use node_scope::{columns_read, node_columns, node_outside, sources};

// The column count that stands at `at` in a stack of so many, 0 past its top.
fn width_at(widths: &[usize], at: usize, depth: usize) -> usize
    requires { depth ≤ length widths.now }
    ensures { result ≡ width_at widths.now at depth }
{
    if at < depth { widths[at] } else { 0 }
}

// The plan's number of columns, or as an error the lowest Column or node that is out of scope. `widths` is a stack, which is lent: the column counts of the plans
// read that no node has as a source yet. `own` is the first cell since the last node. Of cells that are not one plan nothing is promised: `outside` isn't asked of
// them.
fn outside_in(s: &[u8], widths: &mut [usize]) -> Result<usize, usize>
    requires { Whole s.now × (cell_count s.now ≤ length widths.old) }
    ensures { Judges s.now result }
{
    let mut depth: usize = 0;
    let mut own: usize = 0;
    for i in 0..parts_of(s).cells.count {
        let k = cell_at(s, i);
        if k.tag < tags::NODES {
            continue;
        }
        let n = sources(k.tag);
        if depth < n {
            return Ok(0);
        }
        let rest = depth - n;
        let left = width_at(widths, rest, depth);
        let right = width_at(widths, rest + 1, depth);
        let read = columns_read(s, i, left, right);
        if let Some(place) = node_outside(s, own, i, left, right, read) {
            return Err(place);
        }
        widths[rest] = node_columns(s, own, i, read);
        depth = rest + 1;
        own = i + 1;
    }
    if depth == 0 {
        return Ok(0);
    }
    Ok(widths[depth - 1])
}

// The same with a stack of its own, of N entries.
fn outside_within<const N: usize>(s: &[u8]) -> Result<usize, usize>
    requires { Whole s.now × ((cell_count s.now ≤ N) × (N ≤ 2048)) }
    ensures { Judges s.now result }
{
    let mut widths = [0usize; N];
    outside_in(s, &mut widths)
}

// The number of columns of a plan in scope, or as an error the lowest cell that is out of scope. Most plans are small, and a small stack is made faster.
pub fn outside(s: &[u8]) -> Result<usize, usize>
    requires { Whole s.now × OnePlan s.now }
    ensures { Judges s.now result }
{
    match parts_of(s).cells.count {
        0..=64 => outside_within::<64>(s),
        65..=256 => outside_within::<256>(s),
        _ => outside_within::<2048>(s),
    }
}
