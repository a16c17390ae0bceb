// Refusal 8: a sheet's cells are read by a stack, as the definition reads them, but a sort stands there for each tree.
#![tactic(auto)]

ghost use Rattle.std.specs.Prelude.{◌≡◌, ◌≤◌, ◌<◌, length};
ghost use Rattle.std.proofs.Math.Option.{none};
ghost use Rattle.sheet.specs.Parts.{cell_count};
ghost use Rattle.sheet.specs.Cell.{bad_cell};
ghost use Rattle.layout.specs.Layout.{Whole, found};
ghost use Rattle.structure.specs.Sorts as Sorts;
ghost use Rattle.structure.specs.Structure.{place, plan_of, Takes, Reduces, Operates};

use arity::Sort;

// A constant serves where an expression is asked for.
fn serves(have: Sort, want: Sort) -> bool
    ensures { result ≡ Sorts.serves have want }
{
    have == want || matches!((have, want), (Sort::Constant, Sort::Expression))
}

// The height that is left when n entries are taken off. That there are so many is known without counting them off: n can be any number.
fn taken(stack: &[Sort], height: usize, want: Sort, n: usize) -> Option<usize>
    requires { height ≤ length stack.now }
    ensures { Takes stack.now height want n result }
{
    let low = height.checked_sub(n)?;
    for i in low..height {
        if !serves(stack[i], want) {
            return None;
        }
    }
    Some(low)
}

// The height after any cell, whose sort stands for the children that it takes off, group by group.
fn reduced_any(stack: &mut [Sort], height: usize, k: layout::Cell) -> Option<usize>
    requires { height < length stack.old }
    ensures { Reduces stack.old height k result stack.new }
{
    let asked = arity::children_of(k.tag, k.flag, k.a, k.b, k.c);
    let below = taken(stack, height, Sort::Agg, asked.aggs)?;
    let low = taken(stack, below, asked.part, asked.parts)?;
    let rest = taken(stack, low, Sort::Node, asked.nodes)?;
    stack[rest] = arity::sort_of(k.tag)?;
    Some(rest + 1)
}

// The height after an operator of two operands. Both are looked at without the loop of `taken`, which takes longer for two.
fn reduced_binary(stack: &mut [Sort], height: usize) -> Option<usize>
    requires { height < length stack.old }
    ensures { Operates stack.old height result stack.new }
{
    let rest = height.checked_sub(2)?;
    if !serves(stack[rest], Sort::Expression) {
        return None;
    }
    if !serves(stack[rest + 1], Sort::Expression) {
        return None;
    }
    stack[rest] = Sort::Expression;
    Some(rest + 1)
}

// The height after a cell. Most are leaves, of tags below 10, or operators of two operands, from 10 And to 18 Multiply: what these take off isn't asked for.
fn reduced(stack: &mut [Sort], height: usize, k: layout::Cell) -> Option<usize>
    requires { height < length stack.old }
    ensures { Reduces stack.old height k result stack.new }
{
    if k.tag < tags::BINARY {
        stack[height] = arity::sort_of(k.tag)?;
        return Some(height + 1);
    }
    if k.tag < tags::EXPONENTIATE {
        return reduced_binary(stack, height);
    }
    reduced_any(stack, height, k)
}

// The place of refusal 8, or nothing where the cells are one plan; with a stack that is lent.
fn lacking_in(s: &[u8], stack: &mut [Sort]) -> Option<usize>
    requires whole { Whole s.now × (bad_cell s.now ≡ none) }
    requires s_in_bounds { cell_count s.now ≤ length stack.old }
    ensures { found result ≡ place (plan_of s.now) }
{
    let parts = layout::parts_of(s);
    let mut height: usize = 0;
    for i in 0..parts.cells.count {
        let k = layout::cell_from(s, parts.cells.at + i * 16);
        let Some(next) = reduced(stack, height, k) else {
            return Some(i);
        };
        height = next;
    }
    if height != 1 {
        return Some(parts.cells.count);
    }
    match stack[0] {
        Sort::Node => None,
        _ => Some(parts.cells.count),
    }
}

// The same with a stack of its own, of N entries.
fn lacking_within<const N: usize>(s: &[u8]) -> Option<usize>
    requires whole { Whole s.now × (bad_cell s.now ≡ none) }
    requires s_in_bounds { (cell_count s.now ≤ N) × (N ≤ 2048) }
    ensures { found result ≡ place (plan_of s.now) }
{
    let mut stack = [Sort::Node; N];
    lacking_in(s, &mut stack)
}

// The place of refusal 8, or nothing. Most plans are small, and a small stack is made faster.
pub fn lacking(s: &[u8]) -> Option<usize>
    requires { Whole s.now × (bad_cell s.now ≡ none) }
    ensures { found result ≡ place (plan_of s.now) }
{
    if layout::parts_of(s).cells.count <= 64 {
        lacking_within::<64>(s)
    } else {
        lacking_within::<2048>(s)
    }
}
