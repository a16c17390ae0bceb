// optimizer.rs, ConstantFolding: `fold` of one operator in its working form, whose operands are folded already and stand in the slice that is written.
#![tactic(auto)]

ghost use Rattle.std.specs.Prelude.{ℕ, ◌+◌, ◌≤◌, ◌<◌, ◌≡◌};
ghost use Rattle.fold_operator.specs.Steps.{boolean_cell, OperandOf, Deciding, Neutral, Writes, UnaryAt, FoldsUnary, OperandsAt, Simplifies, BinaryAt, FoldsBinary, OperandAt, FoldsNeutral};

use cells::Cell;
use value::{Error, Value};

// Why an operator has no value, and the number of its cell. What folds gives where what it has written ends, or such a failure.
#[derive(Clone, Copy)]
pub struct Failure {
    pub error: Error,
    pub place: usize,
}

// Whether a cell is the Boolean with number b.
fn is_boolean(k: Cell, b: u32) -> bool
    ensures { result ≡ boolean_cell k b }
{
    k.tag == tags::BOOLEAN && k.a == b
}

// Whether the operand with cell k decides the operator with tag o: false does And, true does Or.
fn is_deciding(o: u32, k: Cell) -> bool
    ensures { Deciding o k result }
{
    if o == tags::AND {
        return is_boolean(k, 0);
    }
    if o == tags::OR {
        return is_boolean(k, 1);
    }
    false
}

// Whether the operand with cell k leaves And or Or, which has tag o, to the other operand.
pub fn is_neutral(o: u32, k: Cell) -> bool
    requires { OperandOf o k }
    ensures { Neutral o k result }
{
    if o == tags::AND {
        return is_boolean(k, 1);
    }
    if o == tags::OR {
        return is_boolean(k, 0);
    }
    false
}

// The cell of the operator with tag o.
fn operator(o: u32, origin: u32) -> Cell
    ensures { result ≡ record { origin = origin; tag = o; flag = 0; a = 0; b = 0; c = 0 } }
{
    Cell {
        origin,
        tag: o,
        flag: 0,
        a: 0,
        b: 0,
        c: 0,
    }
}

// The cell k with another origin.
fn with_origin(k: Cell, origin: u32) -> Cell
    ensures { result ≡ record { origin = origin; tag = k.tag; flag = k.flag; a = k.a; b = k.b; c = k.c } }
{
    Cell { origin, ..k }
}

// An operator's value, as a constant with the operator's origin, after the first `at` words of d, or the refusal for its error.
fn write(
    d: &mut [u32],
    at: usize,
    r: Result<Value, Error>,
    place: usize,
    origin: u32,
) -> Result<usize, Failure>
    ensures { Writes d.old at r place origin result d.new }
{
    match r {
        Ok(v) => Ok(cells::put(d, at, at, evaluate::cell_of(v, origin))),
        Err(error) => Err(Failure { error, place }),
    }
}

// `fold` of the operator with tag o, whose operand stands in d from `at` to n.
pub fn fold_unary(
    d: &mut [u32],
    at: usize,
    n: usize,
    o: u32,
    place: usize,
    origin: u32,
) -> Result<usize, Failure>
    requires { UnaryAt d.old at n o }
    ensures { FoldsUnary d.old at n o place origin result d.new }
{
    let k = cells::cell_at(d, n);
    if tags::COLUMN <= k.tag {
        return Ok(cells::put(d, at, n, operator(o, origin)));
    }
    write(
        d,
        at,
        evaluate::evaluate_unary(o, evaluate::value_of(k)),
        place,
        origin,
    )
}

// And and Or with a constant side, the left one not neutral: `simplify` of the operator with tag o, whose operands stand in d from `at` to m and to n. An operand
// that decides becomes the operator's constant, with the operator's origin; one that is left alone keeps its own.
fn simplify(d: &mut [u32], at: usize, m: usize, n: usize, o: u32, origin: u32) -> usize
    requires { OperandsAt d.old at m n o }
    ensures { Simplifies d.old at m n o origin result d.new }
{
    let j = cells::cell_at(d, m);
    if is_deciding(o, j) {
        return cells::put(d, at, at, with_origin(j, origin));
    }
    let k = cells::cell_at(d, n);
    if is_deciding(o, k) {
        return cells::put(d, at, at, with_origin(k, origin));
    }
    if is_neutral(o, k) {
        return m;
    }
    cells::put(d, at, n, operator(o, origin))
}

// `fold` of the operator with tag o, whose operands stand in d from `at` to m and to n, the left one not neutral.
pub fn fold_binary(
    text: &[u8],
    d: &mut [u32],
    at: usize,
    m: usize,
    n: usize,
    o: u32,
    place: usize,
    origin: u32,
) -> Result<usize, Failure>
    requires { BinaryAt text.now d.old at m n o }
    ensures { FoldsBinary text.now d.old at m n o place origin result d.new }
{
    let left = cells::cell_at(d, m);
    if tags::COLUMN <= left.tag {
        return Ok(simplify(d, at, m, n, o, origin));
    }
    let right = cells::cell_at(d, n);
    if tags::COLUMN <= right.tag {
        return Ok(simplify(d, at, m, n, o, origin));
    }
    write(
        d,
        at,
        evaluate::evaluate_binary(text, o, evaluate::value_of(left), evaluate::value_of(right)),
        place,
        origin,
    )
}

// `fold` of And or Or, whose left operand is neutral, and whose right one stands in d from `at` to n: that operand, if it is no constant but Null or a Boolean. A
// constant takes the operator's origin.
pub fn fold_neutral(
    d: &mut [u32],
    at: usize,
    n: usize,
    place: usize,
    origin: u32,
) -> Result<usize, Failure>
    requires { OperandAt d.old at n }
    ensures { FoldsNeutral d.old at n place origin result d.new }
{
    let k = cells::cell_at(d, n);
    if k.tag < tags::INTEGER {
        return Ok(cells::put(d, at, at, with_origin(k, origin)));
    }
    if k.tag < tags::COLUMN {
        return Err(Failure {
            error: Error::Mismatch,
            place,
        });
    }
    Ok(n)
}
