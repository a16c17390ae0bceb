// expression.rs, evaluate: the operators on constants, each by the tag of its cell; and a constant's cell as a value, and back.
#![tactic(auto)]

ghost use Rattle.std.specs.Prelude.{◌≡◌, List, ℕ, ◌≤◌, ◌<◌};
ghost use Rattle.value.specs.Meaning.{meaning};
ghost use Rattle.sheet.specs.Cell.{wide};
ghost use Rattle.sheet.specs.Content.{constant_cell};
ghost use Rattle.words.specs.Words.{cell};
ghost use Rattle.evaluate.specs.Evaluate.{of_halves, ConstantCell, Reads, UnaryTag, BinaryTag, EvaluatesUnary, EvaluatesBinary};

use cells::Cell;
use value::{Error, Value};

// The value that a constant's cell says.
pub fn value_of(k: Cell) -> Value
    requires { ConstantCell k }
    ensures { Reads k result }
{
    match k.tag {
        tags::NULL => Value::Null,
        tags::BOOLEAN => Value::Boolean(k.a == 1),
        tags::INTEGER => Value::Integer(value::integer_of_bits(joined(k.a, k.b))),
        tags::FLOAT => Value::Float(value::float_of_bits(joined(k.a, k.b))),
        _ => Value::String(k.a),
    }
}

// The cell of a constant with this value and origin.
#[tactic(auto, using(crate::proofs::Laws::null_cell, crate::proofs::Laws::boolean_cell, crate::proofs::Laws::integer_cell, crate::proofs::Laws::float_cell, crate::proofs::Laws::string_cell))]
pub fn cell_of(v: Value, origin: u32) -> Cell
    ensures { (text : List ℕ) → result ≡ cell origin (constant_cell (meaning text v)) }
{
    match v {
        Value::Null => constant(tags::NULL, 0, origin),
        Value::Boolean(b) => constant(tags::BOOLEAN, u64::from(b), origin),
        Value::Integer(i) => constant(tags::INTEGER, value::integer_bits(i), origin),
        Value::Float(x) => constant(tags::FLOAT, value::float_bits(x), origin),
        Value::String(r) => constant(tags::STRING, u64::from(r), origin),
    }
}

// The number of 64 bits from its low and its high half.
fn joined(low: u32, high: u32) -> u64
    requires { (low < 4294967296) × (high < 4294967296) }
    ensures { result ≡ wide low high }
{
    u64::from(low) + 4294967296 * u64::from(high)
}

// The cell with this tag, the halves of a number of 64 bits, and this origin.
fn constant(tag: u32, bits: u64, origin: u32) -> Cell
    ensures { result ≡ of_halves origin tag bits }
{
    Cell {
        origin,
        tag,
        flag: 0,
        a: (bits % 4294967296) as u32,
        b: (bits / 4294967296) as u32,
        c: 0,
    }
}

// The operator with tag o, which has one operand.
pub fn evaluate_unary(o: u32, v: Value) -> Result<Value, Error>
    requires { UnaryTag o }
    ensures { EvaluatesUnary o v result }
{
    match o {
        tags::NOT => value::logic::not(v),
        tags::IS_NULL => value::is_null(v),
        tags::IS_NAN => value::is_nan(v),
        tags::IDENTITY => arithmetic::identity(v),
        tags::SQUARE_ROOT => arithmetic::square_root(v),
        _ => arithmetic::negate(v),
    }
}

// The operator with tag o, which has two operands. Strings refer to bytes of `text`.
pub fn evaluate_binary(text: &[u8], o: u32, v: Value, w: Value) -> Result<Value, Error>
    requires { BinaryTag o }
    ensures { EvaluatesBinary text.now o v w result }
{
    match o {
        tags::AND => value::logic::and(v, w),
        tags::OR => value::logic::or(v, w),
        tags::EQUAL => comparison::equal(text, v, w),
        tags::GREATER_THAN => comparison::greater_than(text, v, w),
        tags::LESS_THAN => comparison::less_than(text, v, w),
        tags::ADD => arithmetic::checked_add(v, w),
        tags::SUBTRACT => arithmetic::checked_sub(v, w),
        tags::MULTIPLY => arithmetic::checked_mul(v, w),
        _ => arithmetic::checked_div(v, w),
    }
}
