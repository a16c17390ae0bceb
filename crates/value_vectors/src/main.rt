// Replays vectors of value operations, as answered by the compiled Rust, from standard input.
//
// A vector has 32 bytes: the operator's tag (document 01's; 0 rounds an Integer to a double), the tags of its two operands (a constant's tag; the
// second is 0 where there is one operand), the tag of its result or the number of its refusal, the lengths of the operands that are Strings, two
// zeros, and 8 bytes each for the first operand, the second and the result: a Boolean's 0 or 1, an Integer's or Float's 64 bits, a String's bytes.
// tools/value_vectors makes them.
#![tactic(auto)]

ghost use Rattle.std.specs.Prelude.{◌+◌, ◌≤◌};

use std::io::{self, ErrorKind, Read};
use value::{Error, Value};

fn main(rt: HostRuntime) -> io::Result<()> {
    let mut input = rt.reader();
    let mut count: u64 = 0;
    let mut different: u64 = 0;
    while count < 1000000000 {
        let mut vector = [0u8; 32];
        match input.read_exact(&mut vector) {
            Ok(()) => {}
            Err(e) if e.kind() == ErrorKind::UnexpectedEof => break,
            Err(e) => return Err(e),
        }
        count += 1;
        if !agrees(&vector) {
            different += 1;
            report(&rt, count, different)?;
        }
    }
    println!(rt; "{count} vectors, {different} different")
}

// Names the first few vectors that differ, counted from 1.
fn report(rt: &impl Print, vector: u64, different: u64) -> io::Result<()> {
    if different <= 10 {
        println!(rt; "vector {vector} differs")?;
    }
    Ok(())
}

// Whether an operator gives a vector's result.
fn agrees(vector: &[u8; 32]) -> bool {
    let lhs = operand(vector[1], vector[4], 8, word(vector, 8));
    let rhs = operand(vector[2], vector[5], 16, word(vector, 16));
    is_result(
        evaluate(vector[0], vector, lhs, rhs),
        vector[3],
        word(vector, 24),
    )
}

// An operand by its tag. A String refers to the vector's own bytes.
fn operand(tag: u8, length: u8, at: u32, bits: u64) -> Value
    requires { at ≤ 16 }
{
    match tag {
        2 => Value::Boolean(bits != 0),
        3 => Value::Integer(value::integer_of_bits(bits)),
        4 => Value::Float(value::float_of_bits(bits)),
        5 => Value::String(at + 65536 * wide32(length)),
        _ => Value::Null,
    }
}

fn evaluate(operator: u8, text: &[u8], lhs: Value, rhs: Value) -> Result<Value, Error> {
    match operator {
        0 => rounded(lhs),
        10 => value::logic::and(lhs, rhs),
        11 => value::logic::or(lhs, rhs),
        12 => comparison::equal(text, lhs, rhs),
        13 => comparison::greater_than(text, lhs, rhs),
        14 => comparison::less_than(text, lhs, rhs),
        15 => arithmetic::checked_add(lhs, rhs),
        16 => arithmetic::checked_div(lhs, rhs),
        17 => arithmetic::checked_sub(lhs, rhs),
        18 => arithmetic::checked_mul(lhs, rhs),
        30 => value::logic::not(lhs),
        31 => value::is_null(lhs),
        32 => value::is_nan(lhs),
        33 => arithmetic::identity(lhs),
        34 => arithmetic::negate(lhs),
        36 => arithmetic::square_root(lhs),
        _ => Ok(Value::String(0)),
    }
}

fn rounded(v: Value) -> Result<Value, Error> {
    match v {
        Value::Integer(i) => Ok(Value::Float(ieee754::nearest_f64(i))),
        _ => Ok(Value::String(0)),
    }
}

// Whether a result is the one that a tag, or a refusal's number, and 64 bits give.
fn is_result(r: Result<Value, Error>, tag: u8, bits: u64) -> bool {
    match r {
        Ok(v) => tag_of(v) == tag && bits_of(v) == bits,
        Err(e) => e.number() == wide32(tag) && bits == 0,
    }
}

// No result is a String, so that 255, which no vector has, makes each differ.
fn tag_of(v: Value) -> u8 {
    match v {
        Value::Null => 1,
        Value::Boolean(_) => 2,
        Value::Integer(_) => 3,
        Value::Float(_) => 4,
        Value::String(_) => 255,
    }
}

fn bits_of(v: Value) -> u64 {
    match v {
        Value::Null => 0,
        Value::Boolean(b) => { if b { 1 } else { 0 } }
        Value::Integer(i) => value::integer_bits(i),
        Value::Float(x) => value::float_bits(x),
        Value::String(_) => 0,
    }
}

// 8 bytes, the lowest first.
fn word(vector: &[u8; 32], at: usize) -> u64
    requires { at + 8 ≤ 32 }
{
    let mut bytes = [0u8; 8];
    bytes.copy_from_slice(&vector[at..at + 8]);
    u64::from_le_bytes(bytes)
}

fn wide32(x: u8) -> u32
    ensures { result ≤ 255 }
{
    u32::from(x)
}
