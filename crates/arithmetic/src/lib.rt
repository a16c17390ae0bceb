// Addition, subtraction, multiplication, division, identity, negation and the square root. Operands must be numbers or Null.
#![tactic(auto)]

ghost use Rattle.std.specs.Prelude.{ℕ, ◌≡◌, List};
ghost use Rattle.std.specs.Float.Ieee as Ieee;
ghost use Rattle.std.specs.Float.{binary64};
ghost use Rattle.value.specs.Meaning.{meaning, outcome_of};
ghost use Rattle.ieee754.specs.Ieee754.{square_root_bits};
ghost use Rattle.arithmetic.specs.Operands.{answered, largest_magnitude, Operates};
ghost use Rattle.value.specs.Arithmetic.{multiply_integers, divide_integers, checked_add, checked_sub, checked_mul, checked_div, identity, negate, square_root};

use ieee754::{magnitude, nearest_f64};
use value::{Error, Value};

// Adds two values.
pub fn checked_add(lhs: Value, rhs: Value) -> Result<Value, Error>
    ensures { (text : List ℕ) → outcome_of text result ≡ checked_add (meaning text lhs) (meaning text rhs) }
{
    operate(
        lhs,
        rhs,
        |a, b| a.checked_add(b).ok_or(Error::Overflow),
        |x, y| x + y,
    )
}

// Subtracts two values.
pub fn checked_sub(lhs: Value, rhs: Value) -> Result<Value, Error>
    ensures { (text : List ℕ) → outcome_of text result ≡ checked_sub (meaning text lhs) (meaning text rhs) }
{
    operate(
        lhs,
        rhs,
        |a, b| a.checked_sub(b).ok_or(Error::Overflow),
        |x, y| x - y,
    )
}

// Multiplies two values.
pub fn checked_mul(lhs: Value, rhs: Value) -> Result<Value, Error>
    ensures { (text : List ℕ) → outcome_of text result ≡ checked_mul (meaning text lhs) (meaning text rhs) }
{
    operate(lhs, rhs, multiply_integers, |x, y| x * y)
}

// Divides two values.
pub fn checked_div(lhs: Value, rhs: Value) -> Result<Value, Error>
    ensures { (text : List ℕ) → outcome_of text result ≡ checked_div (meaning text lhs) (meaning text rhs) }
{
    operate(lhs, rhs, divide_integers, |x, y| x / y)
}

// An operator with two operands, by what it gives of two Integers and of two Floats. An Integer met by a Float is rounded; Null with a number or Null gives Null.
#[tactic(auto, using(value::proofs::Laws::kept))]
fn operate<I, F>(lhs: Value, rhs: Value, integers: I, floats: F) -> Result<Value, Error>
where
    I: Fn(i64, i64) -> Result<i64, Error>,
    F: Fn(f64, f64) -> f64,
    requires integers { I.IsAlwaysCallable integers }
    requires floats { F.IsAlwaysCallable floats }
    ensures { (text : List ℕ) → Operates (I.post integers) (F.post floats) (meaning text lhs) (meaning text rhs) (outcome_of text result) }
{
    match (lhs, rhs) {
        (Value::Integer(a), Value::Integer(b)) => Ok(Value::Integer(integers(a, b)?)),
        (Value::Integer(a), Value::Float(y)) => Ok(Value::Float(floats(nearest_f64(a), y))),
        (Value::Float(x), Value::Integer(b)) => Ok(Value::Float(floats(x, nearest_f64(b)))),
        (Value::Float(x), Value::Float(y)) => Ok(Value::Float(floats(x, y))),
        (Value::Null, Value::Integer(_) | Value::Float(_) | Value::Null) => Ok(Value::Null),
        (Value::Integer(_) | Value::Float(_), Value::Null) => Ok(Value::Null),
        _ => Err(Error::Mismatch), // also Null + 'a', unlike Null = 'a'
    }
}

// The largest magnitude that a product of Integers with the signs of a and b may have.
#[tactic(auto, using(crate::proofs::Integers::below, crate::proofs::Integers::not_below))]
fn largest_magnitude(a: i64, b: i64) -> u64
    ensures { result ≡ largest_magnitude a b }
{
    if a < 0 {
        if b < 0 {
            return 0x7FFFFFFFFFFFFFFF;
        }
        return 0x8000000000000000;
    }
    if b < 0 {
        return 0x8000000000000000;
    }
    0x7FFFFFFFFFFFFFFF
}

// A product's magnitude is at most n where one factor's is at most n over the other's, so that no
// product is worked out before it is known to fit.
#[tactic(auto, using(crate::proofs::Integers::zero_product, crate::proofs::Integers::divided_fits, crate::proofs::Integers::divided_overflows, crate::proofs::Integers::product_is))]
fn multiply_integers(a: i64, b: i64) -> Result<i64, Error>
    ensures { answered result ≡ multiply_integers a b }
{
    let x = magnitude(a);
    if x == 0 {
        return Ok(0);
    }
    if largest_magnitude(a, b) / x < magnitude(b) {
        return Err(Error::Overflow);
    }
    Ok(a * b)
}

// The quotient, cut toward zero.
#[tactic(auto, using(crate::proofs::Integers::by_zero, crate::proofs::Integers::quotient_is))]
fn divide_integers(a: i64, b: i64) -> Result<i64, Error>
    ensures { answered result ≡ divide_integers a b }
{
    if b == 0 {
        return Err(Error::DivisionByZero);
    }
    a.checked_div(b).ok_or(Error::Overflow)
}

pub fn identity(v: Value) -> Result<Value, Error>
    ensures { (text : List ℕ) → outcome_of text result ≡ identity (meaning text v) }
{
    match v {
        Value::Integer(_) | Value::Float(_) | Value::Null => Ok(v),
        _ => Err(Error::Mismatch),
    }
}

#[tactic(auto, using(value::proofs::Laws::kept, crate::proofs::Integers::checked_is))]
pub fn negate(v: Value) -> Result<Value, Error>
    ensures { (text : List ℕ) → outcome_of text result ≡ negate (meaning text v) }
{
    match v {
        Value::Integer(i) => Ok(Value::Integer(i.checked_neg().ok_or(Error::Overflow)?)),
        Value::Float(x) => Ok(Value::Float(-x)),
        Value::Null => Ok(Value::Null),
        _ => Err(Error::Mismatch),
    }
}

// The square root. An Integer is rounded first.
pub fn square_root(v: Value) -> Result<Value, Error>
    ensures { (text : List ℕ) → outcome_of text result ≡ square_root (meaning text v) }
{
    match v {
        Value::Integer(i @ 0..) => Ok(Value::Float(root_of_float(nearest_f64(i)))),
        Value::Float(x) => Ok(Value::Float(root_of_float(x))),
        Value::Null => Ok(Value::Null),
        _ => Err(Error::Mismatch),
    }
}

// A Float's root, from pattern to pattern.
fn root_of_float(x: f64) -> f64
    ensures { Ieee.to_bits binary64 result ≡ square_root_bits (Ieee.to_bits binary64 x) }
{
    value::float_of_bits(ieee754::square_root_bits(value::float_bits(x)))
}
