// value.rs: the values of expressions, and what And, Or, Not, Is Null and Is NaN give of them. The other operators are in crates arithmetic and comparison.
#![tactic(auto)]

ghost use Rattle.std.specs.Prelude.{ℕ, ◌≡◌, List};
ghost use Rattle.std.specs.Float.Ieee as Ieee;
ghost use Rattle.std.specs.Float.{binary64};
ghost use Rattle.value.specs.Meaning.{meaning, error, outcome_of, integer_bits, integer_of_bits};
ghost use Rattle.value.specs.Value.{number};
ghost use Rattle.value.specs.Undefined.{is_undefined, is_null, is_nan};

pub mod logic;

// A value of an expression.
#[derive(Clone, Copy)]
pub enum Value {
    // An unknown value of unknown type, SQL's NULL.
    Null,
    Boolean(bool),
    Integer(i64),
    Float(f64),
    // A text reference: offset + 65,536 × length, into the text of the sheet.
    String(u32),
}

// Why an operator has no value.
#[derive(Clone, Copy, PartialEq, Eq)]
pub enum Error {
    // an Integer outside 64 bits
    Overflow,
    // an Integer divided by the Integer 0
    DivisionByZero,
    // operands whose kinds don't fit
    Mismatch,
}

impl Error {
    // The number of the refusal that an error gives.
    pub fn number(self) -> u32
        ensures { result ≡ number (error self) }
    {
        match self {
            Error::Overflow => 11,
            Error::DivisionByZero => 12,
            Error::Mismatch => 13,
        }
    }
}

// A Float's 64-bit pattern; a NaN's is the one that a sheet allows, since compiled code may hold any.
pub fn float_bits(x: f64) -> u64
    ensures { result ≡ Ieee.to_bits binary64 x }
{
    if x.is_nan() {
        return 0x7FF8000000000000;
    }
    f64::to_bits(x)
}

// The Float of a 64-bit pattern; each NaN's pattern gives NaN.
pub fn float_of_bits(bits: u64) -> f64
    ensures { result ≡ Ieee.of_bits binary64 bits }
{
    if 0x7FF0000000000000 < bits % 0x8000000000000000 {
        return 0.0 / 0.0;
    }
    f64::from_bits(bits)
}

// An Integer's 64 bits, in two's complement.
pub fn integer_bits(i: i64) -> u64
    ensures { result ≡ integer_bits i }
{
    i.cast_unsigned()
}

// The Integer of 64 bits.
pub fn integer_of_bits(bits: u64) -> i64
    ensures { result ≡ integer_of_bits bits }
{
    bits.cast_signed()
}

// Whether a value is undefined: Null or NaN.
#[tactic(auto, using(crate::proofs::Laws::nan_test))]
pub fn is_undefined(v: Value) -> bool
    ensures { (text : List ℕ) → result ≡ is_undefined (meaning text v) }
{
    match v {
        Value::Null => true,
        Value::Float(x) => x.is_nan(),
        _ => false,
    }
}

// IS NULL.
pub fn is_null(v: Value) -> Result<Value, Error>
    ensures { (text : List ℕ) → outcome_of text result ≡ is_null (meaning text v) }
{
    Ok(Value::Boolean(matches!(v, Value::Null)))
}

// IS NAN, of a Float or Null.
#[tactic(auto, using(crate::proofs::Laws::nan_test))]
pub fn is_nan(v: Value) -> Result<Value, Error>
    ensures { (text : List ℕ) → outcome_of text result ≡ is_nan (meaning text v) }
{
    match v {
        Value::Null => Ok(Value::Null),
        Value::Float(x) => Ok(Value::Boolean(x.is_nan())),
        _ => Err(Error::Mismatch),
    }
}
