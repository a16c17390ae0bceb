// Logical AND, OR and NOT. Operands must be Booleans or Null.
ghost use Rattle.std.specs.Prelude.{ℕ, ◌≡◌, List};
ghost use Rattle.value.specs.Meaning.{meaning, outcome_of, table_of};
ghost use Rattle.value.specs.Logic.{logical, logical_not, logical_and, logical_or};

use crate::{Error, Value};

pub fn not(v: Value) -> Result<Value, Error>
    ensures { (text : List ℕ) → outcome_of text result ≡ logical_not (meaning text v) }
{
    match v {
        Value::Boolean(b) => Ok(Value::Boolean(!b)),
        Value::Null => Ok(Value::Null),
        _ => Err(Error::Mismatch),
    }
}

pub fn and(lhs: Value, rhs: Value) -> Result<Value, Error>
    ensures { (text : List ℕ) → outcome_of text result ≡ logical_and (meaning text lhs) (meaning text rhs) }
{
    decided_by(false, lhs, rhs)
}

pub fn or(lhs: Value, rhs: Value) -> Result<Value, Error>
    ensures { (text : List ℕ) → outcome_of text result ≡ logical_or (meaning text lhs) (meaning text rhs) }
{
    decided_by(true, lhs, rhs)
}

// AND is decided by a side that is false, OR by one that is true.
fn decided_by(decisive: bool, lhs: Value, rhs: Value) -> Result<Value, Error>
    ensures { (text : List ℕ) → outcome_of text result ≡ logical (table_of decisive) (meaning text lhs) (meaning text rhs) }
{
    let value = match (lhs, rhs) {
        (Value::Boolean(a), Value::Boolean(b)) => Value::Boolean(if a == decisive { a } else { b }),
        (Value::Boolean(b), Value::Null) | (Value::Null, Value::Boolean(b)) if b == decisive =>
            Value::Boolean(b),
        (Value::Boolean(_), Value::Null) | (Value::Null, Value::Boolean(_) | Value::Null) =>
            Value::Null,
        _ => return Err(Error::Mismatch),
    };
    Ok(value)
}
