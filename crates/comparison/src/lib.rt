// One comparison of two values, and Equal, GreaterThan and LessThan, which take their answer from it.
#![tactic(auto)]

ghost use Rattle.std.specs.Prelude.{ℕ, ◌≡◌, List};
ghost use Rattle.value.specs.Meaning.{meaning, outcome_of, bytes_at};
ghost use Rattle.comparison.specs.Findings.{finding, comparison, ordered};
ghost use Rattle.value.specs.Comparison as Defined;
ghost use Rattle.value.specs.Comparison.{compare_floats, compare_bytes, compare, equal, greater_than, less_than};

use ieee754::nearest_f64;
use std::cmp::Ordering;
use value::{Error, Value};

// What comparing two values finds, if neither is Null.
#[derive(Clone, Copy, PartialEq, Eq)]
pub enum Finding {
    Less,
    Equal,
    Greater,
    // one of them is NaN
    Unordered,
    // their kinds don't fit
    NotComparable,
}

impl From<Ordering> for Finding {
    ghost from_gives = { λ order found. finding found ≡ ordered order };

    fn from(order: Ordering) -> Finding {
        match order {
            Ordering::Less => Finding::Less,
            Ordering::Equal => Finding::Equal,
            Ordering::Greater => Finding::Greater,
        }
    }
}

pub fn equal(text: &[u8], lhs: Value, rhs: Value) -> Result<Value, Error>
    ensures { outcome_of text.now result ≡ equal (meaning text.now lhs) (meaning text.now rhs) }
{
    let found = compare(text, lhs, rhs);
    answer(found, found == Some(Finding::Equal))
}

pub fn greater_than(text: &[u8], lhs: Value, rhs: Value) -> Result<Value, Error>
    ensures { outcome_of text.now result ≡ greater_than (meaning text.now lhs) (meaning text.now rhs) }
{
    let found = compare(text, lhs, rhs);
    answer(found, found == Some(Finding::Greater))
}

pub fn less_than(text: &[u8], lhs: Value, rhs: Value) -> Result<Value, Error>
    ensures { outcome_of text.now result ≡ less_than (meaning text.now lhs) (meaning text.now rhs) }
{
    let found = compare(text, lhs, rhs);
    answer(found, found == Some(Finding::Less))
}

// Null gives Null, and kinds that don't fit are an error; else the answer is `holds`.
fn answer(found: Option<Finding>, holds: bool) -> Result<Value, Error>
    ensures { (text : List ℕ) → outcome_of text result ≡ Defined.answer (comparison found) holds }
{
    match found {
        None => Ok(Value::Null),
        Some(Finding::NotComparable) => Err(Error::Mismatch),
        Some(_) => Ok(Value::Boolean(holds)),
    }
}

// Compares two values, strings by their bytes in `text`. Null comes before kinds, and gives None; false is less than true.
#[tactic(auto, using(value::proofs::Laws::kept, crate::proofs::Orders::integers_ordered))]
pub fn compare(text: &[u8], lhs: Value, rhs: Value) -> Option<Finding>
    ensures { comparison result ≡ compare (meaning text.now lhs) (meaning text.now rhs) }
{
    let found = match (lhs, rhs) {
        (Value::Null, _) | (_, Value::Null) => return None,
        (Value::Boolean(a), Value::Boolean(b)) => Finding::from(a.cmp(&b)),
        (Value::Integer(a), Value::Integer(b)) => Finding::from(a.cmp(&b)),
        (Value::Integer(a), Value::Float(y)) => compare_floats(nearest_f64(a), y),
        (Value::Float(x), Value::Integer(b)) => compare_floats(x, nearest_f64(b)),
        (Value::Float(x), Value::Float(y)) => compare_floats(x, y),
        (Value::String(a), Value::String(b)) => compare_bytes(bytes_at(text, a), bytes_at(text, b)),
        _ => Finding::NotComparable,
    };
    Some(found)
}

#[tactic(auto, using(crate::proofs::Orders::floats_ordered, crate::proofs::Orders::floats_unordered))]
fn compare_floats(x: f64, y: f64) -> Finding
    ensures { finding result ≡ compare_floats x y }
{
    match x.partial_cmp(&y) {
        Some(order) => Finding::from(order),
        None => Finding::Unordered,
    }
}

#[tactic(auto, using(crate::proofs::Orders::bytes_ordered))]
fn compare_bytes(a: &[u8], b: &[u8]) -> Finding
    ensures { finding result ≡ compare_bytes a.now b.now }
{
    Finding::from(a.cmp(&b))
}

// The bytes that a text reference refers to; of one that runs past the text's end, those inside.
pub fn bytes_at(text: &[u8], reference: u32) -> &[u8]
    ensures { result.now ≡ bytes_at text.now reference }
{
    let length = (reference / 65536) as usize;
    let offset = (reference % 65536) as usize;
    let rest = &text[offset.min(text.len())..];
    &rest[..length.min(rest.len())]
}
