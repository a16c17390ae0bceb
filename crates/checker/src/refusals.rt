// Why an operation refuses, by cause: what FORMAT.md's table of refusals has in numbers. A program in C gets these as an `Answer`; Rust's `?` hands them on.

ghost use Rattle.std.specs.Prelude.{◌≡◌};
ghost use Rattle.checker.specs.Refusals.{number_of, place_of};

#[derive(Clone, Copy, Debug, PartialEq, Eq)]
pub enum Refusal {
    // 1: the pass asked for is not 1 to 5
    Pass,
    // 2: too short or too long, or the last word is not the length
    Length,
    // 3: the edition is neither 1 nor 2
    Edition,
    // 4: a part out of order, not whole, or over its limit; no cell
    Parts,
    // 5: the record that breaks its layout
    Record(usize),
    // 6: the cell that breaks its layout
    Cell(usize),
    // 7: the cell of an operator that is known and not carried over
    NotCarried(usize),
    // 8: the cell that lacks its children, or the number of cells if they are not one plan
    NotOnePlan(usize),
    // 9: the Column or node out of scope
    OutOfScope(usize),
    // 10: the later of two Targets with the same number
    RepeatedTarget(usize),
    // 11: the operator's cell, where folding gives an Integer outside 64 bits
    Overflow(usize),
    // 12: likewise, where it divides an Integer by the Integer 0
    DivisionByZero(usize),
    // 13: likewise, of operand kinds that don't fit
    Mismatch(usize),
    // 14: a plan or a condition's normal form with too many cells, or too much text
    NoRoom,
    // 15: the bytes that the output needs
    OutputTooShort(usize),
    // 21: the edition asked for is neither 1 nor 2, or is the sheet's own
    OtherEdition,
}

impl Refusal {
    // The number that stands for the cause.
    pub fn number(self) -> usize
        ensures { result ≡ number_of self }
    {
        match self {
            Refusal::Pass => 1,
            Refusal::Length => 2,
            Refusal::Edition => 3,
            Refusal::Parts => 4,
            Refusal::Record(_) => 5,
            Refusal::Cell(_) => 6,
            Refusal::NotCarried(_) => 7,
            Refusal::NotOnePlan(_) => 8,
            Refusal::OutOfScope(_) => 9,
            Refusal::RepeatedTarget(_) => 10,
            Refusal::Overflow(_) => 11,
            Refusal::DivisionByZero(_) => 12,
            Refusal::Mismatch(_) => 13,
            Refusal::NoRoom => 14,
            Refusal::OutputTooShort(_) => 15,
            Refusal::OtherEdition => 21,
        }
    }

    // The place, which is 0 where a cause has none.
    pub fn place(self) -> usize
        ensures { result ≡ place_of self }
    {
        match self {
            Refusal::Record(i)
            | Refusal::Cell(i)
            | Refusal::NotCarried(i)
            | Refusal::NotOnePlan(i)
            | Refusal::OutOfScope(i)
            | Refusal::RepeatedTarget(i)
            | Refusal::Overflow(i)
            | Refusal::DivisionByZero(i)
            | Refusal::Mismatch(i)
            | Refusal::OutputTooShort(i) => i,
            _ => 0,
        }
    }
}
