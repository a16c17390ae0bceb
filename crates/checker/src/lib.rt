// The operation `check`: every byte string gets success or one refusal, 2 to 10, with its place.
#![tactic(auto)]

ghost use Rattle.std.specs.Prelude.{◌≡◌, OnOk};
ghost use Rattle.std.proofs.Math.Option.{none};
ghost use Rattle.sql.specs.Answer as Sql;
ghost use Rattle.sql.specs.Plan.{Node};
ghost use Rattle.sheet.specs.Cell.{bad_cell};
ghost use Rattle.sheet.specs.Check;
ghost use Rattle.sheet.specs.Check.{cells_checked};
ghost use Rattle.layout.specs.Layout.{Whole};
ghost use Rattle.checker.specs.Refusals.{refusal_of};
ghost use Rattle.checker.specs.Checker.{numbers, answered, unless_refused, parts_checked};

pub mod refusals;

pub use refusals::Refusal;

// What an operation returns: 0 or a refusal's number, its place, and of a success the length of the sheet handed out (0 for `check`), its cells and
// its columns.
#[repr(C)]
#[derive(Clone, Copy)]
pub struct Answer {
    pub number: usize,
    pub place: usize,
    pub length: usize,
    pub cells: usize,
    pub columns: usize,
}

// A refusal by its number, for operations that have no `Refusal` at hand.
pub fn refusal(number: usize, place: usize) -> Answer
    ensures { numbers result ≡ Check.refusal number place }
{
    Answer {
        number,
        place,
        length: 0,
        cells: 0,
        columns: 0,
    }
}

impl From<Refusal> for Answer {
    ghost from_gives = { λ r a. numbers a ≡ refusal_of r };

    fn from(r: Refusal) -> Answer {
        Answer {
            number: r.number(),
            place: r.place(),
            length: 0,
            cells: 0,
            columns: 0,
        }
    }
}

// What an accepted sheet counts: its cells, and the columns of its plan.
#[derive(Clone, Copy)]
pub struct Counts {
    pub cells: usize,
    pub columns: usize,
}

// The operation, as C calls it.
pub fn check(s: &[u8]) -> Answer
    ensures { numbers result ≡ Check.check s.now }
{
    match accepted(s) {
        Ok(Counts { cells, columns }) => Answer {
            number: 0,
            place: 0,
            length: 0,
            cells,
            columns,
        },
        Err(cause) => Answer::from(cause),
    }
}

// What the sheet counts, or the cause of its refusal: the first that is met, in the order of their numbers.
pub fn accepted(s: &[u8]) -> Result<Counts, Refusal>
    ensures { answered result ≡ Check.check s.now }
{
    check_parts(s)?;
    check_cells(s)?;
    if let Some(i) = structure::lacking(s) {
        return Err(Refusal::NotOnePlan(i));
    }
    let columns = match scope::outside(s) {
        Ok(columns) => columns,
        Err(i) => return Err(Refusal::OutOfScope(i)),
    };
    if let Some(i) = targets::target_repeated(s) {
        return Err(Refusal::RepeatedTarget(i));
    }
    let cells = layout::parts_of(s).cells.count;
    Ok(Counts { cells, columns })
}

// Refusals 2 to 5.
fn check_parts(s: &[u8]) -> Result<(), Refusal>
    ensures refuses { (next : Sql.Answer Node) → unless_refused result next ≡ parts_checked s.now next }
    ensures whole { OnOk result (Whole s.now) }
{
    if !layout::length_ok(s) {
        return Err(Refusal::Length);
    }
    if !layout::edition_ok(s) {
        return Err(Refusal::Edition);
    }
    if !layout::parts_ok(s) {
        return Err(Refusal::Parts);
    }
    if let Some(i) = layout::bad_record(s) {
        return Err(Refusal::Record(i));
    }
    Ok(())
}

// Refusals 6 and 7, which come from one walk.
fn check_cells(s: &[u8]) -> Result<(), Refusal>
    requires { Whole s.now }
    ensures refuses { (next : Sql.Answer Node) → unless_refused result next ≡ cells_checked s.now (bad_cell s.now) next }
    ensures well_laid { OnOk result (bad_cell s.now ≡ none) }
{
    let Some(i) = layout::bad_cell(s) else {
        return Ok(());
    };
    if layout::bad_number(layout::cell_at(s, i).tag) == 7 {
        return Err(Refusal::NotCarried(i));
    }
    Err(Refusal::Cell(i))
}
