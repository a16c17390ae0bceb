// The five optimizers of optimizer.rs on plans in their working form, under one contract: the plan is the first t words of x, and what becomes of it is left in
// the first words of y, or refused. x, y, z and w have the same length, seven words for each cell that there is room for. What the schema says is lent in
// its records (crate records).
#![tactic(auto)]

ghost use Rattle.std.specs.Prelude.{◌≡◌, length};
ghost use Rattle.sql.specs.Answer.{done};
ghost use Rattle.sql.specs.Optimizer as Optimizer;
ghost use Rattle.sql.specs.Room;
ghost use Rattle.records.specs.Records.{Records, Tables};
ghost use Rattle.passes.specs.declared.Refused.TheVariants.{Failed};
ghost use Rattle.passes.specs.Passes.{Lent, PlanAt, Alike, Runs, Ends, ForFolding};

use fold_operator::Failure;

// Why a pass refuses.
#[derive(Clone, Copy)]
pub enum Refused {
    // The plan that it leaves is too long for the slices.
    NoRoom,
    // An operator that it folds has no value.
    Failed(Failure),
}

impl From<Failure> for Refused {
    ghost from_gives = { λ why r. r ≡ Failed why };

    fn from(why: Failure) -> Refused {
        Refused::Failed(why)
    }
}

// What stands in the first n words of d, or that there is no room where n is past its end.
fn in_room(d: &[u32], n: usize) -> Result<usize, Refused>
    ensures { Ends d.now n result }
{
    if d.len() < n {
        return Err(Refused::NoRoom);
    }
    Ok(n)
}

// Pass 1, from x to y.
pub fn fold(text: &[u8], x: &[u32], y: &mut [u32], t: usize) -> Result<usize, Refused>
    requires plan_at { PlanAt (ForFolding text.now) x.now t }
    requires y_len { length y.old ≡ length x.now }
    ensures { Runs (ForFolding text.now) (λ room schema p. Optimizer.ConstantFolding 0 p) x.now t y.new result }
{
    let n = constant_folding::constant_folding(text, x, t, y)?;
    Ok(n)
}

// Pass 2, in x. y, z and w are scratch.
pub fn push_down_in_place(
    x: &mut [u32],
    y: &mut [u32],
    z: &mut [u32],
    w: &mut [u32],
    t: usize,
    tables: &[u8],
) -> Result<usize, Refused>
    requires plan_at { PlanAt (λ schema text. Tables tables.now schema) x.old t }
    requires alike { Alike x.old y.old z.old w.old }
    ensures { Runs (λ schema text. Tables tables.now schema) (λ room schema p. Room.FilterPushdown room schema 0 p) x.old t x.new result }
{
    let n = filter_pushdown::filter_pushdown(x, y, z, w, t, tables);
    in_room(x, n)
}

// Pass 2, in x, and then copied to y.
pub fn push_down(
    x: &mut [u32],
    y: &mut [u32],
    z: &mut [u32],
    w: &mut [u32],
    t: usize,
    tables: &[u8],
) -> Result<usize, Refused>
    requires plan_at { PlanAt (λ schema text. Tables tables.now schema) x.old t }
    requires alike { Alike x.old y.old z.old w.old }
    ensures { Runs (λ schema text. Tables tables.now schema) (λ room schema p. Room.FilterPushdown room schema 0 p) x.old t y.new result }
{
    let n = push_down_in_place(x, y, z, w, t, tables)?;
    Ok(cells::copy(x, 0, n, y, 0))
}

// Pass 3, from x to y.
pub fn look_up(
    x: &[u32],
    y: &mut [u32],
    z: &mut [u32],
    w: &mut [u32],
    t: usize,
    tables: &[u8],
    columns: &[u8],
) -> Result<usize, Refused>
    requires plan_at { PlanAt (λ schema text. Records tables.now columns.now schema) x.now t }
    requires alike { Alike x.now y.old z.old w.old }
    ensures { Runs (λ schema text. Records tables.now columns.now schema) (λ room schema p. Room.IndexLookup room schema 0 p) x.now t y.new result }
{
    let n = index_lookup::transform(x, 0, t, 0, y, 0, z, w, tables, columns);
    in_room(y, n)
}

// Pass 4, from x to y.
pub fn hash_join(x: &[u32], y: &mut [u32], t: usize, tables: &[u8]) -> Result<usize, Refused>
    requires plan_at { PlanAt (λ schema text. Tables tables.now schema) x.now t }
    requires y_len { length y.old ≡ length x.now }
    ensures { Runs (λ schema text. Tables tables.now schema) (λ room schema p. done (Optimizer.HashJoin schema p)) x.now t y.new result }
{
    let n = hash_join::optimize(x, t, y, tables);
    in_room(y, n)
}

// Pass 5, from x to y.
pub fn short_circuit(
    x: &[u32],
    y: &mut [u32],
    z: &mut [u32],
    t: usize,
    tables: &[u8],
    columns: &[u8],
) -> Result<usize, Refused>
    requires plan_at { PlanAt (Lent tables.now columns.now) x.now t }
    requires y_len { (length y.old ≡ length x.now) × (length z.old ≡ length x.now) }
    ensures { Runs (Lent tables.now columns.now) (λ room schema p. Room.ShortCircuit room schema 0 p) x.now t y.new result }
{
    let n = short_circuit::short_circuit(x, 0, t, 0, y, 0, z, tables, columns);
    in_room(y, n)
}
