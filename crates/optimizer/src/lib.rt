// optimizer.rs, OPTIMIZERS: one pass by its number, and the five in turn, on plans in their working form (crate passes).
#![tactic(auto)]

ghost use Rattle.std.specs.Prelude.{◌≡◌, ◌≤◌, length};
ghost use Rattle.sql.specs.Optimizer.{in_turn};
ghost use Rattle.sql.specs.Room;
ghost use Rattle.passes.specs.Passes.{Lent, PlanAt, Alike, Runs, ForAll};
ghost use Rattle.optimizer.specs.Choices.{Choice, chosen};
ghost use Rattle.optimizer.specs.Settled.{from_pushdown, from_lookup, from_hash};

use passes::Refused;

// One pass by its number, 1 to 5. The plan that it gives is in y.
pub fn pass(
    k: usize,
    text: &[u8],
    x: &mut [u32],
    y: &mut [u32],
    z: &mut [u32],
    w: &mut [u32],
    t: usize,
    tables: &[u8],
    columns: &[u8],
) -> Result<usize, Refused>
    requires le_k { (1 ≤ k) × (k ≤ 5) }
    requires plan_at { PlanAt (ForAll text.now tables.now columns.now) x.old t }
    requires alike { Alike x.old y.old z.old w.old }
    ensures { Runs (ForAll text.now tables.now columns.now) (λ room schema p. Room.pass room schema k p) x.old t y.new result }
{
    if k == 1 {
        return passes::fold(text, x, y, t);
    }
    if k == 2 {
        return passes::push_down(x, y, z, w, t, tables);
    }
    if k == 3 {
        return passes::look_up(x, y, z, w, t, tables, columns);
    }
    if k == 4 {
        return passes::hash_join(x, y, t, tables);
    }
    passes::short_circuit(x, y, z, t, tables, columns)
}

// The passes from the fourth on. The plan that they give is in z.
fn from_hash(
    x: &mut [u32],
    y: &mut [u32],
    z: &mut [u32],
    t: usize,
    tables: &[u8],
    columns: &[u8],
) -> Result<usize, Refused>
    requires plan_at { PlanAt (Lent tables.now columns.now) x.old t }
    requires y_len { (length y.old ≡ length x.old) × (length z.old ≡ length x.old) }
    ensures { Runs (Lent tables.now columns.now) (λ room schema p. in_turn (from_hash room schema) p) x.old t z.new result }
{
    let n = passes::hash_join(x, y, t, tables)?;
    passes::short_circuit(y, z, x, n, tables, columns)
}

// The passes from the third on. The plan that they give is in y.
fn from_lookup(
    x: &mut [u32],
    y: &mut [u32],
    z: &mut [u32],
    w: &mut [u32],
    t: usize,
    tables: &[u8],
    columns: &[u8],
) -> Result<usize, Refused>
    requires plan_at { PlanAt (Lent tables.now columns.now) x.old t }
    requires alike { Alike x.old y.old z.old w.old }
    ensures { Runs (Lent tables.now columns.now) (λ room schema p. in_turn (from_lookup room schema) p) x.old t y.new result }
{
    let n = passes::look_up(x, z, y, w, t, tables, columns)?;
    from_hash(z, x, y, n, tables, columns)
}

// The passes from the second on. The plan that they give is in y. The second to the fourth leave a plan without a predicate as it is (crate predicates), and aren't
// run then.
fn from_pushdown(
    x: &mut [u32],
    y: &mut [u32],
    z: &mut [u32],
    w: &mut [u32],
    t: usize,
    tables: &[u8],
    columns: &[u8],
) -> Result<usize, Refused>
    requires plan_at { PlanAt (Lent tables.now columns.now) x.old t }
    requires alike { Alike x.old y.old z.old w.old }
    ensures { Runs (Lent tables.now columns.now) (λ room schema p. in_turn (from_pushdown room schema) p) x.old t y.new result }
{
    if !predicates::has_predicate(x, t) {
        return passes::short_circuit(x, y, z, t, tables, columns);
    }
    let n = passes::push_down_in_place(x, y, z, w, t, tables)?;
    from_lookup(x, y, z, w, n, tables, columns)
}

// All five in turn. The plan that they give is in y.
pub fn optimize(
    text: &[u8],
    x: &mut [u32],
    y: &mut [u32],
    z: &mut [u32],
    w: &mut [u32],
    t: usize,
    tables: &[u8],
    columns: &[u8],
) -> Result<usize, Refused>
    requires plan_at { PlanAt (ForAll text.now tables.now columns.now) x.old t }
    requires alike { Alike x.old y.old z.old w.old }
    ensures { Runs (ForAll text.now tables.now columns.now) (λ room schema p. Room.optimize room schema p) x.old t y.new result }
{
    let n = passes::fold(text, x, z, t)?;
    from_pushdown(z, y, x, w, n, tables, columns)
}

// Which passes: one by its number, or all five.
#[derive(Clone, Copy)]
pub enum Chosen {
    One(usize),
    All,
}

// The chosen passes. The plan that they give is in y.
pub fn run(
    c: Chosen,
    text: &[u8],
    x: &mut [u32],
    y: &mut [u32],
    z: &mut [u32],
    w: &mut [u32],
    t: usize,
    tables: &[u8],
    columns: &[u8],
) -> Result<usize, Refused>
    requires choice { Choice c }
    requires plan_at { PlanAt (ForAll text.now tables.now columns.now) x.old t }
    requires alike { Alike x.old y.old z.old w.old }
    ensures { Runs (ForAll text.now tables.now columns.now) (chosen c) x.old t y.new result }
{
    match c {
        Chosen::One(k) => pass(k, text, x, y, z, w, t, tables, columns),
        Chosen::All => optimize(text, x, y, z, w, t, tables, columns),
    }
}
