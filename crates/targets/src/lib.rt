// Refusal 10 of document 01: no two Targets of one Remap have the same number. The cells are walked once, from the first to the last. A Remap's Targets stand
// behind the last node before it.
#![tactic(auto)]

ghost use Rattle.std.specs.Prelude.{◌≡◌};
ghost use Rattle.layout.specs.Layout.{Whole, as_cell};
ghost use Rattle.scope.specs.Scope.{OnePlan};
ghost use Rattle.targets.specs.Targets.{numbered, target_number, Untargeted, Repeats};

use layout::{Cell, cell_at, parts_of};

// The number of a Target that has one. A number from 256 on is none: no sheet that is one plan has it.
fn target_number(k: Cell) -> Option<usize>
    ensures { result ≡ numbered (target_number (as_cell k)) }
{
    if k.tag == tags::TARGET && k.flag == 1 && k.a < 256 {
        Some(k.a)
    } else {
        None
    }
}

// The lowest Target that equals one before it in the same Remap, of the cells from `from` on. `last` holds, for each number, one past the last Target with
// that number, and `own` is the first cell since the last node: a Target before it belongs to another Remap.
fn repeated_from(s: &[u8], from: usize) -> Option<usize>
    requires { Whole s.now × Untargeted s.now from }
    ensures { Repeats s.now result }
{
    let mut last = [0usize; 256];
    let mut own = from;
    for i in from..parts_of(s).cells.count {
        let k = cell_at(s, i);
        if tags::NODES <= k.tag {
            own = i + 1;
            continue;
        }
        let Some(number) = target_number(k) else {
            continue;
        };
        if own < last[number] {
            return Some(i);
        }
        last[number] = i + 1;
    }
    None
}

// The lowest Target that equals one before it in the same Remap. Few plans have Targets: the cells before the first one are passed over.
pub fn target_repeated(s: &[u8]) -> Option<usize>
    requires { Whole s.now × OnePlan s.now }
    ensures { Repeats s.now result }
{
    for i in 0..parts_of(s).cells.count {
        if target_number(cell_at(s, i)).is_some() {
            return repeated_from(s, i);
        }
    }
    None
}
