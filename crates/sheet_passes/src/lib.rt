// The chosen passes on a sheet that is accepted: from bytes to words, the passes, and to bytes again. The buffers x, y, z and w are lent.
#![tactic(auto)]

ghost use Rattle.optimizer.specs.Choices.{Choice};
ghost use Rattle.hand_out.specs.HandOut.{Counted};
ghost use Rattle.sheet_passes.specs.SheetPasses.{RunAt, RunsOn};

use checker::Answer;
use optimizer::Chosen;

// The passes are lent the sheet's text and its records as these stand. `count` is the number of columns of the sheet's plan, which no pass changes.
pub fn run(
    s: &[u8],
    c: Chosen,
    count: usize,
    x: &mut [u32],
    y: &mut [u32],
    z: &mut [u32],
    w: &mut [u32],
    out: &mut [u8],
) -> Answer
    requires choice { Choice c }
    requires run_at { RunAt s.now x.old y.old z.old w.old }
    requires counted { Counted s.now count }
    ensures { RunsOn s.now c count x.old out.old result out.new }
{
    let tables = schema::table_records(s);
    let columns = schema::column_records(s);
    let text = schema::text(s);
    let t = decode::decode(s, x);
    let r = optimizer::run(c, text, x, y, z, w, t, tables, columns);
    hand_out::hand_out(s, y, hand_out::numbered(r), count, out)
}
