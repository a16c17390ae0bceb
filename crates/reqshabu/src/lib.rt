// The library's public face: the operations, which crate reqshabu_c exports to C. Nothing is required of the caller: every byte string, every pass
// number, every edition and every output gets the answer of the definition, and the output then holds what the definition says, byte by byte.
#![tactic(auto)]

ghost use Rattle.std.specs.Prelude.{◌≡◌};
ghost use Rattle.sheet.specs.Check.{check};
ghost use Rattle.sheet.specs.Operations.{one_pass, all_five};
ghost use Rattle.checker.specs.Checker.{numbers, outcome};
ghost use Rattle.convert.specs.Convert.{convert};
ghost use Rattle.compact.specs.Compact.{compact};

use checker::Answer;

// Checks a sheet.
pub fn plan_check(sheet: &[u8]) -> Answer
    ensures { numbers result ≡ check sheet.now }
{
    checker::check(sheet)
}

// One pass of the optimizer, 1 to 5, on a sheet.
pub fn plan_pass(sheet: &[u8], pass: usize, output: &mut [u8]) -> Answer
    ensures { outcome result output.new ≡ one_pass sheet.now pass output.old }
{
    operations::pass(sheet, pass, output)
}

// All five passes in turn.
pub fn plan_optimize(sheet: &[u8], output: &mut [u8]) -> Answer
    ensures { outcome result output.new ≡ all_five sheet.now output.old }
{
    operations::optimize(sheet, output)
}

// A sheet carried to the other edition, 1 or 2.
pub fn plan_convert(sheet: &[u8], edition: usize, output: &mut [u8]) -> Answer
    ensures { outcome result output.new ≡ convert sheet.now edition output.old }
{
    convert::convert(sheet, edition, output)
}

// The sheet without the text that nobody refers to.
pub fn plan_compact(sheet: &[u8], output: &mut [u8]) -> Answer
    ensures { outcome result output.new ≡ compact sheet.now output.old }
{
    compactor::compact(sheet, output)
}
