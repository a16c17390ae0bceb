// The operations of crate reqshabu, exported to C. include/reqshabu.h declares them. Nothing is required of the caller: every byte string, every pass
// number, every edition and every output gets the answer of the definition, and the output then holds what the definition says, byte by byte.
#![tactic(auto)]

ghost use Rattle.std.specs.Prelude.{◌≡◌};
ghost use Rattle.sheet.specs.Check.{check};
ghost use Rattle.sheet.specs.Operations.{one_pass, all_five};
ghost use Rattle.checker.specs.Checker.{numbers, outcome};
ghost use Rattle.convert.specs.Convert.{convert};
ghost use Rattle.compact.specs.Compact.{compact};

use checker::Answer;

// Checks a sheet.
#[unsafe(no_mangle)]
pub extern "C" fn plan_check(sheet: &[u8]) -> Answer
    ensures { numbers result ≡ check sheet.now }
{
    reqshabu::plan_check(sheet)
}

// One pass of the optimizer, 1 to 5, on a sheet.
#[unsafe(no_mangle)]
pub extern "C" fn plan_pass(sheet: &[u8], pass: usize, output: &mut [u8]) -> Answer
    ensures { outcome result output.new ≡ one_pass sheet.now pass output.old }
{
    reqshabu::plan_pass(sheet, pass, output)
}

// All five passes in turn.
#[unsafe(no_mangle)]
pub extern "C" fn plan_optimize(sheet: &[u8], output: &mut [u8]) -> Answer
    ensures { outcome result output.new ≡ all_five sheet.now output.old }
{
    reqshabu::plan_optimize(sheet, output)
}

// A sheet carried to the other edition, 1 or 2.
#[unsafe(no_mangle)]
pub extern "C" fn plan_convert(sheet: &[u8], edition: usize, output: &mut [u8]) -> Answer
    ensures { outcome result output.new ≡ convert sheet.now edition output.old }
{
    reqshabu::plan_convert(sheet, edition, output)
}

// The sheet without the text that nobody refers to.
#[unsafe(no_mangle)]
pub extern "C" fn plan_compact(sheet: &[u8], output: &mut [u8]) -> Answer
    ensures { outcome result output.new ≡ compact sheet.now output.old }
{
    reqshabu::plan_compact(sheet, output)
}
