// From the bytes of a sheet to the lines that the listing program prints: all five passes, and the listing of what they hand out, or the refusal's line.
#![tactic(auto)]

ghost use Rattle.std.specs.Prelude.{◌≤◌, length};
ghost use Rattle.list_plan.specs.Listed.{Lines};

// No listing is longer than 94,323 bytes, and no sheet than 45,332, so there is always room.
pub fn list(s: &[u8], out: &mut [u8]) -> usize
    requires { 94323 ≤ length out.old }
    ensures { Lines s.now result out.new }
{
    let mut sheet = [0u8; 45332];
    let answer = operations::optimize(s, &mut sheet);
    if answer.number != 0 {
        return listing::refusal_line(answer.number, answer.place, out, 0);
    }
    listing::listing(&sheet[..answer.length], answer.columns, out, 0)
}
