// Lists the sheet that all five passes hand out for the sheet on standard input, of which it reads at most 45,333 bytes, one more than a sheet can have:
// a header line and a line for each cell, or `refused N place P`.
#![tactic(auto)]

use std::io::{self, Read, Write};

fn main(rt: HostRuntime) -> io::Result<()> {
    let mut sheet = Vec::new(rt.alloc());
    rt.reader().take(45333).read_to_end(&mut sheet)?;
    let mut lines = [0u8; 94323];
    let length = list_plan::list(&sheet, &mut lines);
    io::writer(&rt).write_all(&lines[..length])
}
