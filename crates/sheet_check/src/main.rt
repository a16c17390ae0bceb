// Checks the sheet on standard input, of which it reads at most 45,333 bytes, one more than a sheet can have, and prints one line:
// `accepted cells C columns K`, or `refused N place P`.
#![tactic(auto)]

use std::io::{self, Read};

fn main(rt: HostRuntime) -> io::Result<()> {
    let mut sheet = Vec::new(rt.alloc());
    rt.reader().take(45333).read_to_end(&mut sheet)?;
    match checker::accepted(&sheet) {
        Ok(counts) => println!(rt;
            "accepted cells {} columns {}",
            counts.cells, counts.columns
        ),
        Err(cause) => println!(rt; "refused {} place {}", cause.number(), cause.place()),
    }
}
