// Prints what a row file on standard input says, a line for each row.
#![tactic(auto)]

use rowfile::listing::{LISTING_BYTES, list_rows};
use std::io::{Read, Write};

// One byte more than a row file may have: what is longer is refused without being read to its end.
const INPUT_BYTES: u64 = 65_537;

fn main(rt: HostRuntime) -> anyhow::Result<()> {
    let mut file = Vec::new(rt.alloc());
    rt.stdin().take(INPUT_BYTES).read_to_end(&mut file)?;
    let mut text = Vec::with_capacity(rt.alloc(), LISTING_BYTES)?;
    list_rows(&file, &mut text)?;
    rt.stdout().write_all(&text)?;
    Ok(())
}
