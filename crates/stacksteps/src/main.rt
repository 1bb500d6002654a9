// Reads frames of 64 by 64 samples from standard input and prints their report. Where the output takes no more, it says so on
// standard error.
#![tactic(auto)]

use std::io;
use std::io::Read;

// One byte more than eight frames have.
const INPUT: usize = 32769;

// Read into an array of this program's own size: a function for all would be generic in it and stand in a crate that all five need.
fn main(rt: HostRuntime) -> io::Result<()> {
    let mut input = [0u8; INPUT];
    let n = io::copy(
        &mut rt.reader().take(INPUT as u64),
        &mut input.as_mut_slice(),
    )?;
    let mut text = [0u8; 8192];
    let end = steps::put_text(&input[..n.min(INPUT as u64) as usize], &mut text);
    if rt.write_all(&text[0..end]).is_err() {
        eprintln!(rt; "stacksteps: the output is not complete")?;
    }
    Ok(())
}
