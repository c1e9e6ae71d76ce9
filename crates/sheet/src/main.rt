// Reads a case file on standard input and writes its sheet on standard output. A file that is refused gives no output
// and status 1.
#![tactic(auto)]

use casefile::{LINE_ROOM, LONGEST_FILE, MOST_LINES, write_sheet};
use std::io::{BufReader, Read, Write};
use std::process::ExitCode;

// One byte more than a file may have, so that a longer one is seen to be too long.
const MOST_READ: usize = LONGEST_FILE + 1;

// Reads the file and writes its sheet, unless there is none.
fn serve(rt: &HostRuntime) -> anyhow::Result<()> {
    let heap = rt.alloc();
    let mut file = Vec::with_capacity(heap, MOST_READ)?;
    // Each read asks for all that may still come: where the input keeps packets, what a read has no room for is lost.
    let input = rt.stdin().take(MOST_READ as u64);
    BufReader::with_capacity(heap, MOST_READ, input)?.read_to_end(&mut file)?;
    let mut buffer = vec![in heap; 0u8; LINE_ROOM * MOST_LINES]?;
    let sheet = buffer.as_mut_slice();
    let len = write_sheet(file.as_slice(), sheet, heap)?;
    rt.stdout().write_all(&sheet[..len])?;
    Ok(())
}

fn main(rt: HostRuntime) -> ExitCode {
    match serve(&rt) {
        Ok(()) => ExitCode::SUCCESS,
        Err(_) => ExitCode::FAILURE,
    }
}
