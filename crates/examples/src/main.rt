// Writes the sheet of each example's case file, and says whether it is the one that is stored beside it.
#![tactic(auto)]

ghost use Rattle.std.specs.Prelude.{◌≡◌, ◌≤◌, length, take, Decides};

use anyhow::anyhow;
use casefile::{LINE_ROOM, MOST_LINES, write_sheet};
use std::fs;

// The examples: NAME.case is a case file and NAME.sheet its sheet.
const NAMES: [&str; 4] = ["island", "exchanged", "four_states", "waiting"];

// Whether the first bytes of a buffer are the stored ones.
fn is_stored(buffer: &[u8], len: usize, stored: &[u8]) -> bool
    requires { len ≤ length buffer.now }
    ensures { Decides result (take len buffer.now ≡ stored.now) }
{
    &buffer[..len] == stored
}

fn main(rt: HostRuntime) -> anyhow::Result<()> {
    let heap = rt.alloc();
    let mut buffer = vec![in heap; 0u8; LINE_ROOM * MOST_LINES]?;
    let sheet = buffer.as_mut_slice();
    let mut differing = false;
    for name in NAMES {
        let file = fs::read(&rt, format!(in heap; "{name}.case")?)?;
        let stored = fs::read(&rt, format!(in heap; "{name}.sheet")?)?;
        let as_stored = match write_sheet(file.as_slice(), sheet, heap) {
            Ok(len) => is_stored(sheet, len, stored.as_slice()),
            Err(_) => false,
        };
        if as_stored {
            println!(rt; "{name}: as stored")?;
        } else {
            println!(rt; "{name}: differs")?;
            differing = true;
        }
    }
    if differing {
        return Err(anyhow!("a sheet differs"));
    }
    Ok(())
}
