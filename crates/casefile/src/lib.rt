// Case files, and the sheet that is written of one.
#![tactic(auto)]

mod buffer;
mod evidence;
mod faults;
mod lines;
mod sheet;
mod values;

pub use faults::{BUFFER_TOO_SHORT, FILE_REFUSED, LineFault, NO_MEMORY, SheetFault};
pub use lines::{Line, Lines};
pub use sheet::{LINE_ROOM, LONGEST_FILE, MOST_LINES, sorvigzna_sheet, write_sheet};
