//! The canonical text of a source.

use crate::page::{Page, Refused};
use crate::source::program_of;
use silage_tree::{TreeFault, print};

/// The text as it is, with no end of line.
pub fn put(page: &mut Page, source: &[u8]) -> Result<(), Refused> {
    let program = program_of(page, source)?;
    match print(page.alloc, &program) {
        Ok(text) => {
            page.bytes(&text);
            Ok(())
        }
        Err(TreeFault::Memory) => Err(page.cut()),
    }
}
