//! Histories as a trace has them.

use std::alloc::Global;
use std::test::Fail;

/// Adds a line: what happened, and the numbers that belong to it.
pub fn tell(alloc: Global, text: &mut String, word: &str, numbers: &[u32]) -> Result<(), Fail> {
    text.push_str(word)?;
    for number in numbers {
        text.push_str(format!(in alloc; " {number}")?.as_str())?;
    }
    text.push_str("\n")?;
    Ok(())
}
