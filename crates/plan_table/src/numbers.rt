// Rows of numbers.

use std::alloc::Global;
use table_lines::answer::Unanswered;
use table_lines::fields::narrow_number;

/// The numbers of 32 bits that some texts give.
pub fn narrow_row(alloc: Global, texts: &[&[u8]]) -> Result<Vec<u32>, Unanswered> {
    let mut numbers = Vec::new(alloc);
    for text in texts {
        numbers.push(narrow_number(text)?)?;
    }
    Ok(numbers)
}
