//! The numbers of a line.

use std::alloc::{AllocError, Global};

/// The words that are numbers.
pub fn numbers_of(alloc: Global, words: &str) -> Result<Vec<u32>, AllocError> {
    let mut numbers = Vec::new(alloc);
    for word in words.split(' ') {
        if let Ok(number) = word.parse() {
            numbers.push(number)?;
        }
    }
    Ok(numbers)
}
