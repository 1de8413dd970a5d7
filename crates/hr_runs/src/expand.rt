//! The lines that a line of a test stands for.

use std::alloc::AllocError;

/// Adds what a line of a test stands for.
pub fn add_line(text: &mut String, line: &str) -> Result<(), AllocError> {
    if let Some(rest) = line.strip_prefix("%repeat ") {
        return repeat(text, rest);
    }
    if let Some(rest) = line.strip_prefix("%long ") {
        return long(text, rest);
    }
    if let Some(rest) = line.strip_prefix("%raw ") {
        return raw(text, rest);
    }
    writeln!(text, "{line}")
}

/// A number, and what stands behind the blank behind it.
fn counted(rest: &str) -> (u32, &str) {
    let Some((number, line)) = rest.split_once(' ') else {
        return (0, rest);
    };
    (number.parse().unwrap_or(0), line)
}

fn repeat(text: &mut String, rest: &str) -> Result<(), AllocError> {
    let (count, line) = counted(rest);
    for number in 0..count {
        numbered(text, line, number + 1)?;
    }
    Ok(())
}

fn numbered(text: &mut String, line: &str, number: u32) -> Result<(), AllocError> {
    for letter in line.chars() {
        if letter == '@' {
            write!(text, "{number}")?;
        } else {
            text.push(letter)?;
        }
    }
    text.push('\n')
}

fn long(text: &mut String, rest: &str) -> Result<(), AllocError> {
    let (count, line) = counted(rest);
    text.push_str(line)?;
    for _filled in line.len()..count as usize {
        text.push('x')?;
    }
    text.push('\n')
}

fn raw(text: &mut String, rest: &str) -> Result<(), AllocError> {
    for letter in rest.chars() {
        text.push(unescaped(letter))?;
    }
    Ok(())
}

fn unescaped(letter: char) -> char {
    match letter {
        '^' => '\r',
        '$' => '\n',
        other => other,
    }
}
