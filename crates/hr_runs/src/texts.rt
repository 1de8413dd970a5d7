//! What a line asks for, and what is told.

use crate::errors::{of_parts, of_tokens};
use crate::tree::{push_tuples, written};
use hr_lex::{Token, tokens};
use hr_parse::{Ast, TupleAst, parse, parse_tuple};
use hr_print::print;
use std::alloc::{AllocError, Global};

/// What a line is told.
pub fn told(alloc: Global, line: &str) -> Result<String, AllocError> {
    match line.split_once(' ') {
        Some(("tokens", text)) => tokens_of(alloc, text),
        Some(("print", text)) => printed(alloc, text),
        Some(("tree", text)) => tree_of(alloc, text),
        Some(("tuple", rest)) => tuple_of(alloc, rest),
        _ => String::from_str(alloc, "no such word"),
    }
}

fn tokens_of(alloc: Global, text: &str) -> Result<String, AllocError> {
    match tokens(alloc, text) {
        Ok(all) => tokens_text(alloc, all.as_slice()),
        Err(error) => of_tokens(alloc, error),
    }
}

/// Each token with where it begins and ends.
fn tokens_text(alloc: Global, tokens: &[Token]) -> Result<String, AllocError> {
    let mut out = String::new(alloc);
    for token in tokens {
        write!(out, "{:?} {}..{}; ", token.kind, token.from, token.to)?;
    }
    Ok(out)
}

fn printed(alloc: Global, text: &str) -> Result<String, AllocError> {
    match parse(alloc, text) {
        Ok(ast) => printed_tree(alloc, &ast),
        Err(error) => of_parts(alloc, error),
    }
}

fn printed_tree(alloc: Global, ast: &Ast) -> Result<String, AllocError> {
    let text = print(alloc, ast)?;
    match str::from_utf8(text.as_slice()) {
        Ok(text) => String::from_str(alloc, text),
        Err(_) => String::from_str(alloc, "no text"),
    }
}

fn tree_of(alloc: Global, text: &str) -> Result<String, AllocError> {
    match parse(alloc, text) {
        Ok(ast) => written(alloc, &ast),
        Err(error) => of_parts(alloc, error),
    }
}

/// The tuple of a line whose first word is the place where it begins.
fn tuple_of(alloc: Global, line: &str) -> Result<String, AllocError> {
    let Some((place, text)) = line.split_once(' ') else {
        return String::from_str(alloc, "no text");
    };
    match place.parse::<usize>() {
        Ok(from) => tuple_at(alloc, text, from),
        Err(_) => String::from_str(alloc, "no place"),
    }
}

fn tuple_at(alloc: Global, text: &str, from: usize) -> Result<String, AllocError> {
    if text.len() > 1024 || !text.is_char_boundary(from) {
        return String::from_str(alloc, "no such place");
    }
    match parse_tuple(alloc, text, from) {
        Ok(tuple) => tuple_text(alloc, tuple),
        Err(error) => of_parts(alloc, error),
    }
}

fn tuple_text(alloc: Global, tuple: TupleAst) -> Result<String, AllocError> {
    let mut out = String::new(alloc);
    push_tuples(&mut out, &[tuple])?;
    Ok(out)
}
