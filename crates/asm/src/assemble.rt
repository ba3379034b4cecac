// From text to a program, in two passes: the addresses of the labels, then the words.
use crate::cursor::Cursor;
use crate::error::{AsmError, Problem};
use crate::operands::Located;
use crate::output::Output;
use crate::program::Program;
use crate::symbols::{Symbols, define};
use crate::text::split_line;
use std::alloc::Global;
use std::collections::BTreeMap;

// The program of a text, or what is wrong with it.
pub fn assemble<'a>(heap: Global, text: &'a str) -> Result<Program, AsmError<'a>> {
    let symbols = find_labels(heap, text)?;
    let mut out = Output::new(heap);
    place_words(&mut out, text, &symbols)?;
    finish(heap, out, text)
}

// The program, once all words are placed.
pub fn finish<'a>(heap: Global, out: Output, text: &'a str) -> Result<Program, AsmError<'a>> {
    out.program(heap)
        .map_err(|e| Problem::from(e).at(text.lines().count(), ""))
}

fn find_labels<'a>(heap: Global, text: &'a str) -> Result<Symbols<'a>, AsmError<'a>> {
    let mut symbols = BTreeMap::new(heap);
    let mut cursor = Cursor::START;
    for (i, line) in text.lines().enumerate() {
        let line = split_line(line);
        if let Some(names) = line.labels {
            define(&mut symbols, names, cursor.address(), i + 1)?;
        }
        if let Some(statement) = line.statement {
            cursor = cursor
                .after(statement)
                .map_err(|fault| statement.blame(fault, i + 1))?;
        }
    }
    Ok(symbols)
}

fn place_words<'a>(
    out: &mut Output,
    text: &'a str,
    symbols: &Symbols<'a>,
) -> Result<(), AsmError<'a>> {
    let mut cursor = Cursor::START;
    for (i, line) in text.lines().enumerate() {
        if let Some(statement) = split_line(line).statement {
            let located = Located {
                statement,
                symbols,
                cursor,
            };
            cursor = out
                .add(located)
                .map_err(|fault| statement.blame(fault, i + 1))?;
        }
    }
    Ok(())
}
