// Words in hexadecimal, as `objcopy -O verilog --verilog-data-width=4` of GNU binutils 2.40 writes them:
// `@` and eight digits set the address, and words of eight digits follow, sixteen bytes to a line. What that program does:
//   - The number after `@` counts words: it is the byte address divided by 4.
//   - Of a 32-bit little-endian ELF file each word is written as its value, `00400293` for addi x5, x0, 4.
//     A last word that is not whole has fewer digits, and its missing high bytes are 0.
//   - Of a raw binary file (`-I binary`) the bytes of a word stand in the order of the file, `93024000` for the same.
//     So give `--reverse-bytes=4` as well, or make an ELF file of it first.
use crate::assemble::finish;
use crate::cursor::Cursor;
use crate::error::{AsmError, Problem};
use crate::output::Output;
use crate::program::Program;
use crate::text::{before, hex_number};
use std::alloc::Global;

// The program that the words are, all of them code. It starts at the first. A comment begins with `//`.
pub fn read_hex<'a>(heap: Global, text: &'a str) -> Result<Program, AsmError<'a>> {
    let mut out = Output::new(heap);
    let mut cursor = Cursor::START;
    for (i, line) in text.lines().enumerate() {
        cursor = read_line(&mut out, cursor, before(line, "//"), i + 1)?;
    }
    finish(heap, out, text)
}

fn read_line<'a>(
    out: &mut Output,
    start: Cursor,
    text: &'a str,
    line: usize,
) -> Result<Cursor, AsmError<'a>> {
    let mut cursor = start;
    for text in text.split_whitespace() {
        cursor = read_item(out, cursor, text).map_err(|problem| problem.at(line, text))?;
    }
    Ok(cursor)
}

// A word, or `@` and the number of a word.
fn read_item(out: &mut Output, cursor: Cursor, text: &str) -> Result<Cursor, Problem> {
    if let Some(digits) = text.strip_prefix('@') {
        let address = hex_number(digits)?
            .checked_mul(4)
            .ok_or(Problem::OutOfRange)?;
        return Ok(cursor.at(address));
    }
    out.place(cursor, hex_number(text)?)?;
    Ok(cursor.on(1))
}
