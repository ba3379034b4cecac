// Labels and the values of operands.
ghost use Rattle.std.specs.Prelude.{◌≡◌, ◌+◌, ◌*◌, ◌/◌, ◌%◌, ◌^◌};

use crate::error::{AsmError, Problem};
use crate::text::{is_label, is_number, number};
use std::collections::BTreeMap;

// The address of each label.
pub type Symbols<'a> = BTreeMap<&'a str, u32>;

// Gives labels, with a colon between two, their address.
pub fn define<'a>(
    symbols: &mut Symbols<'a>,
    names: &'a str,
    address: u32,
    line: usize,
) -> Result<(), AsmError<'a>> {
    for name in names.split(':').map(str::trim) {
        define_one(symbols, name, address).map_err(|problem| problem.at(line, name))?;
    }
    Ok(())
}

fn define_one<'a>(symbols: &mut Symbols<'a>, name: &'a str, address: u32) -> Result<(), Problem> {
    if !is_label(name) {
        return Err(Problem::BadLabel);
    }
    if symbols.insert(name, address)?.is_some() {
        return Err(Problem::LabelTwice);
    }
    Ok(())
}

// The value of an operand: a number, a label's address, or `%hi(label)` or `%lo(label)`.
pub fn value(symbols: &Symbols, text: &str) -> Result<u32, Problem> {
    if is_number(text) {
        return number(text);
    }
    if let Some(name) = inside(text, "%hi(") {
        return address_of(symbols, name).map(upper);
    }
    if let Some(name) = inside(text, "%lo(") {
        return address_of(symbols, name).map(lower);
    }
    address_of(symbols, text)
}

fn inside<'a>(text: &'a str, front: &str) -> Option<&'a str> {
    text.strip_prefix(front)?.strip_suffix(')')
}

fn address_of(symbols: &Symbols, name: &str) -> Result<u32, Problem> {
    symbols.get(name).copied().ok_or(Problem::UndefinedLabel)
}

// What `lui` takes so that `addi` with the lower part then gives x.
pub fn upper(x: u32) -> u32
    ensures { result ≡ (x + 2048) % 2 ^ 32 / 4096 }
{
    x.wrapping_add(0x800) >> 12
}

pub fn lower(x: u32) -> u32
    ensures { ((x + 2048) % 2 ^ 32 / 4096 * 4096 + result) % 2 ^ 32 ≡ x }
{
    x.wrapping_sub(upper(x) << 12)
}
