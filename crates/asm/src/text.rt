// Lines of assembly: labels, a name and its operands.
ghost use Rattle.std.specs.Prelude.{◌≤◌};

use crate::error::Problem;

// What stands on a line, without its comment.
#[derive(Clone, Copy)]
pub struct Line<'a> {
    // The labels, with a colon between two.
    pub labels: Option<&'a str>,
    pub statement: Option<Statement<'a>>,
}

// An instruction or a directive: its name and the text after that.
#[derive(Clone, Copy)]
pub struct Statement<'a> {
    pub name: &'a str,
    pub operands: &'a str,
}

pub fn split_line<'a>(line: &'a str) -> Line<'a> {
    let text = ["#", ";", "//"].into_iter().fold(line, before);
    let (labels, rest) = match text.rsplit_once(':') {
        Some((labels, rest)) => (Some(labels), rest),
        None => (None, text),
    };
    Line {
        labels,
        statement: split_statement(rest),
    }
}

// The text before a mark, or all of it.
pub fn before<'a>(text: &'a str, mark: &str) -> &'a str {
    text.split_once(mark).map_or(text, |(front, _)| front)
}

fn split_statement<'a>(text: &'a str) -> Option<Statement<'a>> {
    let text = text.trim();
    let name = text.split_whitespace().next()?;
    let operands = text.strip_prefix(name).unwrap_or(text).trim();
    Some(Statement { name, operands })
}

// A letter, `_` or `.`, and then letters, digits, `_`, `.` and `$`.
pub fn is_label(text: &str) -> bool {
    let begins = |c: char| c.is_ascii_alphabetic() || c == '_' || c == '.';
    text.starts_with(begins)
        && text
            .chars()
            .all(|c| begins(c) || c.is_ascii_digit() || c == '$')
}

pub fn is_number(text: &str) -> bool {
    text.starts_with(|c: char| c == '-' || c.is_ascii_digit())
}

// A number, decimal or `0x` and hexadecimal, from -2^31 to 2^32 - 1: a negative one as the 32 bits that stand for it.
pub fn number(text: &str) -> Result<u32, Problem> {
    match text.strip_prefix('-') {
        Some(digits) => {
            let size = magnitude(digits)?;
            if size > 1 << 31 {
                return Err(Problem::OutOfRange);
            }
            Ok(size.wrapping_neg())
        }
        None => magnitude(text),
    }
}

fn magnitude(text: &str) -> Result<u32, Problem> {
    match text.strip_prefix("0x") {
        Some(digits) => hex_number(digits),
        None => from_digits(text, 10),
    }
}

pub fn hex_number(digits: &str) -> Result<u32, Problem> {
    from_digits(digits, 16)
}

fn from_digits(digits: &str, radix: u32) -> Result<u32, Problem>
    requires { (2 ≤ radix) × (radix ≤ 36) }
{
    if digits.is_empty() || !digits.chars().all(|c| c.is_digit(radix)) {
        return Err(Problem::BadNumber);
    }
    u32::from_str_radix(digits, radix).map_err(|_| Problem::OutOfRange)
}
