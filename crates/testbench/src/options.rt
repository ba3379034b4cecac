// The options of a program, from the words after its name.
ghost use Rattle.std.specs.Prelude.{◌≡◌, ◌+◌, ◌≤◌, ◌↔◌, [], ◌∷◌, length, map, string_bytes, Some, Ok, IsNone, IsErr, IfSome, IfOk, OnOk};

use crate::args::Value;
use crate::failure::Failure;
use std::alloc::{AllocError, Global};
use std::env;

// The words that are still to be read.
#[derive(Clone, Copy)]
pub struct Words<'a> {
    pub heap: Global,
    pub rest: &'a [String],
}

impl<'a> Words<'a> {
    pub fn next(&mut self) -> Option<&'a str>
        ensures end { IsNone result ↔ (self.old.rest.now ≡ []) }
        ensures first { IfSome result (λ word. map string_bytes self.old.rest.now ≡ word.now ∷ map string_bytes self.new.rest.now) }
    {
        let (word, rest) = self.rest.split_first()?;
        self.rest = rest;
        Some(word.as_str())
    }

    // The value of an option, which stands after it.
    pub fn value(&mut self, option: &'a str) -> Result<Value<'a>, Failure>
        ensures missing { IsErr result ↔ (self.old.rest.now ≡ []) }
        ensures first { IfOk result (λ v. map string_bytes self.old.rest.now ≡ v.text.now ∷ map string_bytes self.new.rest.now) }
        ensures taken { IfOk result (λ _. length self.old.rest.now ≡ length self.new.rest.now + 1) }
    {
        let heap = self.heap;
        let Some(text) = self.next() else {
            return Err(Failure::Input(format!(in heap; "{option}: no value")?));
        };
        Ok(Value { heap, option, text })
    }

    // A value that is a number.
    pub fn number(&mut self, option: &'a str) -> Result<u32, Failure>
        ensures missing { self.old.rest.now ≡ [] → IsErr result }
        ensures taken { IfOk result (λ _. length self.old.rest.now ≡ length self.new.rest.now + 1) }
    {
        self.value(option)?.number()
    }
}

// What the words of a command line set.
pub trait FromWords: Drop {
    // An option. Its value, where it takes one, is the next of the words.
    fn option<'a>(&mut self, name: &'a str, words: &mut Words<'a>) -> Result<(), Failure>
        ensures { OnOk result (length words.new.rest.now ≤ length words.old.rest.now) };

    // A word that is no option.
    fn operand(&mut self, heap: Global, word: &str) -> Result<(), Failure>;
}

// What is set after all words; none where they ask for help.
pub fn read<T: FromWords>(heap: Global, mut set: T, words: &[String]) -> Result<Option<T>, Failure>
    ensures { words.now ≡ [] → result ≡ Ok (Some set) }
{
    let mut left = Words { heap, rest: words };
    let mut help = false;
    // No `for`: an option takes the next word too.
    while let Some(word) = left.next() {
        if word == "--help" {
            help = true;
        } else if word.starts_with('-') {
            set.option(word, &mut left)?;
        } else {
            set.operand(heap, word)?;
        }
    }
    Ok(if help { None } else { Some(set) })
}

// The same, of the words that this program was called with. Where they ask for help, it is printed.
pub fn from_args<T: FromWords>(rt: &HostRuntime, set: T, help: &str) -> Result<Option<T>, Failure> {
    let heap = rt.alloc();
    let words = env::args(rt)?.skip(1).collect::<Vec<String>>(heap)?;
    let set = read(heap, set, &words)?;
    if set.is_none() {
        print!(rt; "{help}")?;
    }
    Ok(set)
}

// That no option has this name.
pub fn unknown(heap: Global, name: &str) -> Result<Failure, AllocError> {
    Ok(Failure::Input(format!(in heap; "unknown option '{name}'")?))
}
