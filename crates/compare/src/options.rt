// What the user asks for.
use sim::delay::Delay;
use std::alloc::Global;
use std::slice;
use testbench::failure::Failure;
use testbench::files::Format;
use testbench::options::{FromWords, Words, unknown};

pub const HELP: &str = "compare [OPTIONS] [PROGRAM..]

Runs each program on the core and on the manual side by side, with answers
after 0, 1, 7 and random numbers of clocks, and checks in each clock that the
core shows what the manual does. The first difference is printed with the
program and the clocks before it, and compare then ends with status 1.

A PROGRAM is assembly text, or hexadecimal words if its name ends in .hex, .vh
or .mem.

  --random COUNT  COUNT programs made at random, with random words from devices
  --seed N        the first is made from the seed N, the next from N + 1, and
                  so on; random delays are too (first 1)
  --delay N       only with answers after N clocks
  --clocks N      end a run after N clocks (first 20000)
  --hex           each PROGRAM is hexadecimal words, whatever its name
  --help          print this

Examples:
  compare loop.s
  compare --random 1000 --seed 7
";

// The delays to run with, if not one that is asked for.
static DELAYS: [Delay; 4] = [
    Delay::Fixed(0),
    Delay::Fixed(1),
    Delay::Fixed(7),
    Delay::UpTo(20),
];

#[derive(Drop)]
pub struct Options {
    pub programs: Vec<String>,
    pub format: Option<Format>,
    pub random: u32,
    pub seed: u32,
    pub clocks: u32,
    delay: Option<Delay>,
}

impl Options {
    // Before the first word.
    pub fn new(heap: Global) -> Options {
        Options {
            programs: Vec::new(heap),
            format: None,
            random: 0,
            seed: 1,
            clocks: 20_000,
            delay: None,
        }
    }

    // The delays to run with.
    pub fn delays(&self) -> &[Delay] {
        match &self.delay {
            Some(delay) => slice::from_ref(delay),
            None => &DELAYS,
        }
    }
}

impl FromWords for Options {
    fn option<'a>(&mut self, name: &'a str, words: &mut Words<'a>) -> Result<(), Failure> {
        match name {
            "--hex" => self.format = Some(Format::Hex),
            "--random" => self.random = words.number(name)?,
            "--seed" => self.seed = words.number(name)?,
            "--delay" => self.delay = Some(Delay::Fixed(words.number(name)?)),
            "--clocks" => self.clocks = words.number(name)?,
            _ => return Err(unknown(words.heap, name)?),
        }
        Ok(())
    }

    fn operand(&mut self, heap: Global, word: &str) -> Result<(), Failure> {
        self.programs.push(String::from_str(heap, word)?)?;
        Ok(())
    }
}
