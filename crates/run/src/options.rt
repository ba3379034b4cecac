// What the user asks for.
use asm::program::Placed;
use sim::delay::Delay;
use sim::devices::Rest;
use std::alloc::Global;
use testbench::args::Value;
use testbench::failure::Failure;
use testbench::files::Format;
use testbench::options::{FromWords, Words, unknown};

pub const HELP: &str = "run [OPTIONS] PROGRAM

Runs a program on the core, and prints each instruction as it is done, each
write and each read of a device as it is asked, and how the core stops.

PROGRAM is assembly text, or hexadecimal words if its name ends in .hex, .vh
or .mem. Numbers are decimal, or 0x and hexadecimal.

  --hex                  PROGRAM is hexadecimal words, whatever its name
  --delay N              an answer waits N clocks; with 0, as without this
                         option, it comes in the clock after the request
  --random MOST          an answer waits a random number of clocks, up to MOST
  --seed N               other random numbers (first 1)
  --clocks N             end after N clocks (first 100000)
  --quiet                print only the last lines
  --vcd FILE             write waveforms, a value change dump of the ports and
                         of the inside of the core, 10 ns to a clock
  --log FILE             write a commit log, a line for each instruction done,
                         as the simulator Spike does
  --start ADDRESS        begin at this address
  --data ADDRESS=WORD,.. first data, besides that of the program
  --answers N,N,..       what devices answer, after the program's answers;
                         after that they answer 0
  --devices random       or random words
  --help                 print this

Example:
  run --delay 7 --data 0x100=5,0x104=6 --answers 99 loop.s
  run --quiet --vcd loop.vcd --log loop.log loop.s
";

#[derive(Drop)]
pub struct Options {
    pub program: Option<String>,
    pub format: Option<Format>,
    pub delay: Delay,
    pub seed: u32,
    pub clocks: u32,
    pub quiet: bool,
    pub vcd: Option<String>,
    pub log: Option<String>,
    pub start: Option<u32>,
    pub data: Vec<Placed>,
    pub answers: Vec<u32>,
    pub rest: Rest,
}

impl Options {
    // Before the first word.
    pub fn new(heap: Global) -> Options {
        Options {
            program: None,
            format: None,
            delay: Delay::Fixed(0),
            seed: 1,
            clocks: 100_000,
            quiet: false,
            vcd: None,
            log: None,
            start: None,
            data: Vec::new(heap),
            answers: Vec::new(heap),
            rest: Rest::Zero,
        }
    }
}

impl FromWords for Options {
    fn option<'a>(&mut self, name: &'a str, words: &mut Words<'a>) -> Result<(), Failure> {
        match name {
            "--hex" => self.format = Some(Format::Hex),
            "--quiet" => self.quiet = true,
            "--delay" => self.delay = Delay::Fixed(words.number(name)?),
            "--random" => self.delay = Delay::UpTo(words.number(name)?),
            "--seed" => self.seed = words.number(name)?,
            "--clocks" => self.clocks = words.number(name)?,
            "--vcd" => self.vcd = Some(words.value(name)?.string()?),
            "--log" => self.log = Some(words.value(name)?.string()?),
            "--start" => self.start = Some(words.number(name)?),
            "--data" => words.value(name)?.placed(&mut self.data)?,
            "--answers" => words.value(name)?.numbers(&mut self.answers)?,
            "--devices" => self.rest = rest(words.value(name)?)?,
            _ => return Err(unknown(words.heap, name)?),
        }
        Ok(())
    }

    fn operand(&mut self, heap: Global, word: &str) -> Result<(), Failure> {
        if self.program.is_some() {
            return Err(Failure::Input(format!(in heap; "a second program '{word}'")?));
        }
        self.program = Some(String::from_str(heap, word)?);
        Ok(())
    }
}

fn rest(value: Value) -> Result<Rest, Failure> {
    match value.text {
        "random" => Ok(Rest::Random),
        _ => Err(value.wrong("not 'random' but")?),
    }
}
