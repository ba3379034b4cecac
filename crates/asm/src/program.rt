// What an assembler gives: words with their addresses.

// A word and its address, a multiple of 4.
#[derive(Clone, Copy, Debug, PartialEq, Eq)]
pub struct Placed {
    pub address: u32,
    pub word: u32,
}

// A program: its code, its first data, what devices answer in order, and where it starts. Code and data are in order of address.
#[derive(Drop)]
pub struct Program {
    pub code: Vec<Placed>,
    pub data: Vec<Placed>,
    pub answers: Vec<u32>,
    pub start: u32,
}
