// A sparse memory of words, by word number (an address divided by 4): 0 where nothing was written.
use std::collections::BTreeMap;

mod access;

#[derive(Drop)]
pub struct Memory {
    words: BTreeMap<u32, u32>,
}
