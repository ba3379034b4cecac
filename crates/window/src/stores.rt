// The store buffer: eight stores that are retired and wait for the request port, as a ring.
ghost use Rattle.std.specs.Prelude.{◌≡◌};
ghost use Rattle.window.specs.Rings.{matches, buffer_source};

use crate::entry::Source;
use isa::devices::DEVICES;
use pins::held::Store;
use rings::ring::Ring;
use rings::search::newest;

pub type StoreBuffer = Ring<Store, 8>;

// Is the n-th oldest a store to the word of data with this number?
fn matches(stores: &StoreBuffer, number: u32, n: u32) -> bool
    ensures { result ≡ matches stores.now number n }
{
    let store = stores.entry(n);
    store.address < DEVICES && store.address / 4 == number
}

// Where a load finds the word of data with this number: with the newest waiting store to it, or in memory.
pub fn source(stores: &StoreBuffer, number: u32) -> Source
    ensures { result ≡ buffer_source stores.now number }
{
    match newest(stores.count, |n| matches(stores, number, n)) {
        Some(n) => Source::Forwarded(stores.entry(n).value),
        None => Source::Memory,
    }
}
