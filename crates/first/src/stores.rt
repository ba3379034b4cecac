// What a load finds among the stores that are done and wait for the request port.
ghost use Rattle.std.specs.Prelude.{◌≡◌};
ghost use Rattle.first.specs.StoreRules.{here, newest, forwarded};

use crate::state::StoreBuffer;
use rings::search::newest;

// Is the n-th oldest a waiting store to the word at `address`?
fn here(stores: &StoreBuffer, address: u32, n: u32) -> bool
    ensures { result ≡ here stores.now address n }
{
    n < stores.count && stores.entry(n).address / 4 == address / 4
}

// The place of the newest waiting store to the word at `address`.
fn newest_at(stores: &StoreBuffer, address: u32) -> Option<u32>
    ensures { result ≡ newest stores.now address }
{
    newest(8, |n| here(stores, address, n))
}

// What a load of the word at `address` gets from the newest waiting store to it.
pub fn forward(stores: &StoreBuffer, address: u32) -> Option<u32>
    ensures { result ≡ forwarded stores.now address }
{
    let n = newest_at(stores, address)?;
    Some(stores.entry(n).value)
}
