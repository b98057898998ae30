// From any bytes to a store.
ghost use Rattle.std.specs.Prelude.{◌≡◌, ◌+◌, ◌≤◌, length};
ghost use Rattle.store_bytes.specs.Stores.{name_from, page_at, name_or_zeros, store_or_zeros};

use crate::sizes::{NAME_SIZE, PAGE_SIZE, PAGES_AT, STORE_SIZE};
use bulletin::store::Store;
use pages::name::Name;
use pages::page::Page;
use record_bytes::text::text_at;
use rows::common::Common;

fn page_at(bytes: &[u8], at: usize) -> Page
    requires { at + 19 ≤ length bytes.now }
    ensures { result ≡ page_at bytes.now at }
{
    Page {
        mark: bytes[at],
        text: text_at(bytes, at + 1),
    }
}

fn name_of(bytes: &[u8]) -> Name
    requires { 8 ≤ length bytes.now }
    ensures { result ≡ name_from bytes.now }
{
    Name {
        common: Common {
            rc: bytes[0],
            month: bytes[1],
            day: bytes[2],
            hour: bytes[3],
            minute: bytes[4],
            it: bytes[5],
        },
        serial: bytes[6],
        total: bytes[7],
    }
}

// The store that 1205 lent bytes are, whatever they are. Bytes of another length are a store of zeros,
// which is not sound.
#[tactic(auto, unfolding(crate::specs::Stores::store_or_zeros))]
pub fn unpack_store(bytes: &[u8]) -> Store
    ensures { result ≡ store_or_zeros bytes.now }
{
    let mut store = Store::of_zeros();
    if bytes.len() == STORE_SIZE {
        store.name = name_of(bytes);
        for k in 0..Store::PAGES {
            store.pages[k] = page_at(bytes, PAGES_AT + PAGE_SIZE * k);
        }
    }
    store
}

// The name that 8 lent bytes are. Bytes of another length are a name of zeros, which is out of range.
#[tactic(auto, unfolding(crate::specs::Stores::name_or_zeros))]
pub fn unpack_name(bytes: &[u8]) -> Name
    ensures { result ≡ name_or_zeros bytes.now }
{
    if bytes.len() == NAME_SIZE {
        name_of(bytes)
    } else {
        Name::of_zeros()
    }
}
