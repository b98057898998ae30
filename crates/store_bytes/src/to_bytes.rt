// From a store to its bytes, front to back.
ghost use Rattle.std.specs.Prelude.{◌≡◌, ◌+◌, ◌≤◌, length};
ghost use Rattle.std.proofs.lemmas.List.Edits.{sets};
ghost use Rattle.store_bytes.specs.Stores.{name_bytes, page_bytes, store_into, page_into};

use crate::sizes::{PAGE_SIZE, PAGES_AT, STORE_SIZE};
use bulletin::store::Store;
use lent::put_bytes;
use pages::name::Name;
use pages::page::Page;

fn put_name(out: &mut [u8], name: &Name)
    ensures { out.new ≡ sets out.old 0 (name_bytes name.now) }
{
    let common = name.common;
    put_bytes(
        out,
        0,
        &[
            common.rc,
            common.month,
            common.day,
            common.hour,
            common.minute,
            common.it,
            name.serial,
            name.total,
        ],
    );
}

// A page that finds its place. It is passed by value: of one that is lent the compiler does not know that it lies apart
// from the buffer, and copies it byte by byte.
fn put_page(out: &mut [u8], at: usize, page: Page)
    requires { at + 19 ≤ length out.old }
    ensures { out.new ≡ sets out.old at (page_bytes page) }
{
    out[at] = page.mark;
    out[at + 1..at + PAGE_SIZE].copy_from_slice(&page.text);
}

// The store, into a lent buffer of 1205 bytes. A buffer of another length stays as it was.
#[tactic(auto, unfolding(crate::specs::Stores::store_into))]
pub fn pack_store(store: &Store, out: &mut [u8])
    ensures { out.new ≡ store_into store.now out.old }
{
    if out.len() == STORE_SIZE {
        put_name(out, &store.name);
        for k in 0..Store::PAGES {
            put_page(out, PAGES_AT + PAGE_SIZE * k, store.pages[k]);
        }
    }
}

// One page alone, which stands behind i others, for who knows that the buffer has the rest already. A
// buffer of another length stays as it was, and so does any buffer where the page has no place.
#[tactic(auto, unfolding(crate::specs::Stores::page_into))]
pub fn pack_page(page: &Page, i: usize, out: &mut [u8])
    ensures { out.new ≡ page_into page.now i out.old }
{
    if out.len() == STORE_SIZE && i < Store::PAGES {
        put_page(out, PAGES_AT + PAGE_SIZE * i, *page);
    }
}
