// The page store of a bulletin in 1205 lent bytes. Any bytes are a store; one that is not sound, as
// bytes of another length never are, is refused with 14 in 14's turn, and stays as it was.
ghost use Rattle.std.specs.Prelude.{◌≡◌};
ghost use Rattle.inserter.specs.Answers.{call_result, open_into, pages_before, take_into, merge_into, count_answer, text_into};
ghost use Rattle.report.specs.Categories.{paged_of};

use crate::words::{WRONG_CALL, refusal_word, report_word, taken_word, word_of};
use bulletin::store::Store;
use report::body::Body;
use store_bytes::sizes::{NAME_SIZE, STORE_SIZE};

// Opens a store for the bulletin that 8 bytes name: Rc, month, day, hour, minute, It, Is, page total.
// 8 with its place where a value is out of range, and then the store's bytes stay as they were.
#[tactic(auto, using(crate::proofs::StoreDoors::opened), unfolding(crate::specs::Answers::open_into, store_bytes::specs::Stores::name_or_zeros, store_bytes::specs::Stores::store_into))]
pub fn lz_open(name: &[u8], store: &mut [u8]) -> u32
    ensures { call_result result store.new ≡ open_into name.now store.old }
{
    if name.len() != NAME_SIZE || store.len() != STORE_SIZE {
        return WRONG_CALL;
    }
    match Store::open(store_bytes::unpack_name(name)) {
        Ok(opened) => {
            store_bytes::pack_store(&opened, store);
            0
        }
        Err(refusal) => refusal_word(refusal),
    }
}

// How many pages stand before the one that a body brings: all 63 where it brings none. A number 0 is
// refused, and then it does not matter which page it stands for.
#[tactic(auto, unfolding(crate::specs::Answers::pages_before))]
fn pages_before(body: Body) -> usize
    ensures { result ≡ pages_before (paged_of body) }
{
    match body.page() {
        Some(page) => usize::from(page.number.saturating_sub(1)),
        None => Store::PAGES,
    }
}

// Takes the page of a record's 251 bytes: 1 where it is new, 2 where the store had the same, 3 where it
// is disputed. A refusal leaves the store as it was. Only the page that the record brings can have
// changed, so it alone is put back.
pub fn lz_take(store: &mut [u8], record_bytes: &[u8]) -> u32
    ensures { call_result result store.new ≡ take_into store.old record_bytes.now }
{
    let mut held = store_bytes::unpack_store(store);
    let came = record_bytes::unpack(record_bytes);
    let took = held.take(&came);
    let i = pages_before(came.body);
    if i < Store::PAGES {
        store_bytes::pack_page(&held.pages[i], i, store);
    }
    taken_word(took)
}

// Merges another store of the same bulletin into a store. A refusal leaves the store as it was.
pub fn lz_merge(store: &mut [u8], other: &[u8]) -> u32
    ensures { call_result result store.new ≡ merge_into store.old other.now }
{
    let mut merged = store_bytes::unpack_store(store);
    let answer = merged.merge(&store_bytes::unpack_store(other));
    store_bytes::pack_store(&merged, store);
    word_of(answer, |()| 0)
}

// How many pages are held, how many are disputed, and the lowest that is not held, 0 where all are: one
// byte each, behind a byte of zero.
pub fn lz_count(store: &[u8]) -> u32
    ensures { result ≡ count_answer store.now }
{
    word_of(store_bytes::unpack_store(store).count(), report_word)
}

// Puts the text of a store whose pages are all held into a lent buffer, and answers its length, which
// is at most 1134. Bytes behind the text stay as they were, and where something is refused all of
// them do.
#[tactic(auto, using(crate::proofs::StoreDoors::text_is_small), unfolding(crate::specs::Answers::text_result))]
pub fn lz_text(store: &[u8], text: &mut [u8]) -> u32
    ensures { call_result result text.new ≡ text_into store.now text.old }
{
    word_of(
        store_bytes::unpack_store(store).text(text),
        |length| length as u32,
    )
}
