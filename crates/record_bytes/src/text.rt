// The 18 bytes of a text, which records and pages have.
ghost use Rattle.std.specs.Prelude.{◌≡◌, ◌+◌, leb};
ghost use Rattle.record_bytes.specs.Text.{text_or_zeros};

use crate::sizes::TEXT_SIZE;

// So many bytes have a whole text from the byte `at` on.
fn has_text(size: usize, at: usize) -> bool
    ensures { result ≡ leb (at + 18) size }
{
    TEXT_SIZE <= size && at <= size - TEXT_SIZE
}

// The text from the byte `at` on. Bytes that do not reach so far have a text of zeros.
#[tactic(auto, using(crate::proofs::Texts::text_taken, crate::proofs::Texts::text_not_there))]
pub fn text_at(bytes: &[u8], at: usize) -> [u8; TEXT_SIZE]
    ensures { result ≡ text_or_zeros bytes.now at }
{
    let mut text = [0u8; TEXT_SIZE];
    if has_text(bytes.len(), at) {
        text.copy_from_slice(&bytes[at..at + TEXT_SIZE]);
    }
    text
}
