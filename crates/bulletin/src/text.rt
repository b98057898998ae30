// The text of a store whose pages are all held.
ghost use Rattle.std.specs.Prelude.{◌≡◌, ◌++◌, ◌+◌, ◌<◌, ◌≤◌, ◌≢◌, ℕ, length, take, drop, slice_index, EachIndex, MatchOption};
ghost use Rattle.std.specs.Result.{result_unwrap_or};
ghost use Rattle.std.proofs.Math.Seq.{paste};
ghost use Rattle.rows.specs.Refusals.{answers, outcome};
ghost use Rattle.bulletin.specs.Text.{bytes_in_order, text_length_of, why_not_held, text_verdict, text_answer, text_buffer, text_says};

use crate::store::Store;
use pages::page::Page;
use rows::question::unless;
use rows::refusal::Refusal;

// How 15 tells that a page is not held: 1 absent, 2 disputed.
#[tactic(auto, unfolding(crate::specs::Text::why_not_held))]
fn absence(page: &Page) -> u8
    ensures { result ≡ why_not_held page.now }
{
    if page.mark == 0 { 1 } else { 2 }
}

// How many bytes stand before the last one that is not zero, if there is one.
fn last_byte(page: &Page) -> Option<usize>
    ensures { let text = page.now.text in
        MatchOption result (EachIndex text (λ k. slice_index text k ≡ 0))
        (λ last. (last < 18) × (slice_index text last ≢ 0) × ((k : ℕ) → last < k → k < 18 → slice_index text k ≡ 0)) }
{
    page.text.iter().rposition(|byte| *byte != 0)
}

// The first bytes of a page, of which there are `count`, from the byte `at` on. The page is passed by value: of one that is
// lent the compiler does not know that it lies apart from the buffer, and copies it byte by byte.
fn put_page(out: &mut [u8], at: usize, page: Page, count: usize)
    requires { (count ≤ 18) × (at + count ≤ length out.old) }
    ensures { out.new ≡ paste out.old at page.text count }
{
    out[at..at + count].copy_from_slice(&page.text[..count]);
}

impl Store {
    // The bytes of the pages of the bulletin, less all zero bytes at their end: those up to the last
    // page that has others.
    fn text_length(&self) -> usize
        requires { self.now.name.total ≤ 63 }
        ensures { result ≡ text_length_of self.now }
    {
        for i in (0..usize::from(self.name.total)).rev() {
            if let Some(last) = last_byte(&self.pages[i]) {
                return Self::BYTES * i + last + 1;
            }
        }
        0
    }

    // Whole pages, and then what is left of the next.
    fn copy_text(&self, n: usize, out: &mut [u8])
        requires { (n ≤ 1134) × (n ≤ length out.old) }
        ensures { out.new ≡ take n (bytes_in_order self.now.pages) ++ drop n out.old }
    {
        let whole = n / Self::BYTES;
        let rest = n % Self::BYTES;
        for i in 0..whole {
            put_page(out, Self::BYTES * i, self.pages[i], Self::BYTES);
        }
        if rest > 0 {
            put_page(out, Self::BYTES * whole, self.pages[whole], rest);
        }
    }

    // 14, then 15.
    #[tactic(auto, unfolding(crate::specs::Text::text_verdict))]
    fn check_whole(&self) -> Result<(), Refusal>
        ensures { result ≡ text_verdict self.now }
    {
        unless(self.is_sound(), Refusal::Unsound)?;
        match self.lowest() {
            None => Ok(()),
            Some(before) => Err(Refusal::NotHeld {
                page: before as u8 + 1,
                mark: absence(&self.pages[before]),
            }),
        }
    }

    // How many bytes of text are in the buffer: 14, 15, then 16. A refusal leaves the buffer as it was.
    pub fn text(&self, out: &mut [u8]) -> Result<usize, Refusal>
        ensures value { let told = text_answer self.now (length out.old) in
            (result ≡ outcome told.answer told.length) × (out.new ≡ text_buffer self.now out.old) }
        ensures answer_value { answers result ≡ text_says self.now (length out.old) }
        ensures zeros { result_unwrap_or result 0 ≡ (text_answer self.now (length out.old)).length }
    {
        self.check_whole()?;
        let n = self.text_length();
        unless(n <= out.len(), Refusal::Short)?;
        self.copy_text(n, out);
        Ok(n)
    }
}
