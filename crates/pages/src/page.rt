// One page: absent, held with its bytes, or disputed.
ghost use Rattle.std.specs.Prelude.{◌≡◌};
ghost use Rattle.pages.specs.Pages.{absent_page, held_page, disputed_page, kept_of, join, sound_at};

// Mark 0 is absent, 1 held, 2 disputed. Only a held page has bytes. The mark is a number and stands beside the bytes, since any
// 1205 bytes are a store (`store_or_zeros`), and theorems speak of those that are not sound.
#[derive(Clone, Copy)]
pub struct Page {
    pub mark: u8,
    pub text: [u8; Page::BYTES],
}

// The first of two pages, the second, or a disputed one.
#[derive(Clone, Copy)]
pub enum Kept {
    Own,
    Other,
    Neither,
}

impl Page {
    // The bytes of a page.
    pub const BYTES: usize = 18;

    pub fn absent() -> Page
        ensures { result ≡ absent_page }
    {
        Page {
            mark: 0,
            text: [0u8; Page::BYTES],
        }
    }

    pub fn held(text: [u8; Page::BYTES]) -> Page
        ensures { result ≡ held_page text }
    {
        Page { mark: 1, text }
    }

    pub fn disputed() -> Page
        ensures { result ≡ disputed_page }
    {
        Page {
            mark: 2,
            text: [0u8; Page::BYTES],
        }
    }

    // Which of two receivers' pages stands for both: a small answer, so that whoever has both copies
    // a page only where it changes.
    #[tactic(auto, using(rows::proofs::Rules::Tests::equal_bytes), unfolding(crate::specs::Pages::kept_of))]
    pub fn kept(&self, other: &Page) -> Kept
        ensures { result ≡ kept_of self.now other.now }
    {
        match (self.mark, other.mark) {
            (0, _) => Kept::Other,
            (_, 0) => Kept::Own,
            (1, 1) if self.text == other.text => Kept::Own,
            _ => Kept::Neither,
        }
    }

    // What two receivers have of a page.
    #[tactic(auto, unfolding(crate::specs::Pages::join, crate::specs::Pages::kept_of))]
    pub fn join(&self, other: &Page) -> Page
        ensures { result ≡ join self.now other.now }
    {
        match self.kept(other) {
            Kept::Own => *self,
            Kept::Other => *other,
            Kept::Neither => Page::disputed(),
        }
    }

    // One of the three, and without bytes unless it is held. It stands behind i others: past the total
    // it is absent.
    #[tactic(auto, using(rows::proofs::Rules::Tests::equal_bytes), unfolding(crate::specs::Pages::sound_at, crate::specs::Pages::sound_page))]
    pub fn is_sound_at(&self, i: usize, total: u8) -> bool
        ensures { result ≡ sound_at total i self.now }
    {
        let is_in_bulletin = i < usize::from(total);
        match self.mark {
            0 => self.text == [0u8; Page::BYTES],
            1 => is_in_bulletin,
            2 => is_in_bulletin && self.text == [0u8; Page::BYTES],
            _ => false,
        }
    }
}
