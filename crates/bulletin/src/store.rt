// A store of pages, opened for one bulletin, without a page.
ghost use Rattle.std.specs.Prelude.{◌≡◌};
ghost use Rattle.std.specs.Result.{result_unwrap_or};
ghost use Rattle.std.specs.List.{list_all, enumerate_from};
ghost use Rattle.rows.specs.Refusals.{answers, outcome};
ghost use Rattle.pages.specs.Names.{name_says};
ghost use Rattle.pages.specs.Pages.{sound_at};
ghost use Rattle.bulletin.specs.Stores.{no_pages, zero_store, open_of, sound_store};

use pages::name::Name;
use pages::page::Page;
use rows::refusal::Refusal;

#[derive(Clone, Copy)]
pub struct Store {
    pub name: Name,
    pub pages: [Page; Store::PAGES],
}

impl Store {
    // The pages of a store, and the bytes of a page.
    pub const PAGES: usize = 63;

    pub const BYTES: usize = Page::BYTES;

    fn without_pages(name: Name) -> Store
        ensures { result ≡ no_pages name }
    {
        Store {
            name,
            pages: [Page::absent(); Self::PAGES],
        }
    }

    // Nothing but zeros, for who has to hand out a store where an opening is refused. It is not sound.
    pub fn of_zeros() -> Store
        ensures { result ≡ zero_store }
    {
        Store::without_pages(Name::of_zeros())
    }

    pub fn open(name: Name) -> Result<Store, Refusal>
        ensures value { result ≡ outcome (open_of name).answer (open_of name).store }
        ensures answer_value { answers result ≡ name_says name }
        ensures zeros { result_unwrap_or result zero_store ≡ (open_of name).store }
    {
        name.verdict()?;
        Ok(Store::without_pages(name))
    }

    // Each page is sound where it stands.
    fn has_sound_pages(&self) -> bool
        ensures { result ≡ list_all (λ (i, page). sound_at self.now.name.total i page) (enumerate_from 0 self.now.pages) }
    {
        self.pages
            .iter()
            .enumerate()
            .all(|(i, page)| page.is_sound_at(i, self.name.total))
    }

    // Any store may be passed, from wherever it comes: this is what makes it one that frames give.
    #[tactic(auto, unfolding(crate::specs::Stores::sound_store))]
    pub fn is_sound(&self) -> bool
        ensures { result ≡ sound_store self.now }
    {
        self.name.is_in_range() && self.has_sound_pages()
    }
}
