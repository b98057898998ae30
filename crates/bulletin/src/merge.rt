// Two receivers' stores of one bulletin made one.
ghost use Rattle.std.specs.Prelude.{◌≡◌};
ghost use Rattle.rows.specs.Refusals.{answers};
ghost use Rattle.bulletin.specs.Merges.{joined_stores, merge_of, merge_says};

use crate::store::Store;
use pages::page::{Kept, Page};
use rows::question::unless;
use rows::refusal::Refusal;

impl Store {
    // Page by page.
    fn join(&mut self, other: &Store)
        ensures { self.new ≡ joined_stores self.old other.now }
    {
        for (i, theirs) in other.pages.iter().enumerate() {
            match self.pages[i].kept(theirs) {
                Kept::Own => {}
                Kept::Other => self.pages[i] = *theirs,
                Kept::Neither => self.pages[i] = Page::disputed(),
            }
        }
    }

    // 14, then 13. A refused merge leaves the store as it was.
    #[tactic(auto, unfolding(crate::specs::Merges::merge_verdict, pages::specs::Names::same_name, pages::specs::Names::same_common))]
    pub fn merge(&mut self, other: &Store) -> Result<(), Refusal>
        ensures value { (result ≡ (merge_of self.old other.now).answer) × (self.new ≡ (merge_of self.old other.now).store) }
        ensures answer_value { answers result ≡ merge_says self.old other.now }
    {
        unless(self.is_sound(), Refusal::Unsound)?;
        unless(other.is_sound(), Refusal::Unsound)?;
        unless(self.name == other.name, Refusal::OtherBulletin)?;
        self.join(other);
        Ok(())
    }
}
