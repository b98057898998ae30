// What a store has: how many pages are held, how many are disputed, and the lowest that is not held.
ghost use Rattle.std.specs.Prelude.{◌≡◌, not, eqb, take, position};
ghost use Rattle.std.specs.Result.{result_unwrap_or};
ghost use Rattle.rows.specs.Refusals.{answers};
ghost use Rattle.bulletin.specs.Counts.{count_marked, count_of, counts_in, count_told, no_count, count_says};

use crate::store::Store;
use rows::question::unless;
use rows::refusal::Refusal;

// Lowest is 0 where every page is held: document 01 says so, and C is told it in the same word.
#[derive(Clone, Copy)]
pub struct Count {
    pub held: u8,
    pub disputed: u8,
    pub lowest: u8,
}

impl Store {
    // A loop, and no `filter` and `count`: those take eight times as many instructions.
    fn marked(&self, mark: u8) -> u8
        ensures { result ≡ count_marked mark self.now.pages }
    {
        let mut n = 0;
        for page in &self.pages {
            if page.mark == mark {
                n += 1;
            }
        }
        n
    }

    // How many pages of the bulletin stand before the lowest that is not held, if there is one.
    pub(crate) fn lowest(&self) -> Option<usize>
        ensures { result ≡ position (λ page. not (eqb page.mark 1)) (take self.now.name.total self.now.pages) }
    {
        self.pages
            .iter()
            .take(usize::from(self.name.total))
            .position(|page| page.mark != 1)
    }

    #[tactic(auto, unfolding(crate::specs::Counts::count_of))]
    pub fn count(&self) -> Result<Count, Refusal>
        ensures value { result ≡ count_told (count_of self.now) }
        ensures answer_value { answers result ≡ count_says self.now }
        ensures zeros { result_unwrap_or result no_count ≡ counts_in (count_of self.now) }
    {
        unless(self.is_sound(), Refusal::Unsound)?;
        Ok(Count {
            held: self.marked(1),
            disputed: self.marked(2),
            lowest: self.lowest().map_or(0, |before| before as u8 + 1),
        })
    }
}
