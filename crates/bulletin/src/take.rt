// Taking a record into a store.
ghost use Rattle.std.specs.Prelude.{◌≡◌, ◌-◌, ◌≤◌, Ok, Err};
ghost use Rattle.rows.specs.declared.refusal.Refusal.{Refusal};
ghost use Rattle.bulletin.specs.Takings.{taking_answer, page_number_in, put_page, take_of, taken_says, take_says};

use crate::store::Store;
use pages::name::Name;
use pages::page::Page;
use report::record::Record;
use report::write::write_answer;
use rows::question::unless;
use rows::refusal::Refusal;

// What a taking answers of a record that it takes.
#[derive(Clone, Copy)]
pub enum Took {
    New,
    Same,
    Disputed,
}

// What that is, by the page before and after it.
#[tactic(auto, unfolding(crate::specs::Takings::taking_answer))]
fn told(before: &Page, after: &Page) -> Took
    ensures { Ok result ≡ taking_answer before.now after.now }
{
    match (before.mark, after.mark) {
        (0, _) => Took::New,
        (_, 1) => Took::Same,
        _ => Took::Disputed,
    }
}

// Which page of the bulletin a record brings: 12, then 13.
#[tactic(auto, unfolding(crate::specs::Takings::page_number_in, pages::specs::Names::same_name, pages::specs::Names::same_common))]
fn admit(name: Name, came: &Record) -> Result<u8, Refusal>
    ensures { result ≡ page_number_in name came.now.common came.now.body }
{
    let page = came.body.page().ok_or(Refusal::NoPage)?;
    let found = Name {
        common: came.common,
        serial: page.serial,
        total: page.total,
    };
    unless(found == name, Refusal::OtherBulletin)?;
    Ok(page.number)
}

// What a step refused, as the answer of a taking. Of a step that let the record through it is not asked.
fn refused<T: Copy>(step: Result<T, Refusal>) -> Result<Took, Refusal>
    ensures { (x : Refusal) → step ≡ Err x → result ≡ Err x }
{
    match step {
        Err(refusal) => Err(refusal),
        Ok(_) => Ok(Took::Same),
    }
}

impl Store {
    // The page of this number is joined with one held with the text.
    #[tactic(auto, unfolding(crate::specs::Takings::put_page))]
    fn put(&mut self, number: u8, text: &[u8; Self::BYTES]) -> Took
        requires { (1 ≤ number) × (number ≤ 63) }
        ensures { let put = put_page self.old (number - 1) text.now in (Ok result ≡ put.answer) × (self.new ≡ put.store) }
    {
        let i = usize::from(number) - 1;
        let before = self.pages[i];
        let after = before.join(&Page::held(*text));
        self.pages[i] = after;
        told(&before, &after)
    }

    // 14, then what writing to 32 bytes refuses, then 12 and 13: a refusal goes out at once, and the store stays as it was.
    #[tactic(auto, unfolding(crate::specs::Takings::taking, crate::specs::Takings::admission))]
    pub fn take(&mut self, came: &Record) -> Result<Took, Refusal>
        ensures value { (result ≡ (take_of self.old came.now).answer) × (self.new ≡ (take_of self.old came.now).store) }
        ensures answer_value { taken_says result ≡ take_says self.old came.now }
    {
        let sound = unless(self.is_sound(), Refusal::Unsound);
        let Ok(()) = sound else {
            return refused(sound);
        };
        let written = write_answer(came, 32);
        let Ok(()) = written else {
            return refused(written);
        };
        let admitted = admit(self.name, came);
        let Ok(number) = admitted else {
            return refused(admitted);
        };
        Ok(self.put(number, &came.text))
    }
}
