// An answer as one word: the number of the refusal in the high byte, then its place, page and mark.
ghost use Rattle.std.specs.Prelude.{◌≡◌, MatchResult};
ghost use Rattle.std.specs.Result.{ForOk};
ghost use Rattle.rows.specs.Refusals.{says};
ghost use Rattle.inserter.specs.Answers.{answer_word, report_word, taken_word};

use bulletin::count::Count;
use bulletin::take::Took;
use rows::refusal::{Refusal, Said};

// The answer to a call with a buffer of a length that it does not take: 255, the number of no refusal.
pub(crate) const WRONG_CALL: u32 = 0xFF00_0000;

fn word(said: Said) -> u32
    ensures { result ≡ answer_word said }
{
    let number = u32::from(said.number) * 0x100_0000;
    let place = u32::from(said.place) * 0x1_0000;
    let page = u32::from(said.page) * 0x100;
    number + place + page + u32::from(said.mark)
}

pub(crate) fn refusal_word(refusal: Refusal) -> u32
    ensures { result ≡ answer_word (says refusal) }
{
    word(refusal.says())
}

// The word of an answer: that of its refusal, or what is told of what there is.
pub(crate) fn word_of<T, F: FnOnce(T) -> u32>(answer: Result<T, Refusal>, told: F) -> u32
    requires { ForOk answer (λ x. F.pre told x) }
    ensures { MatchResult answer (λ x. F.post told x result) (λ r. result ≡ answer_word (says r)) }
{
    match answer {
        Ok(there) => told(there),
        Err(refusal) => refusal_word(refusal),
    }
}

pub(crate) fn taken_word(answer: Result<Took, Refusal>) -> u32
    ensures { result ≡ taken_word answer }
{
    word_of(answer, |took| match took {
        Took::New => 1,
        Took::Same => 2,
        Took::Disputed => 3,
    })
}

// The numbers of a report stand where a refusal has place, page and mark.
pub(crate) fn report_word(count: Count) -> u32
    ensures { result ≡ report_word count }
{
    word(Said {
        number: 0,
        place: count.held,
        value: 0,
        page: count.disputed,
        mark: count.lowest,
    })
}
