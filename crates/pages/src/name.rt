// Which bulletin a page is of: report classification, issue time, information type, kind of
// information and page total.
ghost use Rattle.std.specs.Prelude.{◌≡◌};
ghost use Rattle.rows.specs.Refusals.{answers};
ghost use Rattle.pages.specs.Names.{zero_name, name_verdict, name_says, name_in_range};

use category::Category;
use nankai::PageNumbers;
use rows::common::Common;
use rows::fields::Spares;
use rows::refusal::Refusal;
use slots::slot::Slot;

// Two pages are of one bulletin where their names are equal: proofs/EqualNames.antt says what `==` compares.
#[derive(Clone, Copy, PartialEq, Eq)]
pub struct Name {
    pub common: Common,
    pub serial: u8,
    pub total: u8,
}

impl Name {
    // A name that no bulletin has.
    pub fn of_zeros() -> Name
        ensures { result ≡ zero_name }
    {
        Name {
            common: Common::of_zeros(),
            serial: 0,
            total: 0,
        }
    }

    // 8 at the first value that is out of range, in the order of a frame: a name is in range where
    // page 1 of its bulletin is, so the ranges of a frame's fields stand in one place.
    pub fn verdict(self) -> Result<(), Refusal>
        ensures value { result ≡ name_verdict self }
        ensures result_value { answers result ≡ name_says self }
    {
        let page = PageNumbers {
            serial: self.serial,
            number: 1,
            total: self.total,
        };
        page.check(self.common, &[Slot::none(); 16], Spares::none())
    }

    pub fn is_in_range(self) -> bool
        ensures { result ≡ name_in_range self }
    {
        self.verdict().is_ok()
    }
}
