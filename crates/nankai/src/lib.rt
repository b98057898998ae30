// Category 4, Nankai Trough: which page of which bulletin a frame brings, and the page's text. Gathering
// the pages of a bulletin is for the crates above.
#![tactic(auto)]

ghost use Rattle.std.specs.Prelude.{◌≡◌};
ghost use Rattle.bits.specs.Words.{pushed_all};
ghost use Rattle.rows.specs.Values.{widths};
ghost use Rattle.nankai.specs.Nankai.{nankai, number_values, numbers_from};

use bits::Number;
use bits::words::Words;
use category::Category;
use rows::codes::{is_two_or_seven, is_uncorrected};
use rows::common::Common;
use rows::fields::{Fields, Spares, Table};
use rows::question::{spare, within};
use rows::refusal::Refusal;
use slots::slot::Slot;

// The kind of information (Is), and which page of how many this is. The text stands beside it.
#[derive(Clone, Copy)]
pub struct PageNumbers {
    pub serial: u8,
    pub number: u8,
    pub total: u8,
}

impl Category for PageNumbers {
    ghost layout = { nankai };

    ghost said = { numbers_from };

    ghost values = { number_values };

    fn of(f: &[u8]) -> PageNumbers {
        PageNumbers {
            serial: bits::field(f, 53, 4),
            number: bits::field(f, 201, 6),
            total: bits::field(f, 207, 6),
        }
    }

    fn of_values(front: &[u64; 18], behind: &[u64; 3]) -> PageNumbers {
        PageNumbers {
            serial: u8::lowest(front[1]),
            number: u8::lowest(behind[0]),
            total: u8::lowest(behind[1]),
        }
    }

    fn spares(f: &[u8]) -> Spares {
        Spares {
            first: bits::field(f, 43, 10),
            second: bits::field(f, 213, 1),
        }
    }

    #[tactic(auto, unfolding(slots::specs::Slots::slots_of))]
    fn slots(_f: &[u8]) -> [Slot; 16] {
        [Slot::none(); 16]
    }

    fn text(f: &[u8]) -> [u8; 18] {
        let mut text = [0u8; 18];
        for k in 0..18 {
            text[k] = bits::field(f, 57 + 8 * k, 8);
        }
        text
    }

    #[tactic(auto, using(rows::proofs::Rules::Walks::body_parts, rows::proofs::Rules::Walks::no_slots_lem, rows::proofs::Rules::Spans::allowed_one, rows::proofs::Rules::Outcomes::then_fine, rows::proofs::Rules::Outcomes::fine_then, rows::proofs::Rules::Outcomes::then_assoc), unfolding(rows::specs::Runs::Verdict::walk, rows::specs::Runs::Verdict::judge))]
    fn check(self, common: Common, _slots: &[Slot; 16], spares: Spares) -> Result<(), Refusal> {
        common.check(is_two_or_seven(common.rc), is_uncorrected(common.it))?;
        spare(43, 10, spares.first)?;
        within(53, u64::from(self.serial), 1, 15)?;
        within(201, u64::from(self.number), 1, 63)?;
        within(207, u64::from(self.total), u64::from(self.number), 63)?;
        spare(213, 1, spares.second)
    }

    fn table() -> Table {
        Table {
            code: 4,
            count: 0,
            widths: [0, 0, 0, 0, 0],
            text: true,
            second: true,
        }
    }

    // The rows in front of the text and behind it.
    fn fields(self, spares: Spares) -> Fields {
        let serial = u64::from(self.serial);
        let number = u64::from(self.number);
        let total = u64::from(self.total);
        Fields {
            table: PageNumbers::table(),
            ahead: [10, 4, 0, 0, 0, 0, 0, 0, 0, 0, 0, 0, 0, 0, 0, 0, 0, 0],
            front: [
                spares.first,
                serial,
                0,
                0,
                0,
                0,
                0,
                0,
                0,
                0,
                0,
                0,
                0,
                0,
                0,
                0,
                0,
                0,
            ],
            after: [6, 6, 1],
            behind: [number, total, spares.second],
        }
    }
}

// A page's text, behind what stands before it.
#[tactic(auto, using(crate::proofs::Pushing::byte_more))]
pub fn push_text(n: Words, text: &[u8; 18]) -> Words
    ensures { result ≡ pushed_all n (widths nankai.text) text.now }
{
    let mut next = n;
    for byte in text {
        next = next.push(8, u64::from(*byte));
    }
    next
}
