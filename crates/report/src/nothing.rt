// What is known of bits 43 to 213 where there is no category: the first spare.
ghost use Rattle.rows.specs.Layout.{no_category};
ghost use Rattle.report.specs.Categories.{sides_of};
ghost use Rattle.report.specs.declared.body.Body.TheVariants.{NoCategory};

use category::Category;
use rows::codes::{is_two_or_seven, is_uncorrected};
use rows::common::Common;
use rows::fields::{Fields, Spares, Table};
use rows::question::spare;
use rows::refusal::Refusal;
use slots::slot::Slot;

#[derive(Clone, Copy)]
pub(crate) struct Nothing;

impl Category for Nothing {
    ghost layout = { no_category };

    ghost said = { λ v. record {} };

    ghost values = { λ b z. sides_of NoCategory z };

    fn of(_f: &[u8]) -> Nothing {
        Nothing
    }

    fn of_values(_front: &[u64; 18], _behind: &[u64; 3]) -> Nothing {
        Nothing
    }

    fn spares(f: &[u8]) -> Spares {
        Spares {
            first: bits::field(f, 43, 10),
            second: 0,
        }
    }

    #[tactic(auto, unfolding(slots::specs::Slots::slots_of))]
    fn slots(_f: &[u8]) -> [Slot; 16] {
        [Slot::none(); 16]
    }

    fn text(_f: &[u8]) -> [u8; 18] {
        [0u8; 18]
    }

    #[tactic(auto, using(rows::proofs::Rules::Walks::body_parts, rows::proofs::Rules::Outcomes::then_fine, rows::proofs::Rules::Spans::allowed_one), unfolding(rows::specs::Runs::Verdict::walk, rows::specs::Runs::Verdict::judge, rows::specs::Runs::Verdict::slots_verdict))]
    fn check(self, common: Common, _slots: &[Slot; 16], spares: Spares) -> Result<(), Refusal> {
        common.check(is_two_or_seven(common.rc), is_uncorrected(common.it))?;
        spare(43, 10, spares.first)
    }

    fn table() -> Table {
        Table {
            code: 0,
            count: 0,
            widths: [0u8; 5],
            text: false,
            second: false,
        }
    }

    fn fields(self, spares: Spares) -> Fields {
        Fields {
            table: Nothing::table(),
            ahead: [10, 0, 0, 0, 0, 0, 0, 0, 0, 0, 0, 0, 0, 0, 0, 0, 0, 0],
            front: [
                spares.first,
                0,
                0,
                0,
                0,
                0,
                0,
                0,
                0,
                0,
                0,
                0,
                0,
                0,
                0,
                0,
                0,
                0,
            ],
            after: [161, 0, 0],
            behind: [0, 0, 0],
        }
    }
}
