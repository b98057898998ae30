// 11: whether something stands in a record where its category has nothing.
ghost use Rattle.std.specs.Prelude.{◌≡◌};
ghost use Rattle.bits.specs.Frame.{Bytes};
ghost use Rattle.rows.specs.Runs.Verdict.{empty};
ghost use Rattle.report.specs.Runs.Writing.{tidy_by};

use rows::fields::{Spares, Table};
use slots::silence::are_tidy;
use slots::slot::Slot;

fn is_blank(text: &[u8; 18]) -> bool
    ensures { result ≡ empty text.now }
{
    for i in 0..18 {
        if text[i] != 0 {
            return false;
        }
    }
    true
}

// 11: nothing stands where a category with this table has nothing. The text is lent by itself, so that it is known here
// to hold bytes, which whoever asks on wants to know.
pub(crate) fn is_tidy(table: &Table, slots: &[Slot; 16], text: &[u8; 18], spares: Spares) -> bool
    ensures value { result ≡ tidy_by table.now slots.now text.now spares }
    ensures bytes { Bytes text.now }
{
    are_tidy(table.count, &table.widths, slots)
        && (table.second || spares.second == 0)
        && (table.text || is_blank(text))
}
