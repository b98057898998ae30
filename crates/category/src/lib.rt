// What a category is, whichever it is: what stands between bit 43 and bit 213 has a type of its own in each, which has the
// trait `Category`. Which categories there are is for the crates above.
#![tactic(auto)]

ghost use Rattle.std.specs.Prelude.{◌≡◌};
ghost use Rattle.bits.specs.Frame.{frame_in};
ghost use Rattle.rows.specs.Layout.{Layout};
ghost use Rattle.rows.specs.Runs.Fields.{fields_in, kept_in, table_in};
ghost use Rattle.rows.specs.Runs.Verdict.{body_verdict};
ghost use Rattle.rows.specs.Values.{Sides, head_values, sides_at, spares_at};
ghost use Rattle.rows.specs.declared.fields.Spares.{Spares};
ghost use Rattle.slots.specs.Slots.{slots_of, slots_values};
ghost use Rattle.category.specs.Text.{text_of};

use rows::common::Common;
use rows::fields::{Fields, Spares, Table};
use rows::refusal::Refusal;
use slots::slot::Slot;

pub trait Category {
    // Its table, what the values of the table's rows say, and the values of what they say, with those of the spares.
    ghost layout: { Layout };

    ghost said: { Sides → Self };

    ghost values: { Self → Spares → Sides };

    // The fields of a frame.
    fn of(f: &[u8]) -> Self
        ensures { result ≡ said (sides_at (frame_in f.now) layout) };

    // The fields that numbers say, of each as much as its field holds.
    fn of_values(front: &[u64; 18], behind: &[u64; 3]) -> Self
        ensures { result ≡ said (kept_in front.now behind.now layout) };

    // What stands in the spares of a frame.
    fn spares(f: &[u8]) -> Spares
        ensures { result ≡ spares_at (frame_in f.now) layout };

    // The slots of a frame, and empty ones up to sixteen.
    fn slots(f: &[u8]) -> [Slot; 16]
        ensures { result ≡ slots_of (frame_in f.now) layout.slots };

    // The text of a frame, zeros where there is none.
    fn text(f: &[u8]) -> [u8; 18]
        ensures { result ≡ text_of (frame_in f.now) layout };

    // What is found by all rules from bit 8 to bit 213. Of a text nothing is asked.
    fn check(self, common: Common, slots: &[Slot; 16], spares: Spares) -> Result<(), Refusal>
        ensures { result ≡ body_verdict layout (head_values common layout.code) (values self spares) (slots_values layout.slots slots.now) };

    // What its table says in numbers.
    fn table() -> Table
        ensures { result ≡ table_in layout };

    // The same with the rows in front of slots and text and behind them, as numbers in the order of the table.
    fn fields(self, spares: Spares) -> Fields
        ensures { result ≡ fields_in layout (values self spares) };
}
