// A record as bits: fields one behind the other, and the parity behind them.
// Nothing is refused here; what may be written is asked before.
ghost use Rattle.std.specs.Prelude.{◌≡◌, cond, length};
ghost use Rattle.report.specs.Runs.Writing.{Valid, body_pushed, frame, front_values, front_widths};
ghost use Rattle.bits.specs.Frame.{bytes_of};
ghost use Rattle.bits.specs.Words.{pushed_all, pushed_until, words_of};
ghost use Rattle.rows.specs.Layout.{common, no_category};
ghost use Rattle.rows.specs.Values.{head_values, widths};
ghost use Rattle.report.specs.Categories.{layout, sides_of};
ghost use Rattle.rows.specs.Runs.Fields.{fields_in};
ghost use Rattle.nankai.specs.Nankai.{nankai};

use crate::record::Record;
use bits::words::{Words, push_all};
use nankai::push_text;
use rows::common::Common;
use rows::fields::Fields;
use slots::encode::push_slots;

// Bits 8 to 42.
fn push_common(n: Words, c: Common, code: u8) -> Words
    ensures { result ≡ pushed_all n (widths (common no_category)) (head_values c code) }
{
    n.push(6, 43)
        .push(3, u64::from(c.rc))
        .push(4, u64::from(code))
        .push(4, u64::from(c.month))
        .push(5, u64::from(c.day))
        .push(5, u64::from(c.hour))
        .push(6, u64::from(c.minute))
        .push(2, u64::from(c.it))
}

// A text, where the category has one.
fn push_page(n: Words, has: bool, text: &[u8; 18]) -> Words
    ensures { result ≡ cond has (pushed_all n (widths nankai.text) text.now) n }
{
    if has { push_text(n, text) } else { n }
}

// Bits 43 to 213: the rows in front, the slots, the text, and the rows behind.
#[tactic(auto, unfolding(crate::specs::Runs::Writing::body_pushed))]
fn push_body(n: Words, fields: &Fields, r: &Record) -> Words
    ensures { result ≡ body_pushed n fields.now r.now.slots r.now.text }
{
    let table = &fields.table;
    let start = push_all(n, &fields.ahead, &fields.front);
    let places = push_slots(start, table.count, &table.widths, &r.slots);
    let page = push_page(places, table.text, &r.text);
    push_all(page, &fields.after, &fields.behind)
}

// Bits 0 to 225 of a valid record, whose fields these are.
fn front(r: &Record, fields: &Fields) -> Words
    requires { Valid r.now × (fields.now ≡ fields_in (layout r.now.body) (sides_of r.now.body r.now.spares)) }
    ensures { result ≡ pushed_all (words_of 0) (front_widths (layout r.now.body)) (front_values r.now) }
{
    let preamble = Words::of(0).push(8, u64::from(r.preamble));
    let head = push_common(preamble, r.common, fields.table.code);
    let inner = push_body(head, fields, r);
    inner.push(6, 1).push(6, u64::from(r.reserved))
}

// The frame of a valid record, whose fields these are, into a lent one. The parity is that of all bits before it, which
// have to stand in a frame first.
pub(crate) fn encode(r: &Record, fields: &Fields, lent: &mut [u8])
    requires { Valid r.now × ((fields.now ≡ fields_in (layout r.now.body) (sides_of r.now.body r.now.spares)) × (length lent.old ≡ 32)) }
    ensures { lent.new ≡ bytes_of (frame r.now) }
{
    let words = front(r, fields);
    words.push(30, 0).put(lent);
    let parity = parity::parity(lent);
    words.push(24, u64::from(parity)).push(6, 0).put(lent);
}
