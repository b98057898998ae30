// What every category of report rests on: why a call is refused, the questions asked of a field, and
// what several categories have in their fields.
#![tactic(auto)]

pub mod refusal; // why a call is refused
pub mod question; // one question after another
pub mod time; // day, hour and minute
pub mod codes; // which values of a field several categories have
pub mod fields; // the fields of a category, one behind the other
pub mod common; // what every category has in front of its own fields
