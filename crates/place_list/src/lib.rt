// The list of places: whether a code is one of table 4.1.2-33 of document 001. Reading does not ask: a report may name a place
// that the table does not have.
#![tactic(auto)]

ghost use Rattle.std.specs.Prelude.{◌≡◌};
ghost use Rattle.place_list.specs.Standing.{standing_of};

mod search; // by halves
mod table; // the codes

use crate::search::is_listed;

#[derive(Clone, Copy)]
pub enum Standing {
    // The table has the place.
    Listed,
    // The table does not have it, but its first digits are those of a prefecture.
    Unlisted,
    // It lies in no prefecture.
    Outside,
}

impl Standing {
    // How a place stands to the table.
    pub fn of(place: u64) -> Standing
        ensures { result ≡ standing_of place }
    {
        match place {
            100000..=4799999 => {
                if is_listed(place as u32) {
                    Standing::Listed
                } else {
                    Standing::Unlisted
                }
            }
            _ => Standing::Outside,
        }
    }
}
