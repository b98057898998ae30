// DC Report frames of message type 43 in categories 2 (hypocenter), 3 (seismic intensity), 4 (Nankai
// Trough), 5 (tsunami), 8 (volcano), 9 (ash fall) and 11 (flood): from lent bytes to a record or the one refusal that fits.
// Gathering the pages of a bulletin and listing files is for the crates above.
#![tactic(auto)]

pub mod body; // what each category has
mod nothing; // what is known where there is no category
pub mod record; // what a frame says
mod codes; // which preambles there are
mod tidy; // nothing stands where the category has nothing
mod encode; // a record as bits
pub mod read; // from a lent frame to a record
pub mod look; // what is seen of a lent frame without a record
pub mod write; // from a record to a lent frame
