// The sizes of the table in specs/Stores.antt, in bytes, and the place where the pages start.
pub const STORE_SIZE: usize = 1205;

pub const NAME_SIZE: usize = 8;

pub(crate) const PAGES_AT: usize = 8;

pub(crate) const PAGE_SIZE: usize = 19;
