// The sizes of the store, once for all code: paper 01, "The store", with the records of paper 02, card 1. Definitions speak of those in
// specs/Sizes.antt; that the two are the same is proved wherever code that uses these meets its contract.
pub const RECORD_LENGTH: usize = 28;

// Where the records start in an area.
pub const HEADER_LENGTH: usize = 48;

pub const MOST_RECORDS: usize = 128;

// 3,632
pub const AREA_LENGTH: usize = HEADER_LENGTH + RECORD_LENGTH * MOST_RECORDS;

pub const STREAMS: u32 = 16;

// 58,112
pub const STORE_LENGTH: usize = AREA_LENGTH * STREAMS as usize;
