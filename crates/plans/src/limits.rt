// What a range is, and the ranges that paper 01 and card 3 of paper 02 set, once for all code; specs/Limits.antt has them for the
// definitions, with the refusal of each.
ghost use Rattle.std.specs.Prelude.{◌≡◌};
ghost use Rattle.plans.specs.Limits.{within as is_within};

pub const LARGEST_LOT: u32 = 1000000;

pub const LEAST_LOT: u32 = 1;

// Of a level stream.
pub const LEAST_LEVEL_LOT: u32 = 2;

// An AOQL, in millionths.
pub const LARGEST_AOQL: u32 = 500000;

// Of a credit plan, on its usable credit.
pub const LARGEST_CEILING: u32 = 128000000;

// VL-1 to VL-7.
pub const VERIFICATION_LEVELS: u32 = 7;

pub const LARGEST_CLEARANCE: u32 = 10000;

pub const LARGEST_INTERVAL: u32 = 200;

pub const LONGEST_RUN: u32 = 10000;

// In days.
pub const LONGEST_STOP: u32 = 255;

// Whether n is from low to high.
#[tactic(auto, unfolding(crate::specs::Limits::within))]
pub fn within(low: u32, high: u32, n: u32) -> bool
    ensures { result ≡ is_within low high n }
{
    low <= n && n <= high
}
