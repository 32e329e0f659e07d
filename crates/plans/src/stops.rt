// Stops: paper 01, "Calls", Stop (why, days); document 000, 5.1.2.4.3.

// The why of a stop at which the set-up changed, and of any other.
// Kept: a number, since `LevelState::meet_stop` and `Continuous::stop` answer for every number (`set_up_changed`).
pub const SET_UP_CHANGED: u32 = 2;

pub const PAUSE: u32 = 1;

// A stop of more days than these is a long one.
pub const SHORT_STOP: u32 = 3;
