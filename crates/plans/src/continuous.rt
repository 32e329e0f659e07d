// Continuous sampling: paper 01, "Continuous".
ghost use Rattle.std.specs.Prelude.{◌≡◌, ◌+◌, ◌≤◌};
ghost use Rattle.plans.specs.Continuous.{screening, sampling, after_run, after_block, after_stop};
ghost use Rattle.plans.specs.Limits.{largest_clearance, largest_interval};

use crate::stops;

// Kept: a phase is a number, since `Continuous::stop` answers for every number (`after_stop`).
pub const SCREENING: u8 = 0;

pub const SAMPLING: u8 = 1;

// A continuous stream's state: bytes 24 to 31 of its area.
#[derive(Clone, Copy, Default)]
pub struct Continuous {
    // screening count
    pub count: u32,
    // 0 screening, 1 sampling
    pub phase: u8,
    // detections that have passed since the last one heard in sampling
    pub tail: u16,
}

// What a block gives.
#[derive(Clone, Copy)]
pub struct Block {
    pub state: Continuous,
    pub accepted: u32,
    pub hear_back: u32,
}

impl Continuous {
    // In screening, with count right detections in an unbroken row.
    #[tactic(auto, unfolding(crate::specs::Continuous::screening))]
    pub fn screen(count: u32) -> Self
        ensures { result ≡ screening count }
    {
        Self {
            count,
            phase: SCREENING,
            tail: 0,
        }
    }

    // In sampling, with tail detections passed since the last one heard.
    #[tactic(auto, unfolding(crate::specs::Continuous::sampling))]
    fn sample(tail: u16) -> Self
        ensures { result ≡ sampling tail }
    {
        Self {
            count: 0,
            phase: SAMPLING,
            tail,
        }
    }

    // A run in screening: so many right detections, then a wrong one if wrong.
    #[tactic(auto, unfolding(crate::specs::Continuous::after_run))]
    pub fn run(self, clearance: u32, right: u32, wrong: bool) -> Self
        requires { (self.count + right ≤ clearance) × (clearance ≤ largest_clearance) }
        ensures { result ≡ after_run clearance right wrong self }
    {
        if wrong {
            return Self::screen(0);
        }
        let count = self.count + right;
        if count == clearance {
            Self::sample(0)
        } else {
            Self::screen(count)
        }
    }

    // A block in sampling, of which one detection is heard, counted from 1.
    // Kept: interval and heard are no pair, since `rules::answering::block` would have to say that the pair's interval is the plan's.
    #[tactic(auto, unfolding(crate::specs::Continuous::after_block))]
    pub fn block(self, interval: u32, heard: u32, wrong: bool) -> Block
        requires { (1 ≤ heard) × (heard ≤ interval) × (interval ≤ largest_interval) }
        ensures { result ≡ after_block interval heard wrong self }
    {
        if wrong {
            Block {
                state: Self::screen(0),
                accepted: heard - 1,
                hear_back: self.tail as u32 + heard - 1,
            }
        } else {
            Block {
                state: Self::sample((interval - heard) as u16),
                accepted: interval,
                hear_back: 0,
            }
        }
    }

    // Meets a stop.
    #[tactic(auto, unfolding(crate::specs::Continuous::after_stop, crate::specs::Continuous::is_sampling, crate::specs::Stops::set_up_changed, crate::specs::Stops::long_stop))]
    pub fn stop(self, why: u32, days: u32) -> Self
        ensures { result ≡ after_stop why days self }
    {
        if why == stops::SET_UP_CHANGED || self.phase == SAMPLING && stops::SHORT_STOP < days {
            Self::screen(0)
        } else {
            self
        }
    }
}
