// The moves between levels: paper 01, "Level lots".
ghost use Rattle.std.specs.Prelude.{◌≡◌, ◌<◌};
ghost use Rattle.plans.specs.LevelBounds.{most_counted};
ghost use Rattle.plans.specs.Levels.{level_start, shifted, withheld_in, arrived, counted, level_after, judged_lot, met_stop};

use crate::stops;

// Kept: a level is a number, since `LevelState::judge` and `meet_stop` answer for every number (`judged_lot`, `met_stop`).
pub const REDUCED: u32 = 0;

pub const NORMAL: u32 = 1;

pub const TIGHTENED: u32 = 2;

pub const DISCONTINUED: u32 = 3;

// A level stream's state: bytes 20 to 23 of its area.
#[derive(Clone, Copy, Default)]
pub struct LevelState {
    pub level: u32,
    // accepted lots in an unbroken row judged at this level since arriving
    pub row: u32,
    // lots judged on tightened since arriving, 0 at other levels
    pub judged: u32,
    // which of the last five lots were withheld, newest in bit 0
    pub window: u32,
}

impl LevelState {
    #[tactic(auto, unfolding(crate::specs::Levels::level_start))]
    pub fn start() -> Self
        ensures { result ≡ level_start }
    {
        Self {
            level: NORMAL,
            row: 0,
            judged: 0,
            window: 0,
        }
    }

    // Judges a lot: counts it, and moves the level, once.
    #[tactic(auto, unfolding(crate::specs::Levels::judged_lot, crate::specs::Levels::moved))]
    pub fn judge(mut self, permits_reduced: bool, withheld: bool) -> Self
        requires { (self.row < most_counted) × (self.judged < most_counted) }
        ensures { result ≡ judged_lot permits_reduced withheld self }
    {
        self = self.count(withheld);
        let level = self.level_after(permits_reduced);
        if level == self.level {
            self
        } else {
            self.arrive(level)
        }
    }

    // Arrives at a level.
    #[tactic(auto, unfolding(crate::specs::Levels::arrived))]
    pub fn arrive(mut self, level: u32) -> Self
        ensures { result ≡ arrived level self }
    {
        self.level = level;
        self.row = 0;
        self.judged = 0;
        self
    }

    // Meets a stop.
    #[tactic(auto, unfolding(crate::specs::Levels::met_stop, crate::specs::Stops::set_up_changed, crate::specs::Stops::long_stop, crate::specs::Levels::arrived))]
    pub fn meet_stop(mut self, why: u32, days: u32) -> Self
        ensures { result ≡ met_stop why days self }
    {
        if self.level == REDUCED && (why == stops::SET_UP_CHANGED || stops::SHORT_STOP < days) {
            self = self.arrive(NORMAL);
        }
        self
    }

    // Counts a lot, judged at the state's level.
    #[tactic(auto, unfolding(crate::specs::Levels::counted, crate::specs::Levels::lengthened, crate::specs::Levels::judged_on_tightened))]
    fn count(mut self, withheld: bool) -> Self
        requires { (self.row < most_counted) × (self.judged < most_counted) }
        ensures { (result ≡ counted withheld self) × (result.window < 32) }
    {
        self.row = if withheld { 0 } else { self.row + 1 };
        self.judged = if self.level == TIGHTENED {
            self.judged + 1
        } else {
            0
        };
        self.window = shift_in(self.window, withheld);
        self
    }

    // The level after a lot, which has been counted. (None is judged where the stream is discontinued.)
    #[tactic(auto, unfolding(crate::specs::Levels::level_after, crate::specs::Levels::after_normal, crate::specs::Levels::after_tightened, crate::specs::Levels::after_reduced))]
    fn level_after(self, permits_reduced: bool) -> u32
        requires { self.window < 32 }
        ensures { result ≡ level_after permits_reduced self }
    {
        match self.level {
            NORMAL if 2 <= withheld_in(self.window) => TIGHTENED,
            NORMAL if permits_reduced && 10 <= self.row => REDUCED,
            TIGHTENED if 5 <= self.row => NORMAL,
            TIGHTENED if 10 <= self.judged => DISCONTINUED,
            REDUCED if self.window % 2 == 1 => NORMAL,
            level => level,
        }
    }
}

// The window with one lot more.
#[tactic(auto, unfolding(crate::specs::Levels::shifted))]
fn shift_in(window: u32, withheld: bool) -> u32
    ensures { (result ≡ shifted withheld window) × (result < 32) }
{
    if withheld {
        window % 16 * 2 + 1
    } else {
        window % 16 * 2
    }
}

// How many lots of the window were withheld.
#[tactic(auto, using(crate::proofs::Windows::ones_in_window))]
fn withheld_in(window: u32) -> u32
    requires { window < 32 }
    ensures { result ≡ withheld_in window }
{
    u32::count_ones(window)
}
