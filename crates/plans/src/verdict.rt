// The verdicts on a lot.
ghost use Rattle.std.specs.Prelude.{◌≡◌, ◌≤◌};
ghost use Rattle.plans.specs.Verdicts.{level_verdict, accepted_of};

use crate::LotSize;

// Kept: a verdict is a number, since `rules::refusing::do_counts_agree` answers for every number (`counts_agree`).

// No wrong detection in the sample.
pub const ACCEPTED: u32 = 1;
// Not accepted, and every detection of it heard.
pub const HEARD: u32 = 2;
// Not accepted: a credit lot returned whole, a level lot withheld.
pub const WITHHELD: u32 = 3;

// The verdict on a level lot with so many wrong in its sample.
#[tactic(auto, unfolding(crate::specs::Verdicts::level_verdict))]
pub fn of_level_lot(wrong: u32) -> u32
    ensures { result ≡ level_verdict wrong }
{
    if wrong == 0 { ACCEPTED } else { WITHHELD }
}

// How many of a lot's detections are accepted.
#[tactic(auto, unfolding(crate::specs::Verdicts::accepted_of))]
pub fn accepted_of(verdict: u32, size: LotSize, wrong_in_all: u32) -> u32
    requires { wrong_in_all ≤ size.0 }
    ensures { result ≡ accepted_of verdict size.0 wrong_in_all }
{
    match verdict {
        ACCEPTED => size.0,
        HEARD => size.0 - wrong_in_all,
        _ => 0,
    }
}
