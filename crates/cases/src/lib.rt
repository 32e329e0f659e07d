// Paper 01's table of proved cases, and card 3's samples under a ceiling, worked out by the code of plans. Each contract is the table's own
// numbers.
#![tactic(auto)]

ghost use Rattle.std.specs.Prelude.{◌≡◌, ◌≤◌};
ghost use Rattle.cases.specs.Cases.{credit_cases, ceiling_cases, level_cases, continuous_cases, stated_in, ProvedCases};
ghost use Rattle.plans.specs.Credit.{credit_sample};
ghost use Rattle.plans.specs.Limits.{largest_credit, largest_lot, largest_aoql};
ghost use Rattle.plans.specs.Tables.{level_sample};

use plans::continuous::Continuous;
use plans::credit::Credit;
use plans::tables::VerificationLevel;
use plans::{LotSize, level};

// The definitions give the whole table: one theorem, pinned as the contract of a function that does nothing.
#[tactic(auto, using(crate::proofs::Theorem::proved_cases))]
pub fn table_holds()
    ensures { ProvedCases }
{}

#[tactic(auto, using(crate::proofs::Theorem::proved_cases), unfolding(crate::specs::Cases::credit_cases, crate::specs::Cases::given_in, crate::specs::Cases::stated_in))]
pub fn credit_cases() -> [u32; 7]
    ensures { result ≡ stated_in credit_cases }
{
    [
        credit_sample(0, 0, 201, 15000),
        credit_sample(201, 0, 192, 15000),
        credit_sample(0, 0, 50, 10000),
        credit_sample(200, 0, 50, 10000),
        credit_sample(0, 0, 9900, 10000),
        credit_sample(0, 0, 9901, 10000),
        credit_sample(0, 0, 1, 10000),
    ]
}

// Of paper 02, card 3: a lot of 50 under a ceiling of 100, as the credit grows past it.
#[tactic(auto, using(crate::proofs::Theorem::proved_cases), unfolding(crate::specs::Cases::ceiling_cases, crate::specs::Cases::given_in, crate::specs::Cases::stated_in))]
pub fn ceiling_cases() -> [u32; 4]
    ensures { result ≡ stated_in ceiling_cases }
{
    [
        credit_sample(0, 100, 50, 10000),
        credit_sample(50, 100, 50, 10000),
        credit_sample(100, 100, 50, 10000),
        credit_sample(150, 100, 50, 10000),
    ]
}

#[tactic(auto, using(crate::proofs::Theorem::proved_cases), unfolding(crate::specs::Cases::level_cases, crate::specs::Cases::given_in, crate::specs::Cases::stated_in))]
pub fn level_cases() -> [u32; 5]
    ensures { result ≡ stated_in level_cases }
{
    let second = VerificationLevel { number: 2 };
    let seventh = VerificationLevel { number: 7 };
    [
        level_sample(second, level::NORMAL, 800),
        level_sample(second, level::TIGHTENED, 800),
        level_sample(second, level::REDUCED, 800),
        level_sample(second, level::NORMAL, 961),
        level_sample(seventh, level::NORMAL, 2),
    ]
}

// What is to be heard back, and what is accepted in all.
#[tactic(auto, using(crate::proofs::Theorem::proved_cases), unfolding(crate::specs::Cases::continuous_cases, crate::specs::Cases::given_in, crate::specs::Cases::stated_in, crate::specs::Cases::cleared, crate::specs::Cases::right_block, crate::specs::Cases::wrong_block, plans::specs::Continuous::screening, plans::specs::Continuous::after_block))]
pub fn continuous_cases() -> [u32; 2]
    ensures { result ≡ stated_in continuous_cases }
{
    let cleared = Continuous::screen(0).run(116, 116, false);
    let right = cleared.block(48, 10, false);
    let state = right.state;
    let wrong = state.block(48, 5, true);
    [wrong.hear_back, 116 + right.accepted + wrong.accepted]
}

fn credit_sample(credit: u32, ceiling: u32, size: u32, limit: u32) -> u32
    requires { (credit ≤ largest_credit) × (1 ≤ size) × (size ≤ largest_lot) × (limit ≤ largest_aoql) }
    ensures { result ≡ credit_sample credit ceiling size limit }
{
    Credit(credit).sample(ceiling, LotSize(size), limit).0
}

fn level_sample(vl: VerificationLevel, severity: u32, size: u32) -> u32
    ensures { result ≡ level_sample vl.number severity size }
{
    vl.sample_size(severity, LotSize(size)).0
}
