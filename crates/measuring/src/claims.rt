// The claims of specs/Claims.antt and specs/Cases.antt, each the contract of a function that does nothing.
ghost use Rattle.std.specs.Prelude.{List, ℤ};
ghost use Rattle.measuring.specs.Claims.{SpreadIs};
ghost use Rattle.measuring.specs.Cases.{TablesHold, EdgesHold};

// S is n times the corrected sum of squares, and never negative; the variance is the corrected sum of squares over n - 1.
#[tactic(auto, using(crate::proofs::Spread::spread_line6, crate::proofs::Spread::variance_line7, crate::proofs::Spread::never_negative))]
pub fn spread_as_tabled()
    ensures { (xs : List ℤ) → SpreadIs xs }
{}

// The definitions give Tables D.2 and D.3.
#[tactic(auto, using(crate::proofs::Cases::tables_hold_lem))]
pub fn tables_hold()
    ensures { TablesHold }
{}

// They give the cases that were worked out by hand.
#[tactic(auto, using(crate::proofs::Cases::edges_hold_lem))]
pub fn edges_hold()
    ensures { EdgesHold }
{}
