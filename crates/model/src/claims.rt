// The claims of specs/Claims.antt and specs/Cases.antt, each the contract of a function: each is proved with the crate, and what it
// says stands in specs/. The functions do nothing: what they promise is that the definitions are as claimed.
ghost use Rattle.std.specs.Prelude.{ℕ, ◌<◌, List, T};
ghost use Rattle.model.specs.declared.Plan.{Plan};
ghost use Rattle.model.specs.declared.Entry.{Entry};
ghost use Rattle.model.specs.Sizes.{most_records};
ghost use Rattle.model.specs.Stations.{Station, opened};
ghost use Rattle.model.specs.Calls.{admissible_station};
ghost use Rattle.model.specs.Area.{area_of};
ghost use Rattle.model.specs.Store.{Request};
ghost use Rattle.model.specs.Claims.{DecidesSoundness, KeepsToItsArea, PartOfItsArea, FiguresBackward, RecordingsStand, EveryList};
ghost use Rattle.model.specs.Cases.{CasesHold};

// An area is sound, as paper 01 says it, exactly where the reading gives a station, and that station is the only one.
#[tactic(auto, using(crate::proofs::Soundness::decides_soundness))]
pub fn soundness_is_decided()
    ensures { (area : List ℕ) → DecidesSoundness area }
{}

// A refusal changes nothing; a call writes only inside its own stream's area and reads no other.
#[tactic(auto, using(crate::proofs::OnStore::keeps_to_its_area))]
pub fn calls_keep_to_their_area()
    ensures { (store : List ℕ) (r : Request) → KeepsToItsArea store r }
{}

// The newest records that a call hands back are a part of the stream's own area.
pub fn parts_keep_to_their_area()
    ensures { (store : List ℕ) (stream n : ℕ) → PartOfItsArea store stream n }
{}

// The figures that a station stores are those worked out backwards from its entries.
pub fn figures_are_backward()
    ensures { (p : Plan) (es : List Entry) → T (admissible_station (opened p es)) → FiguresBackward p es (area_of (opened p es)) }
{}

// A recording is found exactly where a lot, run or block stands: so a taken-back entry's recording goes with it.
#[tactic(auto, using(crate::proofs::Recordings::recordings_stand_lem))]
pub fn recordings_stand()
    ensures { (st : Station) → T (admissible_station st) → (i : ℕ) → i < most_records → RecordingsStand st (area_of st) i }
{}

// Demand 3, for every list of calls.
pub fn every_list_of_calls()
    ensures { EveryList }
{}

// The cases that were worked out by hand.
#[tactic(auto, using(crate::proofs::CallCases::cases_hold_lem))]
pub fn cases_hold()
    ensures { CasesHold }
{}
