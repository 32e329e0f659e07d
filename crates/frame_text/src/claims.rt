// The claims of specs/Claims.antt and specs/Case.antt, each the contract of a function, so that none can be weakened unseen. The
// functions do nothing: what they promise is that the definitions are as claimed.
ghost use Rattle.std.specs.Prelude.{ℕ, List};
ghost use Rattle.frame_text.specs.Case.{WholeCase};
ghost use Rattle.frame_text.specs.Claims.{ReadAsWritten, FramesAreSmall, MakesCalls, FedInPieces};

// Paper 01's whole case: its four lines give its four lines.
#[tactic(auto, using(crate::proofs::WholeCase::whole_case))]
pub fn whole_case_holds()
    ensures { WholeCase }
{}

// Digits stand for the number that they were made of.
#[tactic(auto, using(crate::proofs::Laws::read_as_written))]
pub fn numbers_are_read_as_written()
    ensures { ReadAsWritten }
{}

// Every frame's call has 32-bit arguments, which demand 3 asks of a list of calls.
#[tactic(auto, using(crate::proofs::Requests::frames_small))]
pub fn frames_are_small()
    ensures { FramesAreSmall }
{}

// The lines that are frames make the calls of a list of the model, and leave its store.
#[tactic(auto, using(crate::proofs::Requests::makes_calls))]
pub fn lines_make_calls()
    ensures { (store : List ℕ) (ls : List (List ℕ)) → MakesCalls store ls }
{}

// The input may be fed in pieces.
#[tactic(auto, using(crate::proofs::Feeding::fed_in_pieces))]
pub fn input_is_fed_in_pieces()
    ensures { FedInPieces }
{}
