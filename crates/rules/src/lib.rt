// Paper 01's rules on a stream's figures, by value: what a plan may be, what sample a lot asks for, which refusal a call gets before its
// entry is tried and behind that, and what it gives. What an entry does to the figures, and whether it may stand, the steps of the plans
// say (`replay_credit`, `replay_level`, `replay_continuous`). Nothing here knows of bytes.
#![tactic(auto)]

pub mod answering;
pub mod asking;
pub mod plan;
pub mod refusing;
