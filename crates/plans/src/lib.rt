// The numbers of ISO 28593 (credit) and ISO 28594 (levels, continuous sampling), as paper 01 condenses them: every sample
// size, and every move of a stream's figures. Nothing here knows of bytes or calls.
#![tactic(auto)]

pub mod continuous;
pub mod credit;
pub mod level;
pub mod limits;
pub mod stops;
pub mod tables;
pub mod verdict;

// A lot's size N, in detections.
// Kept: its limits stand in clauses and not in the type, since `rules::refusing::lot` and `ask` take every size and refuse it (11).
#[derive(Clone, Copy)]
pub struct LotSize(pub u32);

// A sample's size n.
#[derive(Clone, Copy)]
pub struct SampleSize(pub u32);
