// Arrangements, legal moves and steps, and replay: definitions and laws. There is no code here but a constant; the checkers and the
// planner above cite them.
#![tactic(auto)]

// "The new power rail feeds eight racks in a train": how many moves a train may have. The proofs of the crates that use it hold it to
// specs/LegalStep.antt's `longest_train`.
pub const LONGEST: u8 = 8;
