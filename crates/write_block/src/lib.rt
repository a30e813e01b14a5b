#![tactic(auto)]

// Which block is written of a standard record, and when a block gives one. There is no code here: specs/Shown, Canonical and Gives are the
// definitions, specs/Taken and Holds what the writer's turns are told by, and the rest are laws.
