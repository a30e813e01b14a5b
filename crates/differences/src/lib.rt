#![tactic(auto)]

// Where the two readings part, by proof and by computation: without a mark nowhere (proofs/Whole.antt), with each mark somewhere (specs/Alone.antt).
// There is no code here.
