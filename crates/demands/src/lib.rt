#![tactic(auto)]

// What is shown of the definitions, by proof and by computation: demand 3 (specs/Demands.antt), worked cases (specs/Cases.antt), and of the code's answers
// sums of parts (specs/Sums.antt) and bursts (specs/Bursts.antt).
// There is no code here.
