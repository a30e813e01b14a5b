#![tactic(auto)]

// Worked cases of the writer, computed. There is no code here: specs/Cases lists them, each with what the writer answers.
