#![tactic(auto)]

// That what is printed in a panel's text is read as it was meant: words of a line, numbers, texts and runs of bytes. There is no code here.
