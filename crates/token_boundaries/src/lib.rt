// Each literal and each quoted text of the text ends where the Rust Reference's tokens end: theorems, in specs/. Nothing here runs.
#![tactic(auto)]
