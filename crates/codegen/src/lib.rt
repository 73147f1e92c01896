// The text that codegen.rs writes: its definition stands in specs/, from Piece to Answer. Nothing here runs.
#![tactic(auto)]
