// A plan as data, how its bytes are read and which are refused: definitions, in specs/. Nothing here runs.
#![tactic(auto)]
