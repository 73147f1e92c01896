// The faults of a schedule and the sheet of them, as definitions with their laws, in specs/. Nothing here runs.
#![tactic(auto)]
