// Laws over the definition of the text, in specs/: Demand3 has their statements. Nothing here runs.
#![tactic(auto)]
