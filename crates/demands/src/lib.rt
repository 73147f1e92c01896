// The three demands, and what requests promise, as theorems about the entries. Demand1, Demand2, Demand3, Request01 and Request02 of specs/ have their
// sentences, Exported has the demands of the C functions; theorems that stand on the order of the checks are in proofs/, in files of the same names. Nothing
// here runs.
#![tactic(auto)]
