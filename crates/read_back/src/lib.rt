// Laws over the definition of the text, in specs/: what demand 2 says of quoted texts and literals. Nothing here runs.
#![tactic(auto)]
