// What the calls of several crates promise together: the statements stand in specs/.
#![tactic(auto)]
