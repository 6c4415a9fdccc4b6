// The rules of a sound unit. They are definitions in specs/.

#![tactic(auto)]
