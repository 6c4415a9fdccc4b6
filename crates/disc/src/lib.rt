// The formulas of the disc's layout. They are definitions only, in specs/; the crates above compute them.

#![tactic(auto)]
