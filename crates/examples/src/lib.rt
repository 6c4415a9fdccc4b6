// Calls on the plain unit, worked by hand: those of document 01's paper, and others for every result word.

#![tactic(auto)]
