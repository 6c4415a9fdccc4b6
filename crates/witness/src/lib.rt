// That the demands are claims about something: Format, Init and the one call have results by their contracts.

#![tactic(auto)]
