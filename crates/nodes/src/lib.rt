#![tactic(auto)]

// No code: the automaton that a sheet means and the numbers of its nodes.
