#![tactic(auto)]

// No code: the theory of double-priced timed automata.
