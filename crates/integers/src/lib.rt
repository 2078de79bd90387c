#![tactic(auto)]

// Laws on integers and fractions, for the layers above: omega reads only natural numbers. No code.
