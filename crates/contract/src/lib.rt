#![tactic(auto)]

// No code: the contract of `plan`, what exploring hands over, and certificates of answers.
