// The line of a text's first fault, said by the texts of all sheets. No code; the theorem is cited by the reader above.
#![tactic(auto)]
