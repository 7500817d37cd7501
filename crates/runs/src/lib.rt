// Runs of wired units, as mathematics: histories, what follows from them, and that only one fits. There is no code here.
#![tactic(auto)]
