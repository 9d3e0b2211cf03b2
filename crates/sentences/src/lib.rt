// The loop of an endless sheet in sentences, how they are read back, and what explaining promises.
#![tactic(auto)]
