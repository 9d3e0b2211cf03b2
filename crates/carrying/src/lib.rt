// What carrying the rules of a sheet out gives.
#![tactic(auto)]
