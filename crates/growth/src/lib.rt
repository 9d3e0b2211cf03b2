// How many values, records, and pairs of rule and carried values a sheet that settles may come to.
#![tactic(auto)]
