// The theorems about the plans that the writer lays out are in specs/. There is no code here.

#![tactic(auto)]
