// The theorems of demands 2 and 3 of 01, and of orders 1 and 2 of 02 from C, are in specs/. There is no code here.

#![tactic(auto)]
