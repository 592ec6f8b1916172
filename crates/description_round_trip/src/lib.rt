// The theorems about a description that is read again are in specs/. There is no code here.

#![tactic(auto)]
