// The theorems about texts that describe encodings are in specs/. There is no code here.

#![tactic(auto)]
