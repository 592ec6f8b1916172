// What the reader must answer to a file, what the finder finds and who owns each byte: the definitions and theorems are in specs/. There is no
// code here.

#![tactic(auto)]
