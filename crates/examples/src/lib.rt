// No code: specs/Sheets.antt holds the worked examples of 01, evaluated on the definitions.

#![tactic(auto)]
