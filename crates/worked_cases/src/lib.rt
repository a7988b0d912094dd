// Worked cases of documents 01 and 02.
#![tactic(auto)]
