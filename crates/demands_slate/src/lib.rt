// Document 01's marked cases, shown of the definitions: a table and its test, both in proofs/, since they are statements and not law; no code.
#![tactic(auto)]
