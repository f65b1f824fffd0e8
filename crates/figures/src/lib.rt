// The checked figures (01, "Checked figures"): specs/Figures.antt is the table, proofs/Table.antt proves it.
#![tactic(auto)]
