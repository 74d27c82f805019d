// 13.7: the field of 256 elements, its definition and laws. `field_tables` has the tables of its powers and logarithms, `field` its elements.
#![tactic(auto)]
