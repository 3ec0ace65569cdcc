#![tactic(auto)]

// The networks P1 to P11 of document 01, their rings and numbers, and the near misses: tables, each with one theorem about the definitions.
// There is no code here: the tables are in specs/, that they hold in proofs/.
