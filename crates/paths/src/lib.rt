#![tactic(auto)]

// Paths that grow into rings, as functions on lists over a table of bonds and a buffer of distances: the rings that a search finds, where it
// turns back, and that it finds each of them once, in order. There is no code here: the definitions are in specs/, their laws in proofs/.
