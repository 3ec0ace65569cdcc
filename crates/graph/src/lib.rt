// Networks, distances, rings, shortest-path rings and their listing, over any kind of vertex.
// There is no code here: the definitions are in specs/, their laws in proofs/.
#![tactic(auto)]
