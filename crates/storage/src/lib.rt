// Two statements over the definitions that the calls promise. Storage (specs/Storage.antt) is demand 2's last sentence: written lines read
// back to the same set, and a finished reading came from exactly the lines the writer gives; with it, that what the fill writes can be
// stored. Unread (specs/Unread.antt) is document 01's sentence on the pairs beyond m. Their proofs are in proofs/.
#![tactic(auto)]
