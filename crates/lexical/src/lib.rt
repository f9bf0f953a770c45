// The smallest pieces and the parts of a file are read exactly as what they are: the executable readings agree with page/specs/Lexical, Parts and
// Clauses, which have no algorithm. Theorems in proofs/.
#![tactic(auto)]
