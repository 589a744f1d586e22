// That what a text is read as is what is promised of it, and the laws that the parser's code goes by: proofs/ alone.
#![tactic(auto)]
