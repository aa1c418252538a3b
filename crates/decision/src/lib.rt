// A computed answer to every call, which the book says: the book is total.
#![tactic(auto)]
