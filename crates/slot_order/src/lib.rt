// The order of slots makes no difference to answers, and a book has one answer to a call.
#![tactic(auto)]
