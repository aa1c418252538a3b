// What holds of the packets that a book accepted: nothing is claimed beyond what the chip has, and no register is written twice in a cycle.
#![tactic(auto)]
