// Short bursts never pass: definitions and theorems alone, over the line check, the reader and demand 3.
#![tactic(auto)]
