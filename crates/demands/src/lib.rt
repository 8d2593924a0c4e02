// The demands: definitions and theorems alone, over what the writer's and the reader's functions promise.
#![tactic(auto)]
