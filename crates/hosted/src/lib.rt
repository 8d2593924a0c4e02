// What holds of the calls from C. No code: the statement is specs/Hosted.antt, its proof in proofs/.
#![tactic(auto)]
