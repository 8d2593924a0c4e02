// The archive for C: each function of the crate host under the name that include/sdti.h gives it, with the same clauses. It does no more, because an archive is
// proved anew each time that it is made.
#![tactic(auto)]

mod making; // making.rt: a reader or a writer made
mod reading; // reading.rt: a line read, with an allowance or none
mod writing; // writing.rt: a line opened, blocks and packets added, the line closed
mod looking; // looking.rt: a line checked, and the packets of its gap listed
