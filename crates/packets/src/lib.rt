// The packets that ride in the gap of a line, as BT.1364 has them: each begins with 000h 3FFh 3FFh, and they stand one behind another from the
// gap's first word on. The list ends where no whole flag stands next, or at a bad packet, with 21, 22 or 23.
#![tactic(auto)]

pub mod packet; // packet.rt: one packet, looked at and laid
pub mod list; // list.rt: the packets in the gap of a line that the line check accepts
mod fill; // fill.rt: lent parts filled
