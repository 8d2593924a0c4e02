// The packets in a line's gap, as rows behind the line's own, where they are asked for: `packet DID SECOND COUNT` for each, and `bad N` where a
// bad packet ended the list. A line that is not accepted has none. No row is begun behind one that could not be written.
use packets::list;
use std::io;

// The rows of so many packets of a list. A packet is its DID, its second word and its count, and as many words as the count says.
fn put_packets(rt: &impl Print, listed: &[u16], packets: usize) -> io::Result<()> {
    let mut rest = listed;
    for _ in 0..packets {
        let [did, second, count, behind @ ..] = rest else {
            break;
        };
        println!(rt; "packet {did} {second} {count}")?;
        rest = behind.get(usize::from(*count % 256)..).unwrap_or(&[]);
    }
    Ok(())
}

// The rows of a line's packets.
pub(crate) fn list_gap(rt: &impl Print, line: &[u16; 1716]) -> io::Result<()> {
    let mut out = [0u16; 215];
    let x = list::list(0, 8, line, &mut out);
    put_packets(rt, &out, x.packets)?;
    if x.stop != 0 {
        println!(rt; "bad {}", x.stop)?;
    }
    Ok(())
}
