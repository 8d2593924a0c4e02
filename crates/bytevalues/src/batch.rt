// Many blocks in one call, the list lent as bytes.
ghost use Rattle.std.specs.Prelude.{◌≡◌, ◌<◌, length};
ghost use Rattle.octets.specs.Bytes.{words_of};
ghost use Rattle.writer.specs.Batch.{entries_of, batched, lay_all, batching};
ghost use Rattle.writer.specs.Ground.{entry_end};

use crate::{adding, values};
use line::check;
use writer::batch::{Batch, Stop};
use writer::state;
use writer::state::{Laid, Writer};

// Where the entry at a place of the list ends, in words; 0 where it is broken off.
fn entry_end(at: usize, blocks: &[u8]) -> usize
    requires { at < length (words_of blocks.now) }
    ensures { result ≡ entry_end at (words_of blocks.now) }
{
    let left = blocks.len() / 2 - at;
    if left < 2 {
        return 0;
    }
    let n = usize::from(octets::word_at(blocks, at + 1));
    if left - 2 < n {
        return 0;
    }
    at + 2 + n
}

fn ended(finished: usize, stop: Stop, state: Writer) -> Batch
    ensures { (result.finished ≡ finished) × (result.stop ≡ stop) × (result.state ≡ state) }
{
    Batch {
        finished,
        stop,
        state,
    }
}

// The entries one after another, each as by a single call. It is a `while`, because an entry says itself how long it is: no range and no chain is plainer.
fn lay_each(w: Writer, blocks: &[u8], line: &mut [u16]) -> Batch
    ensures { batched result.finished result.stop result.state line.new ≡ lay_all w line.old 0 (entries_of (words_of blocks.now)) }
{
    let n = blocks.len() / 2;
    let mut now = w;
    let mut at = 0;
    let mut finished = 0;
    while at < n {
        let e = entry_end(at, blocks);
        if e == 0 {
            return ended(finished, Stop::Refused(28), now);
        }
        let from = 2 * at + 4;
        let to = 2 * e;
        let kind = octets::word_at(blocks, at);
        let x = adding::add_valued(now, kind, &blocks[from..to], line);
        match x.answer {
            Laid::Refused(n) => return ended(finished, Stop::Refused(n), x.state),
            Laid::Unfinished => return ended(finished, Stop::Unfinished, x.state),
            Laid::Finished => {}
        }
        now = x.state;
        at = e;
        finished += 1;
    }
    ended(finished, Stop::All, now)
}

// The writer's list of blocks, lent as bytes. A line's worth of blocks has no more than 2,764 words, so nearly every list is short and made words; of a
// longer one each entry is.
pub fn add_listed(w: Writer, blocks: &[u8], line: &mut [u16]) -> Batch
    ensures { batched result.finished result.stop result.state line.new ≡ batching w line.old (words_of blocks.now) }
{
    if blocks.len() <= 6145 {
        let n = blocks.len() / 2;
        let mut list = [0u16; 3072];
        octets::words_of(blocks, &mut list);
        return writer::batch::add_blocks(w, &list[..n], line);
    }
    if !check::is_fit(w.system, w.mode, line.len()) {
        return ended(0, Stop::Refused(1), w);
    }
    if state::is_impossible(w) {
        return ended(0, Stop::Refused(2), w);
    }
    lay_each(w, blocks, line)
}
