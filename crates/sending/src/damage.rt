// What happens to the lines on their way, as the words of the command line say it.
use crate::plan;
use arguments::Word;
use std::env::Env;

#[derive(Clone, Copy)]
pub enum Damage {
    None,
    // so many lines from one on are lost
    Lost { line: u16, count: u16 },
    // one line is spoiled
    Spoiled { line: u16 },
}

// Word i of the command line.
fn word(rt: &impl Env, i: usize) -> Word {
    let mut room = [0u8; 8];
    let read = rt.arg(i, &mut room);
    Word { read, room }
}

// There are so many words behind the program's own name.
fn has_words(rt: &impl Env, count: u8) -> bool {
    let last = usize::from(count);
    word(rt, last).is_there() && !word(rt, last + 1).is_there()
}

// `lose LINE COUNT`. So many lines have to be sent from that one on.
fn lose(line: u16, count: u16) -> Option<Damage> {
    let end = u32::from(plan::turn_of(line)) + u32::from(count);
    let good = plan::is_sent(line) && 1 <= count && end <= u32::from(plan::LINES);
    good.then_some(Damage::Lost { line, count })
}

// `spoil LINE`.
fn spoil(line: u16) -> Option<Damage> {
    plan::is_sent(line).then_some(Damage::Spoiled { line })
}

// The damage that the words ask for, where they are understood.
pub(crate) fn asked(rt: &impl Env) -> Option<Damage> {
    if !word(rt, 1).is_there() {
        return Some(Damage::None);
    }
    if has_words(rt, 3) && word(rt, 1).is(b"lose") {
        return lose(word(rt, 2).number(), word(rt, 3).number());
    }
    if has_words(rt, 2) && word(rt, 1).is(b"spoil") {
        return spoil(word(rt, 2).number());
    }
    None
}

// One word of the line's area becomes another in byte form, so that only the CRC of the payload tells.
fn spoil_word(line: &mut [u16; 1716]) {
    line[400] ^= 3;
}

// What becomes of the line with this number: whether it is left.
pub(crate) fn is_left(d: Damage, number: u16, line: &mut [u16; 1716]) -> bool {
    match d {
        Damage::Lost { line: first, count } => {
            let from = plan::turn_of(first);
            let at = plan::turn_of(number);
            at < from || u32::from(from) + u32::from(count) <= u32::from(at)
        }
        Damage::Spoiled { line: spoiled } if spoiled == number => {
            spoil_word(line);
            true
        }
        _ => true,
    }
}
