// What is asked: by the words of the command line, or one of all.
use arguments::Word;
use std::env::Env;

// The job's letter, the mode, and how many rounds.
#[derive(Clone, Copy)]
pub struct Asked {
    pub job: u8,
    pub mode: u8,
    pub rounds: u16,
}

// Word i of the command line.
fn word(rt: &impl Env, i: usize) -> Word {
    let mut room = [0u8; 8];
    let read = rt.arg(i, &mut room);
    Word { read, room }
}

// There are three words behind the program's own name.
pub(crate) fn has_three(rt: &impl Env) -> bool {
    word(rt, 3).is_there() && !word(rt, 4).is_there()
}

pub(crate) fn by_words(rt: &impl Env) -> Asked {
    Asked {
        job: word(rt, 1).letter(),
        mode: word(rt, 2).mode(),
        rounds: word(rt, 3).number(),
    }
}

// The k-th of 24: twelve jobs, in both modes.
pub(crate) fn nth(k: u8) -> Asked {
    Asked {
        job: b'a' + k / 2 % 12,
        mode: 8 + k % 2,
        rounds: 2,
    }
}
