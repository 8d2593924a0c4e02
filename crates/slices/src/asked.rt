// What is asked by the words of the command line; with none, 8-bit mode and one round.
use arguments::Word;
use std::env::Env;

#[derive(Clone, Copy)]
pub struct Asked {
    pub mode: u8,
    pub rounds: u16,
}

// Word i of the command line.
fn word(rt: &impl Env, i: usize) -> Word {
    let mut room = [0u8; 8];
    let read = rt.arg(i, &mut room);
    Word { read, room }
}

// There are two words behind the program's own name.
fn has_two(rt: &impl Env) -> bool {
    word(rt, 2).is_there() && !word(rt, 3).is_there()
}

pub(crate) fn by_words(rt: &impl Env) -> Asked {
    if !has_two(rt) {
        return Asked { mode: 8, rounds: 1 };
    }
    Asked {
        mode: word(rt, 1).mode(),
        rounds: word(rt, 2).number(),
    }
}
