// The four systems, by number.
ghost use Rattle.std.specs.Prelude.{◌≡◌};
ghost use Rattle.line.specs.Systems.{system_of, is_system};

// Line length L, payload P, lines N, and the code of P.
#[derive(Clone, Copy)]
pub struct System {
    pub length: usize,
    pub payload: usize,
    pub lines: u16,
    pub code: u8,
}

// There is a system of that number.
#[tactic(auto, unfolding(crate::specs::Systems::is_system))]
pub fn is_system(system: u8) -> bool
    ensures { result ≡ is_system system }
{
    system < 4
}

// The system of a number; all 0 where there is none.
#[tactic(auto, using(crate::proofs::SystemLaws::no_system))]
pub fn system_of(system: u8) -> System
    ensures { result ≡ system_of system }
{
    match system {
        0 => System {
            length: 1716,
            payload: 1440,
            lines: 525,
            code: 1,
        },
        1 => System {
            length: 1728,
            payload: 1440,
            lines: 625,
            code: 1,
        },
        2 => System {
            length: 2288,
            payload: 1920,
            lines: 525,
            code: 2,
        },
        3 => System {
            length: 2304,
            payload: 1920,
            lines: 625,
            code: 2,
        },
        _ => System {
            length: 0,
            payload: 0,
            lines: 0,
            code: 0,
        },
    }
}
