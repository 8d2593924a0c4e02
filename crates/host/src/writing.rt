// A line opened, blocks and packets added, the line closed.
ghost use Rattle.std.specs.Prelude.{◌≡◌};
ghost use Rattle.calls.specs.Writing.{wrote, opens, adds, packs, closes, wrote_many, adds_many};

use hostwrites::writing;

pub fn sdti_open(
    state: &mut [u8],
    f: bool,
    v: bool,
    number: u32,
    settings: &[u8],
    line: &mut [u8],
) -> u32
    ensures { wrote result state.new line.new ≡ opens state.old f v number settings.now line.old }
{
    writing::open_line(state, f, v, number, settings, line)
}

pub fn sdti_add(state: &mut [u8], kind: u32, values: &[u8], line: &mut [u8]) -> u32
    ensures { wrote result state.new line.new ≡ adds state.old kind values.now line.old }
{
    writing::add_block(state, kind, values, line)
}

pub fn sdti_add_many(state: &mut [u8], blocks: &[u8], line: &mut [u8], finished: &mut u64) -> u32
    ensures { wrote_many result state.new line.new finished.new ≡ adds_many state.old blocks.now line.old finished.old }
{
    writing::add_blocks(state, blocks, line, finished)
}

pub fn sdti_packet(state: &mut [u8], did: u8, second: u8, values: &[u8], line: &mut [u8]) -> u32
    ensures { wrote result state.new line.new ≡ packs state.old did second values.now line.old }
{
    writing::add_packet(state, did, second, values, line)
}

pub fn sdti_close(state: &mut [u8], line: &mut [u8]) -> u32
    ensures { wrote result state.new line.new ≡ closes state.old line.old }
{
    writing::close_line(state, line)
}
