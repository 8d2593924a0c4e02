// A line opened, blocks and packets added, the line closed.
ghost use Rattle.std.specs.Prelude.{◌≡◌};
ghost use Rattle.calls.specs.Writing.{wrote, opens, adds, packs, closes, wrote_many, adds_many};

#[unsafe(no_mangle)]
pub extern "C" fn sdti_open(
    state: &mut [u8],
    f: bool,
    v: bool,
    number: u32,
    settings: &[u8],
    line: &mut [u8],
) -> u32
    ensures { wrote result state.new line.new ≡ opens state.old f v number settings.now line.old }
{
    host::writing::sdti_open(state, f, v, number, settings, line)
}

#[unsafe(no_mangle)]
pub extern "C" fn sdti_add(state: &mut [u8], kind: u32, values: &[u8], line: &mut [u8]) -> u32
    ensures { wrote result state.new line.new ≡ adds state.old kind values.now line.old }
{
    host::writing::sdti_add(state, kind, values, line)
}

#[unsafe(no_mangle)]
pub extern "C" fn sdti_add_many(
    state: &mut [u8],
    blocks: &[u8],
    line: &mut [u8],
    finished: &mut u64,
) -> u32
    ensures { wrote_many result state.new line.new finished.new ≡ adds_many state.old blocks.now line.old finished.old }
{
    host::writing::sdti_add_many(state, blocks, line, finished)
}

#[unsafe(no_mangle)]
pub extern "C" fn sdti_packet(
    state: &mut [u8],
    did: u8,
    second: u8,
    values: &[u8],
    line: &mut [u8],
) -> u32
    ensures { wrote result state.new line.new ≡ packs state.old did second values.now line.old }
{
    host::writing::sdti_packet(state, did, second, values, line)
}

#[unsafe(no_mangle)]
pub extern "C" fn sdti_close(state: &mut [u8], line: &mut [u8]) -> u32
    ensures { wrote result state.new line.new ≡ closes state.old line.old }
{
    host::writing::sdti_close(state, line)
}
