// A line read, with an allowance or none.
ghost use Rattle.std.specs.Prelude.{◌≡◌};
ghost use Rattle.calls.specs.Reading.{gave, reads, reads_within};

#[unsafe(no_mangle)]
pub extern "C" fn sdti_read(state: &mut [u8], line: &[u8], room: &mut [u8], event: &mut [u8]) -> u32
    ensures { gave result state.new room.new event.new
        ≡ reads state.old line.now room.old event.old }
{
    host::reading::sdti_read(state, line, room, event)
}

#[unsafe(no_mangle)]
pub extern "C" fn sdti_read_within(
    state: &mut [u8],
    allowance: u64,
    line: &[u8],
    room: &mut [u8],
    event: &mut [u8],
) -> u32
    ensures { gave result state.new room.new event.new
        ≡ reads_within allowance state.old line.now room.old event.old }
{
    host::reading::sdti_read_within(state, allowance, line, room, event)
}
