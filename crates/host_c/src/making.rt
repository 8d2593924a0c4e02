// A reader or a writer made.
ghost use Rattle.std.specs.Prelude.{◌≡◌};
ghost use Rattle.calls.specs.Making.{made, makes_reader, makes_writer};

#[unsafe(no_mangle)]
pub extern "C" fn sdti_reader(system: u8, mode: u8, state: &mut [u8]) -> u32
    ensures { made result state.new ≡ makes_reader system mode state.old }
{
    host::making::sdti_reader(system, mode, state)
}

#[unsafe(no_mangle)]
pub extern "C" fn sdti_writer(system: u8, mode: u8, state: &mut [u8]) -> u32
    ensures { made result state.new ≡ makes_writer system mode state.old }
{
    host::making::sdti_writer(system, mode, state)
}
