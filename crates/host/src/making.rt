// A reader or a writer made.
ghost use Rattle.std.specs.Prelude.{◌≡◌};
ghost use Rattle.calls.specs.Making.{made, makes_reader, makes_writer};

pub fn sdti_reader(system: u8, mode: u8, state: &mut [u8]) -> u32
    ensures { made result state.new ≡ makes_reader system mode state.old }
{
    hostreads::making::make_reader(system, mode, state)
}

pub fn sdti_writer(system: u8, mode: u8, state: &mut [u8]) -> u32
    ensures { made result state.new ≡ makes_writer system mode state.old }
{
    hostwrites::making::make_writer(system, mode, state)
}
