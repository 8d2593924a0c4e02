// The writer's calls. 1 and 2 are asked first, so that a refused call writes nothing; then the call is made, and what it leaves is written.
ghost use Rattle.std.specs.Prelude.{◌≡◌, length};
ghost use Rattle.writerimages.specs.WriterImage.{state_of, is_image};
ghost use Rattle.calls.specs.Early.{write_early, early_by};
ghost use Rattle.calls.specs.Writing.{wrote, opens, adds, packs, closes, wrote_many, adds_many};

use calls::{answers, early};
use fields::numbers;
use writerimages::writer_image;
use writerimages::writer_image::Spelt;

// What lent bytes spell.
#[tactic(auto, unfolding(lists::specs::Tests::pick))]
fn spelt_in(state: &[u8]) -> Spelt
    requires { length state.now ≡ 80 }
    ensures { (result.state ≡ state_of state.now) × (result.image ≡ is_image state.now) }
{
    writer_image::read_image(&numbers::array_of(state))
}

// 1 or 2 where a call on a line of so many bytes is refused before it is made, else 0; even: what else is lent. It gives the number alone: a `Result` with the
// state in it is taken apart by every call, in pieces that wait for each other (docs/PERFORMANCE.md).
fn barred(spelt: Spelt, line: usize, even: bool) -> u32
    ensures { result ≡ early_by spelt.image (write_early spelt.state line even) }
{
    early::early_by(spelt.image, early::write_early(spelt.state, line, even))
}

pub fn open_line(
    state: &mut [u8],
    f: bool,
    v: bool,
    number: u32,
    settings: &[u8],
    line: &mut [u8],
) -> u32
    ensures { wrote result state.new line.new ≡ opens state.old f v number settings.now line.old }
{
    if (state.len() != 80) | (settings.len() != 41) {
        return 1;
    }
    let spelt = spelt_in(state);
    let n = barred(spelt, line.len(), true);
    if n != 0 {
        return n;
    }
    let t = numbers::settings_of(&numbers::array_of(settings));
    let x = bytewriter::opening::open_line(spelt.state, f, v, answers::sixteen(number), t, line);
    writer_image::put_image(x.state, state);
    answers::done_answer(x.answer)
}

pub fn add_block(state: &mut [u8], kind: u32, values: &[u8], line: &mut [u8]) -> u32
    ensures { wrote result state.new line.new ≡ adds state.old kind values.now line.old }
{
    if state.len() != 80 {
        return 1;
    }
    let spelt = spelt_in(state);
    let n = barred(spelt, line.len(), octets::is_even(values));
    if n != 0 {
        return n;
    }
    let x = bytewriter::adding::add_block(spelt.state, answers::sixteen(kind), values, line);
    writer_image::put_image(x.state, state);
    answers::laid_answer(x.answer)
}

pub fn add_blocks(state: &mut [u8], blocks: &[u8], line: &mut [u8], finished: &mut u64) -> u32
    ensures { wrote_many result state.new line.new finished.new ≡ adds_many state.old blocks.now line.old finished.old }
{
    if state.len() != 80 {
        return 1;
    }
    let spelt = spelt_in(state);
    let n = barred(spelt, line.len(), octets::is_even(blocks));
    if n != 0 {
        return n;
    }
    let x = bytewriter::batch::add_blocks(spelt.state, blocks, line);
    writer_image::put_image(x.state, state);
    *finished = x.finished as u64;
    answers::stop_answer(x.stop)
}

pub fn add_packet(state: &mut [u8], did: u8, second: u8, values: &[u8], line: &mut [u8]) -> u32
    ensures { wrote result state.new line.new ≡ packs state.old did second values.now line.old }
{
    if state.len() != 80 {
        return 1;
    }
    let spelt = spelt_in(state);
    let n = barred(spelt, line.len(), octets::is_even(values));
    if n != 0 {
        return n;
    }
    let x = bytewriter::packing::add_packet(spelt.state, did, second, values, line);
    writer_image::put_image(x.state, state);
    answers::done_answer(x.answer)
}

pub fn close_line(state: &mut [u8], line: &mut [u8]) -> u32
    ensures { wrote result state.new line.new ≡ closes state.old line.old }
{
    if state.len() != 80 {
        return 1;
    }
    let spelt = spelt_in(state);
    let n = barred(spelt, line.len(), true);
    if n != 0 {
        return n;
    }
    let x = bytewriter::closing::close_line(spelt.state, line);
    writer_image::put_image(x.state, state);
    answers::done_answer(x.answer)
}
