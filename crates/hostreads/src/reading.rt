// The reading calls. One function serves both: a call without allowance is one with an allowance that no line uses up. A call on a begun line writes what it changes of the state; one
// that begins a line writes the whole image.
ghost use Rattle.std.specs.Prelude.{◌≡◌, ◌++◌, length, take};
ghost use Rattle.reader.specs.declared.within.Report.TheVariants.{Told};
ghost use Rattle.fields.specs.Fields.{bytes_for};
ghost use Rattle.images.specs.ReaderImage.{image_of, moved};
ghost use Rattle.events.specs.EventImage.{event_image};
ghost use Rattle.bytereader.specs.Calls.{start_bytes};
ghost use Rattle.calls.specs.Answers.{event_answer, report_answer};
ghost use Rattle.calls.specs.Reading.{gave, reads, reads_within};

use bytereader::Outcome;
use bytereader::goes::Went;
use calls::{answers, early};
use events::event_image;
use fields::numbers;
use images::reader_image;
use reader::state::Reader;
use reader::within::Report;

// A line begun or refused.
fn begin(st: Reader, line: &[u8], state: &mut [u8], event: &mut [u8]) -> u32
    requires { (length state.old ≡ 80) × (length event.old ≡ 32) }
    ensures { (result ≡ event_answer (start_bytes st line.now).event) × (state.new ≡ image_of (start_bytes st line.now).state)
        × (event.new ≡ event_image (Told (start_bytes st line.now).event) 0) }
{
    let t = bytereader::start(st, line);
    reader_image::put_image(t.state, state);
    event_image::put_event(Report::Told(t.event), 0, event);
    answers::event_answer(t.event)
}

// A begun line gone on with.
fn go_on(w: Went, state: &mut [u8], event: &mut [u8]) -> u32
    requires { (length state.old ≡ 80) × (length event.old ≡ 32) }
    ensures { (result ≡ report_answer w.report) × (state.new ≡ moved w.place w.phase state.old)
        × (event.new ≡ event_image w.report w.consumed) }
{
    reader_image::put_moved(w.place, w.phase, state);
    event_image::put_event(w.report, w.consumed, event);
    answers::report_answer(w.report)
}

// A reading call under an allowance.
fn serve(state: &mut [u8], allowance: usize, line: &[u8], room: &mut [u8], event: &mut [u8]) -> u32
    ensures { gave result state.new room.new event.new
        ≡ reads_within allowance state.old line.now room.old event.old }
{
    if (state.len() != 80) | (event.len() != 32) {
        return 1;
    }
    let spelt = reader_image::read_image(&numbers::array_of(state));
    let st = spelt.state;
    if !spelt.image {
        return early::early_by(false, early::read_early(st, line.len(), room.len()));
    }
    match bytereader::call(st, allowance, line, room) {
        Outcome::Barred(n) => n as u32,
        Outcome::Starts => begin(st, line, state, event),
        Outcome::Goes(w) => go_on(w, state, event),
    }
}

// A call without allowance tells no number of words that it consumed.
fn uncount(event: &mut [u8])
    requires { length event.old ≡ 32 }
    ensures { event.new ≡ take 24 event.old ++ bytes_for 8 0 }
{
    numbers::put_number(0, &mut event[24..32]);
}

pub fn read_line(state: &mut [u8], line: &[u8], room: &mut [u8], event: &mut [u8]) -> u32
    ensures { gave result state.new room.new event.new
        ≡ reads state.old line.now room.old event.old }
{
    let n = serve(state, usize::MAX, line, room, event);
    if (n == 1) | (n == 2) {
        return n;
    }
    uncount(event);
    n
}

pub fn read_within(
    state: &mut [u8],
    allowance: u64,
    line: &[u8],
    room: &mut [u8],
    event: &mut [u8],
) -> u32
    ensures { gave result state.new room.new event.new
        ≡ reads_within allowance state.old line.now room.old event.old }
{
    serve(state, allowance as usize, line, room, event)
}
