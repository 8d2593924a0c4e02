// The numbers that the calls answer: 0, 01's number of the refusal, or 256 for an unfinished block.
ghost use Rattle.std.specs.Prelude.{◌≡◌};
ghost use Rattle.calls.specs.Answers.{event_answer, report_answer, done_answer, laid_answer, stop_answer, sixteen};

use reader::state::Event;
use reader::within::Report;
use writer::batch::Stop;
use writer::state::{Answer, Laid};

// Above every refusal's number.
const UNFINISHED: u32 = 256;

pub fn event_answer(e: Event) -> u32
    ensures { result ≡ event_answer e }
{
    match e {
        Event::Refused { answer, .. } => u32::from(answer),
        Event::Begun { .. } | Event::Block { .. } | Event::Drop { .. } | Event::End => 0,
    }
}

pub fn report_answer(x: Report) -> u32
    ensures { result ≡ report_answer x }
{
    match x {
        Report::Paused => 0,
        Report::Told(e) => event_answer(e),
    }
}

pub fn done_answer(a: Answer) -> u32
    ensures { result ≡ done_answer a }
{
    match a {
        Answer::Refused(n) => u32::from(n),
        Answer::Done => 0,
    }
}

pub fn laid_answer(a: Laid) -> u32
    ensures { result ≡ laid_answer a }
{
    match a {
        Laid::Refused(n) => u32::from(n),
        Laid::Finished => 0,
        Laid::Unfinished => UNFINISHED,
    }
}

pub fn stop_answer(a: Stop) -> u32
    ensures { result ≡ stop_answer a }
{
    match a {
        Stop::Refused(n) => u32::from(n),
        Stop::All => 0,
        Stop::Unfinished => UNFINISHED,
    }
}

// A number of 32 bits as one of 16: what is above 65,535 counts as 65,535.
#[tactic(auto, unfolding(crate::specs::Answers::sixteen))]
pub fn sixteen(n: u32) -> u16
    ensures { result ≡ sixteen n }
{
    n.min(65535) as u16
}
