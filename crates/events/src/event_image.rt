// What a reading call reports, as 32 bytes.
ghost use Rattle.std.specs.Prelude.{◌≡◌, ℕ, false, ◌∷◌, eqb, length};
ghost use Rattle.lists.specs.Tests.{pick};
ghost use Rattle.fields.specs.Fields.{bytes_for};
ghost use Rattle.events.specs.EventImage.{flag_byte, is_known, is_behind, size_of_jump, event_fields, event_image};

use fields::numbers;
use reader::state::Event;
use reader::within::Report;

// The fields of an image. Those that are not used are 0.
#[derive(Clone, Copy)]
struct Fields {
    kind: u8,
    dropped: bool,
    jump: Option<i32>,
    number: u16,
    block: u8,
    long: usize,
}

// The jump's size, 0 where it is unknown.
fn size_of_jump(jump: Option<i32>) -> usize
    ensures { result ≡ size_of_jump jump }
{
    match jump {
        None => 0,
        Some(d) => d.unsigned_abs() as usize,
    }
}

// The jump is known: 1 or 0.
fn is_known(jump: Option<i32>) -> u8
    ensures { result ≡ is_known jump }
{
    u8::from(matches!(jump, Some(_)))
}

// The jump is behind: 1 or 0.
fn is_behind(jump: Option<i32>) -> u8
    ensures { result ≡ is_behind jump }
{
    u8::from(matches!(jump, Some(d) if d < 0))
}

impl Fields {
    // Those of a report that tells its kind alone.
    fn of_kind(kind: u8) -> Fields
        ensures { result ≡ record { kind = kind; dropped = false; jump = None; number = 0; block = 0; long = 0 } }
    {
        Fields {
            kind,
            dropped: false,
            jump: None,
            number: 0,
            block: 0,
            long: 0,
        }
    }

    // The kind, whether an open block was dropped, what is known of the jump, and the number.
    fn put_kind(self, out: &mut [u8])
        requires { length out.old ≡ 8 }
        ensures { out.new ≡ self.kind ∷ flag_byte self.dropped ∷ is_known self.jump ∷ is_behind self.jump ∷ bytes_for 4 self.number }
    {
        let (front, number) = out.split_at_mut(4);
        front.copy_from_slice(&[
            self.kind,
            u8::from(self.dropped),
            is_known(self.jump),
            is_behind(self.jump),
        ]);
        numbers::put_number(usize::from(self.number), number);
    }

    // The image, with the number consumed.
    #[tactic(auto, unfolding(lists::specs::Tests::pick))]
    fn put(self, consumed: usize, out: &mut [u8])
        requires { length out.old ≡ 32 }
        ensures { out.new ≡ event_fields self.kind (flag_byte self.dropped) self.jump self.number self.block self.long consumed }
    {
        let (kind, rest) = out.split_at_mut(8);
        let (sizes, counts) = rest.split_at_mut(8);
        self.put_kind(kind);
        numbers::put_fours(size_of_jump(self.jump), usize::from(self.block), sizes);
        numbers::put_eights(self.long, consumed, counts);
    }
}

// The fields of a report.
fn fields_of(report: Report) -> Fields
    ensures { (c : ℕ) → event_fields result.kind (flag_byte result.dropped) result.jump result.number result.block result.long c ≡ event_image report c }
{
    match report {
        Report::Told(Event::Refused { answer, dropped }) => Fields {
            number: u16::from(answer),
            dropped,
            ..Fields::of_kind(0)
        },
        Report::Told(
            Event::Begun {
                number,
                jump,
                dropped,
            },
        ) => Fields {
            number,
            jump,
            dropped,
            ..Fields::of_kind(1)
        },
        Report::Told(Event::Block { kind, length }) => Fields {
            block: kind,
            long: length,
            ..Fields::of_kind(2)
        },
        Report::Told(Event::Drop { reason }) => Fields {
            number: u16::from(reason),
            ..Fields::of_kind(3)
        },
        Report::Told(Event::End) => Fields::of_kind(4),
        Report::Paused => Fields::of_kind(5),
    }
}

// The image of a report, into 32 bytes, and else nothing.
#[tactic(auto, unfolding(lists::specs::Tests::pick))]
pub fn put_event(report: Report, consumed: usize, out: &mut [u8])
    ensures { out.new ≡ pick (eqb (length out.old) 32) (event_image report consumed) out.old }
{
    if out.len() != 32 {
        return;
    }
    fields_of(report).put(consumed, out);
}
