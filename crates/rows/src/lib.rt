// The listing's rows: the text of an event, and whether more follow of its line.
#![tactic(auto)]

ghost use Rattle.std.specs.Prelude.{◌≡◌, not, ◌++◌, take};
ghost use Rattle.reader.specs.Lending.{is_last};
ghost use Rattle.rows.specs.Text.{decimal, signed, dropped_text, space, newline};
ghost use Rattle.rows.specs.Rows.{jump_text, row_of};
ghost use Rattle.rows.specs.Cuts.{none, put, added};

use reader::state::Event;

// A row: its text stands in the first `length` bytes, zeros behind.
#[derive(Clone, Copy)]
pub struct Row {
    pub bytes: [u8; 48],
    pub length: usize,
}

impl Row {
    // The text.
    pub fn as_bytes(&self) -> &[u8]
        ensures { result.now ≡ take self.now.length self.now.bytes }
    {
        &self.bytes[..self.length.min(48)]
    }

    // No text yet.
    fn empty() -> Row
        ensures { result ≡ none }
    {
        Row {
            bytes: [0; 48],
            length: 0,
        }
    }

    // One byte more. No event's text comes to where a byte has no place.
    fn add_byte(&mut self, b: u8)
        ensures { self.new ≡ put self.old b }
    {
        if self.length < 48 {
            self.bytes[self.length] = b;
            self.length += 1;
        }
    }

    // The bytes of a text.
    fn add_text(&mut self, text: &[u8])
        ensures { self.new ≡ added self.old text.now }
    {
        for b in text {
            self.add_byte(*b);
        }
    }

    // A number in decimal: a call for its tenth adds the digits in front of the last.
    fn add_decimal(&mut self, n: u64)
        ensures { self.new ≡ added self.old (decimal n) }
    {
        if 10 <= n {
            self.add_decimal(n / 10);
        }
        self.add_byte(48 + (n % 10) as u8);
    }

    // A number that may be below 0.
    fn add_signed(&mut self, d: i32)
        ensures { self.new ≡ added self.old (signed d) }
    {
        if d < 0 {
            self.add_byte(b'-');
        }
        self.add_decimal(u64::from(d.unsigned_abs()));
    }

    // A space and a jump.
    fn add_jump(&mut self, jump: Option<i32>)
        ensures { self.new ≡ added self.old (space ++ jump_text jump) }
    {
        self.add_byte(b' ');
        match jump {
            None => self.add_text(b"unknown"),
            Some(d) => self.add_signed(d),
        }
    }

    // What every row but `end` begins with.
    #[tactic(auto, using(crate::proofs::TextLaws::added_append))]
    fn begin(&mut self, name: &[u8], n: u64)
        ensures { self.new ≡ added self.old (name.now ++ decimal n) }
    {
        self.add_text(name);
        self.add_decimal(n);
    }

    // What every row ends with.
    fn end(&mut self, dropped: bool)
        ensures { self.new ≡ added self.old (dropped_text dropped ++ newline) }
    {
        self.add_text(if dropped { b" dropped\n" } else { b"\n" });
    }
}

// The row of an event.
#[tactic(auto, using(crate::proofs::RowLaws::refused_row, crate::proofs::RowLaws::begun_row, crate::proofs::RowLaws::block_row, crate::proofs::RowLaws::drop_row, crate::proofs::RowLaws::end_row))]
pub fn row_of(event: Event) -> Row
    ensures { result ≡ row_of event }
{
    let mut row = Row::empty();
    match event {
        Event::Refused { answer, dropped } => {
            row.begin(b"refused ", u64::from(answer));
            row.end(dropped);
        }
        Event::Begun {
            number,
            jump,
            dropped,
        } => {
            row.begin(b"begun ", u64::from(number));
            row.add_jump(jump);
            row.end(dropped);
        }
        Event::Block { kind, length } => {
            row.begin(b"block ", u64::from(kind));
            row.add_byte(b' ');
            row.add_decimal(length as u64);
            row.end(false);
        }
        Event::Drop { reason } => {
            row.begin(b"drop ", u64::from(reason));
            row.end(false);
        }
        Event::End => {
            row.add_text(b"end");
            row.end(false);
        }
    }
    row
}

// The line is not over with this event.
pub fn goes_on(event: Event) -> bool
    ensures { result ≡ not (is_last event) }
{
    !matches!(event, Event::Refused { .. } | Event::End)
}
