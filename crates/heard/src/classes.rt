// The classes of numbers: whatever number a word is, by the table and by the forms.
use std::io;
use words::class::Class;
use words::{class, forms};

// The digit of a class.
fn digit_of(c: Class) -> u8 {
    match c {
        Class::Byte => b'1',
        Class::Other => b'2',
        Class::Separator => b'3',
        Class::Ending => b'4',
        Class::Illegal => b'5',
        Class::Null => b'6',
    }
}

// The same by the forms, 100h and the two codes, with no table.
fn digit_by_form(w: u16) -> u8 {
    match w {
        _ if forms::is_byte(w) => b'1',
        class::NULL_WORD => b'6',
        _ if forms::is_data(w) => b'2',
        class::SEPARATOR => b'3',
        class::END_CODE => b'4',
        _ => b'5',
    }
}

// The digit of a number's class, or x where the table and the forms differ.
fn digit_at(w: u16) -> u8 {
    let digit = digit_of(class::class_of(w));
    if digit == digit_by_form(w) {
        digit
    } else {
        b'x'
    }
}

// What is text already is written as it is: `print!` would make a buffer ready for each digit.
// `Kinds FROM`, row `kinds FROM DIGITS`: the classes of 256 numbers: 1 byte form, 2 other data form, 3 separator, 4 end code, 5 illegal, 6 the null word 100h.
pub(crate) fn kinds(rt: &impl Print, from: u64) -> io::Result<()> {
    let n = from % 65536;
    rt.write_all(b"kinds")?;
    print!(rt; " {n}")?;
    rt.write_all(b" ")?;
    for i in n..n + 256 {
        rt.write_all(&[digit_at((i % 65536) as u16)])?;
    }
    rt.write_all(b"\n")
}
