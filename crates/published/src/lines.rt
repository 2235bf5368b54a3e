// A line of output: its name, its numbers, byte 10.
use rules::Refusal;
use std::io::Write;

// What cannot be written is passed over.
pub(crate) fn put<W: Write>(output: &mut W, bytes: &[u8]) {
    let _ = output.write_all(bytes);
}

pub(crate) fn field<W: Write>(output: &mut W, number: u64) {
    let _ = write!(output, " {number}");
}

pub(crate) fn line<W: Write>(output: &mut W, name: &[u8], numbers: &[u64]) {
    put(output, name);
    for number in numbers {
        field(output, *number);
    }
    put(output, b"\n");
}

pub(crate) fn refusal_line<W: Write>(output: &mut W, refused: Refusal) {
    let numbers = [refused.number, refused.first as u64, refused.second as u64];
    line(output, b"refused", &numbers);
}
