// Generalized resolution, and whether a column is in any set of R columns with a ratio above zero.
use crate::lines::{field, line, put, refusal_line};
use std::io::Write;

// Every word is zero.
const NO_RESOLUTION: u64 = 11;

pub(crate) fn generalized<W: Write>(output: &mut W, levels: &[u8], table: &[u8]) {
    match resolution::generalized(levels, table) {
        Ok(answer) => {
            let ratio = answer.ratio;
            let numbers = [
                answer.resolution as u64,
                ratio.num,
                ratio.den,
                answer.thousandths,
            ];
            line(output, b"gr", &numbers);
        }
        Err(refused) if refused.number == NO_RESOLUTION => line(output, b"gr none", &[]),
        Err(refused) => refusal_line(output, refused),
    }
}

// A column of a plan that is refused has no figure, and is as clear.
fn column<W: Write>(output: &mut W, levels: &[u8], table: &[u8], i: usize) {
    put(output, b"column");
    field(output, i as u64);
    match resolution::column_figure(levels, table, i) {
        Ok(Some(_)) => put(output, b" some\n"),
        _ => put(output, b" clear\n"),
    }
}

pub(crate) fn columns<W: Write>(output: &mut W, levels: &[u8], table: &[u8]) {
    for i in 0..levels.len() {
        column(output, levels, table, i);
    }
}
