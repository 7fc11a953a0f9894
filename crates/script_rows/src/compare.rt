/// Whether a line is the wanted one. Two dots behind a space, at the end of the wanted one, stand for
/// anything.
fn is_wanted(line: &[u8], wanted: &[u8]) -> bool {
    match wanted {
        [front @ .., b' ', b'.', b'.'] => line.len() > front.len() && line.starts_with(front),
        _ => line == wanted,
    }
}

/// A line that is not the wanted one: its number, from 1, and itself, which is empty where there is none.
#[derive(Clone, Copy)]
pub(crate) struct Apart<'a> {
    pub(crate) number: usize,
    pub(crate) line: &'a [u8],
}

/// The first line that is not the wanted one.
fn first_line_apart<'a>(output: &'a [u8], wanted: &[u8]) -> Option<Apart<'a>> {
    let mut lines = output.split(|byte| *byte == b'\n');
    let mut number: usize = 0;
    for wanted in wanted.split(|byte| *byte == b'\n') {
        number = number.saturating_add(1);
        match lines.next() {
            Some(line) if is_wanted(line, wanted) => (),
            found => {
                let line = found.unwrap_or(b"");
                return Some(Apart { number, line });
            }
        }
    }
    let number = number.saturating_add(1);
    match lines.next() {
        Some(line) => Some(Apart { number, line }),
        None => None,
    }
}

/// Where an output is not the wanted one. That of a run which does not end well is right if it is a
/// front of the wanted one.
pub(crate) fn first_apart<'a>(status: u8, output: &'a [u8], wanted: &[u8]) -> Option<Apart<'a>> {
    if status == 0 {
        first_line_apart(output, wanted)
    } else if wanted.starts_with(output) {
        None
    } else {
        Some(Apart {
            number: 1,
            line: b"",
        })
    }
}
