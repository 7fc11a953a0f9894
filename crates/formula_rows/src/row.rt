use std::alloc::{AllocError, Global};

/// A line of fields.
#[derive(Drop)]
pub(crate) struct Row {
    fields: Vec<String>,
}

/// What a letter behind a backslash stands for.
fn meant(letter: char) -> char {
    match letter {
        't' => '\t',
        'n' => '\n',
        _ => letter,
    }
}

/// A field as it is meant: `\t`, `\n` and `\\` stand for a tab, a line feed and a backslash.
fn field(alloc: Global, written: &str) -> Result<String, AllocError> {
    let mut text = String::new(alloc);
    let mut is_behind = false;
    for letter in written.chars() {
        if is_behind {
            text.push(meant(letter))?;
            is_behind = false;
        } else if letter == '\\' {
            is_behind = true;
        } else {
            text.push(letter)?;
        }
    }
    Ok(text)
}

impl Row {
    /// The fields of a line, which tabs part.
    pub(crate) fn read(alloc: Global, line: &str) -> Result<Row, AllocError> {
        let mut fields = Vec::new(alloc);
        for written in line.split('\t') {
            fields.push(field(alloc, written)?)?;
        }
        Ok(Row { fields })
    }

    /// The first field.
    pub(crate) fn call(&self) -> &str {
        match self.fields.as_slice() {
            [call, ..] => call.as_str(),
            [] => "",
        }
    }

    /// One of the fields between the first and the last, and an empty text where there are not as many.
    pub(crate) fn argument(&self, index: usize) -> &str {
        match self.fields.as_slice() {
            [_, arguments @ .., _] => text_at(arguments, index),
            _ => "",
        }
    }

    /// The last of several fields.
    pub(crate) fn wanted(&self) -> &str {
        match self.fields.as_slice() {
            [_, .., wanted] => wanted.as_str(),
            _ => "",
        }
    }
}

fn text_at(texts: &[String], index: usize) -> &str {
    match texts.get(index) {
        Some(text) => text.as_str(),
        None => "",
    }
}
