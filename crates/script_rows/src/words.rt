/// The words of a call that are not taken yet.
#[derive(Clone, Copy)]
pub(crate) struct Words<'a> {
    rest: &'a str,
}

impl<'a> Words<'a> {
    pub(crate) fn new(text: &'a str) -> Self {
        Words { rest: text }
    }

    /// The next word, which is empty where none is left.
    pub(crate) fn word(&mut self) -> &'a str {
        match self.rest.split_once(' ') {
            Some((word, rest)) => {
                self.rest = rest;
                word
            }
            None => self.text(),
        }
    }

    /// All that is left, with the spaces in it.
    pub(crate) fn text(&mut self) -> &'a str {
        let text = self.rest;
        self.rest = "";
        text
    }

    /// The next word as a number, and -1 where it is none.
    pub(crate) fn number(&mut self) -> i32 {
        self.word().parse::<i32>().unwrap_or(-1)
    }

    /// The next word as the index of a sheet, and the greatest number where it is none.
    pub(crate) fn sheet(&mut self) -> u32 {
        self.word().parse::<u32>().unwrap_or(u32::MAX)
    }

    /// The next word as the index of a rule, and the greatest number where it is none.
    pub(crate) fn index(&mut self) -> u64 {
        self.word().parse::<u64>().unwrap_or(u64::MAX)
    }

    /// The next word as a sheet's index, and none where it is a dash.
    pub(crate) fn scope(&mut self) -> Option<u32> {
        self.word().parse::<u32>().ok()
    }
}
