use script_dump::push_line;
use std::alloc::{AllocError, Global};

/// What a run writes last where no `sync` came: the second copy, which has had nothing.
const NEW_COPY: &str = "copy\nbook en UTC workbook\nsheet 1 visible 1 0 0 - Sheet1\nend\n";

/// A script, how it is run, and what it must write.
#[derive(Drop)]
pub(crate) struct Case<'a> {
    pub(crate) name: &'a str,
    pub(crate) script: Vec<u8>,
    /// Calls, a line each, behind `! ` where they are made on one of two models alone. A case with calls
    /// has no script.
    pub(crate) calls: Vec<u8>,
    /// Whether the last line of the script has no line feed.
    pub(crate) is_unended: bool,
    /// The numbers of the reads and of the writes that fail, from 0.
    pub(crate) reads: Vec<u64>,
    pub(crate) writes: Vec<u64>,
    /// The status with which the run must end.
    pub(crate) status: u64,
    pub(crate) wanted: Vec<u8>,
    /// Whether the wanted output has the second copy.
    pub(crate) has_copy: bool,
    /// Whether some of its rows or settings say nothing that is known.
    pub(crate) is_misread: bool,
}

/// What a number in a header is.
#[derive(Clone, Copy)]
enum Setting {
    None,
    Reads,
    Writes,
    Feeds,
    Status,
}

impl<'a> Case<'a> {
    pub(crate) fn new(alloc: Global, name: &'a str) -> Self {
        Case {
            name,
            script: Vec::new(alloc),
            calls: Vec::new(alloc),
            is_unended: false,
            reads: Vec::new(alloc),
            writes: Vec::new(alloc),
            status: 0,
            wanted: Vec::new(alloc),
            has_copy: false,
            is_misread: false,
        }
    }

    /// The case of a header: its name, and behind a bar its settings.
    pub(crate) fn begin(alloc: Global, header: &'a str) -> Result<Case<'a>, AllocError> {
        match header.split_once(" | ") {
            Some((name, settings)) => {
                let mut case = Case::new(alloc, name);
                case.set_all(settings)?;
                Ok(case)
            }
            None => Ok(Case::new(alloc, header)),
        }
    }

    /// Takes settings: words, each with the numbers behind it.
    fn set_all(&mut self, settings: &str) -> Result<(), AllocError> {
        let mut setting = Setting::None;
        for word in settings.split(' ') {
            match word.parse::<u64>() {
                Ok(number) => self.set(setting, number)?,
                Err(_) => setting = self.setting(word),
            }
        }
        Ok(())
    }

    /// What the numbers behind a word are.
    fn setting(&mut self, word: &str) -> Setting {
        match word {
            "reads" => Setting::Reads,
            "writes" => Setting::Writes,
            "feeds" => Setting::Feeds,
            "status" => Setting::Status,
            "unended" => {
                self.is_unended = true;
                Setting::None
            }
            _ => {
                self.is_misread = true;
                Setting::None
            }
        }
    }

    fn set(&mut self, setting: Setting, number: u64) -> Result<(), AllocError> {
        match setting {
            Setting::None => self.is_misread = true,
            Setting::Reads => self.reads.push(number)?,
            Setting::Writes => self.writes.push(number)?,
            Setting::Feeds => self.script.resize(number as usize, b'\n')?,
            Setting::Status => self.status = number,
        }
        Ok(())
    }

    /// Takes a row that is no header: a line of the script, a call, a line of the output, or a comment.
    pub(crate) fn take(&mut self, row: &[u8]) -> Result<(), AllocError> {
        match row {
            [] | [b'#', ..] => Ok(()),
            [b'>'] => push_line(&mut self.script, b""),
            [b'>', b' ', line @ ..] => push_line(&mut self.script, line),
            [b'<', b' ', line @ ..] => self.want(line),
            [b'!', b' ', line @ ..] => push_line(&mut self.calls, line),
            [b'!', b'!', b' ', line @ ..] => self.try_call(line),
            _ => {
                self.is_misread = true;
                Ok(())
            }
        }
    }

    fn try_call(&mut self, line: &[u8]) -> Result<(), AllocError> {
        self.calls.extend_from_slice(b"! ")?;
        push_line(&mut self.calls, line)
    }

    fn want(&mut self, line: &[u8]) -> Result<(), AllocError> {
        self.has_copy = self.has_copy || line == b"copy".as_slice();
        push_line(&mut self.wanted, line)
    }

    /// Makes script and output whole, when all rows are taken.
    pub(crate) fn complete(&mut self) -> Result<(), AllocError> {
        if self.is_unended {
            self.script.pop();
        }
        if self.status == 0 && self.calls.is_empty() && !self.has_copy {
            self.wanted.extend_from_slice(NEW_COPY.as_bytes())?;
        }
        Ok(())
    }
}
