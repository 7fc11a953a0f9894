/// What goes on after an item of an array.
#[derive(Clone, Copy, Debug)]
pub enum AfterItem {
    /// The next item of the line.
    Column,
    /// The next line.
    Row,
    /// Nothing: the array ends.
    End,
}
