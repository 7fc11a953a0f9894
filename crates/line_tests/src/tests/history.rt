// The tests of sheets stand here, since each crate is checked once more with its tests.
mod corners;
mod grid;
mod history;
