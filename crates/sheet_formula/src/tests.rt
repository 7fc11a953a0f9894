// Tests of the crates below, whose own check is long. What rows can say is in `formula_rows`.
mod contents;
mod outside;
mod round;
