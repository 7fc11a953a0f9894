//! Progressions: what goes on from a list of texts, as numbers, texts that end in a number, or the
//! names of days and months. A fill asks `detect_progression` for one, and `next` for its texts.
#![tactic(auto)]

mod case;
mod characters;
mod detect;
mod find;
mod letters;
mod names;
mod number;
mod progression;
mod reading;
mod steps;
mod suffix;
mod trim;

pub use detect::{
    DateProgressionDetector, NumericProgressionDetector, SequenceDetector, SuffixedNumberDetector,
    detect_progression, detector_equality_is_of_values,
};
pub use progression::{DateProgression, NumericProgression, Progression, SuffixedProgression};
