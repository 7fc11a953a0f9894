mod dump;
mod ends;
