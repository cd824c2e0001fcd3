// The report of a file: its tree built, its queries answered, and the lines that the program `treepaths` writes.
#![tactic(auto)]

pub mod report;
