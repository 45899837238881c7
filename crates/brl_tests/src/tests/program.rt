//! Tests of the program: its runs over files, streams and words in memory, the streams that it
//! translates, its reports, and how far it says that its work is.
mod again;
mod cases;
mod checks;
mod cuts;
mod deliveries;
mod dots;
mod file_notes;
mod files;
mod progress;
mod report;
mod runs;
mod searches;
mod sections;
mod slips;
mod streams;
