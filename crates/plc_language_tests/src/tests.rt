// One file for each part of reading, printing and lowering.
mod files;
mod flows;
mod forms;
mod names;
mod negation;
mod numbers;
mod outlines;
mod spellings;
mod statements;
mod tables;
mod texts;
