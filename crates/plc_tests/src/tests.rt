// The program as a whole: its rows, its limits and its outside.
mod certificates;
mod faults;
mod files;
mod limits;
mod located;
mod locations;
mod outlines;
mod outside;
mod program;
mod reclaimers;
mod rows;
mod texts;
