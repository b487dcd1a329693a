// Garbage-collected runs, the obligations of outlines with their ground sets, and how these are answered.
mod amounts;
mod certificates;
mod checksums;
mod collected;
mod deep;
mod erased;
mod loading;
mod marked_sets;
mod marks;
mod obligations;
mod sets;
mod solver;
mod texts;
mod whole_sets;
