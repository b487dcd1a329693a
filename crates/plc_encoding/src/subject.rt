// What a ground set is written from. Several items read most of it, so it is handed on as one.
use plc_flow::Flow;
use plc_logic::Outline;
use plc_vocabulary::{Obligation, Setting};
use std::alloc::Global;

/// An obligation of an outline, with its setting.
#[derive(Clone, Copy)]
pub struct Subject<'a> {
    pub alloc: Global,
    pub flow: &'a Flow,
    pub outline: &'a Outline,
    pub setting: &'a Setting,
    pub obligation: &'a Obligation,
}
