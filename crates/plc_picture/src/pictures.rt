// A model speaks of two states in one list of terms: version 0 of each map and the constants of the variables are what
// was there before the step, and what is executed says which versions and constants are there after it. So both
// pictures are made by one way of reading, over what was executed: nothing, or all.
ghost use Rattle.std.specs.Prelude.{◌<◌, length};
ghost use Rattle.plc_vocabulary.specs.Fit.{Fits};

use crate::boxes::{boxes_of, nulls_of};
use crate::picture::Picture;
use crate::scene::Scene;
use crate::state::{State, state_of};
use plc_base::NoMemory;
use plc_encoding::{Execution, execution_of};
use plc_flow::Flow;
use plc_ground::{GroundModel, GroundSet};
use plc_logic::Outline;
use plc_vocabulary::{
    Obligation, acting_locals, conclusion, owner_locals, program_uses_marks, setting_of,
};
use std::alloc::Global;

/// The picture of a state.
fn picture_in(scene: &Scene, state: &State) -> Result<Picture, NoMemory> {
    let boxes = boxes_of(scene, state)?;
    let nulls = nulls_of(scene, state)?;
    Ok(Picture { boxes, nulls })
}

/// The picture of the state in which this was executed.
fn picture_after(scene: &Scene, execution: &Execution) -> Result<Picture, NoMemory>
    requires { length execution.now.written < 65536 }
{
    let state = state_of(scene, execution)?;
    picture_in(scene, &state)
}

/// The state before the step of an obligation and the state after it, in a model of the obligation's ground set. In
/// the second picture it is noted what differs from the first. Of another set or other classes the pictures show what
/// can be read of them. The one error is that memory runs out.
pub fn before_and_after(
    alloc: Global,
    flow: &Flow,
    outline: &Outline,
    o: &Obligation,
    set: &GroundSet,
    model: &GroundModel,
) -> Result<(Picture, Picture), NoMemory>
    requires { Fits flow.now outline.now }
{
    let scene = Scene {
        alloc,
        file: &flow.file,
        mine: acting_locals(flow, o),
        theirs: owner_locals(flow, o),
        clause: conclusion(flow, outline, o),
        terms: set.terms.as_slice(),
        sorts: set.sorts.as_slice(),
        class: model.class.as_slice(),
    };
    let marked = program_uses_marks(flow, outline);
    let setting = setting_of(alloc, marked, flow, outline, o)?;
    let executed = execution_of(alloc, setting.acts.as_slice())?;
    let before = picture_after(&scene, &Execution::new(alloc))?;
    let after = picture_after(&scene, &executed)?;
    Ok((before, after))
}
