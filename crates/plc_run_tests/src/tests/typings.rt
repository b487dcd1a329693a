// The strongest typing of files, a line for each point. A type is written as in the tests of types.
ghost use Rattle.plc_lang.specs.Fit.{FileFits};
ghost use Rattle.plc_flow.specs.WellFormed.{FlowFits};

use crate::tests::texts::row_is;
use crate::tests::types::push_env;
use plc_base::NoMemory;
use plc_check::Judged;
use plc_infer::infer;
use plc_testing::loaded;
use plc_type::Env;
use std::alloc::{AllocError, Global};

// The types of each point, a line for each.
fn typing_text(alloc: Global, envs: &[Env]) -> Result<String, AllocError> {
    let mut text = String::new(alloc);
    for env in envs {
        push_env(&mut text, env)?;
        text.push('\n')?;
    }
    Ok(text)
}

// The strongest typing of a file.
fn inferred_in(alloc: Global, judged: &Judged) -> Result<String, AllocError>
    requires flow { FlowFits judged.now.flow }
    requires file { FileFits judged.now.flow.file }
{
    match infer(alloc, &judged.flow, &judged.observer) {
        Ok(typing) => typing_text(alloc, typing.env.as_slice()),
        Err(fault) => format!(in alloc; "{fault:?}\n"),
    }
}

fn inferred(alloc: Global, text: &str) -> Result<String, NoMemory> {
    let judged = loaded(alloc, text)?;
    let types = inferred_in(alloc, &judged);
    drop(judged);
    Ok(types?)
}

const TYPINGS: &str = "# struct N { } shared T;
# struct N { ptr f; data d; } shared T; op g(v) { ptr n; ptr a; ptr b; n := new; n.d := v; T := n; }
-01 / ALS ALS ALS / 01
-01 / -01 ALS ALS / 01
-01 / ALS0 ALS ALS / 01
-01 / ALS0 ALS ALS / 01
-01 / -01 ALS ALS / 01
# struct N { ptr f; data d; } shared T; call p(ptr); use hazard(p); op g(v) { ptr n; ptr a; ptr b; n := new; \
    n.d := v; T := n; }
-0123456 / ALS ALS ALS / 0123456
-0123456 / -012346 ALS ALS / 0123456
-0123456 / ALS012 ALS ALS / 0123456
-0123456 / ALS012 ALS ALS / 0123456
-0123456 / -012346 ALS ALS / 0123456
# struct N { ptr f; data d; } shared T; op g(v) { ptr n; n := new; T := n; n.d := v; }
Stuck { step: StepId(2), prim: 0, fault: DerefNotSafe { var: Local(0) } }
# struct N { ptr f; } shared T; op g() { ptr p; ptr q; loop { choose { break; } or { q := p; p := T; } } }
-01 / ALS ALS / 01
-01 / -01 -01 / 01
-01 / -01 -01 / 01
-01 / -01 -01 / 01
-01 / -01 -01 / 01
- / ALS ALS / 
-01 / -01 -01 / 01
-01 / -01 -01 / 01
-01 / -01 -01 / 01
-01 / -01 -01 / 01
";

#[test]
fn each_point_has_its_strongest_types(rt: HostRuntime) -> Result<(), NoMemory> {
    for row in TYPINGS.split("# ") {
        if !row.is_empty() {
            let (file, want) = row.split_once("\n").unwrap_or((row, "?"));
            row_is(&rt, file, inferred(rt.alloc(), file), want)?;
        }
    }
    Ok(())
}
