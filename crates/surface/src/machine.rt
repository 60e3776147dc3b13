//! A compiled system: its edges at boot, and a step.

ghost use Rattle.cap_machine.specs.Progress.{Progress};
ghost use Rattle.cap_model.specs.Kept.{IsKept};
ghost use Rattle.std.specs.Prelude.{◌≡◌};

use arch_compile::compile;
use cam_io::Files;
use cap_machine::{State, Step, boot, direct};
use cap_model::{Policy, Spec};
use policy_text::label_objects;
use std::io;
use step_text::read_steps;

/// What is compiled of the source of a root.
pub fn show_build<F: Files>(rt: &HostRuntime, files: &mut F) -> io::Result<()> {
    match compile(rt.alloc(), files, "app.camkes") {
        Ok(build) => {
            show_edges(rt, &build.spec, &build.policy)?;
            show_state(rt, &build.spec)
        }
        Err(_) => println!(rt; "compile: refused"),
    }
}

fn show_edges(rt: &HostRuntime, spec: &Spec, policy: &Policy) -> io::Result<()> {
    let Ok(labels) = label_objects(rt.alloc(), spec, policy) else {
        return println!(rt; "label_objects: refused");
    };
    match direct(rt.alloc(), spec, &labels) {
        Ok(edges) => {
            let count = edges.len();
            println!(rt; "direct: {count} edges")
        }
        Err(_) => println!(rt; "direct: no memory"),
    }
}

fn show_state(rt: &HostRuntime, spec: &Spec) -> io::Result<()>
    requires { IsKept spec.now }
{
    let Ok(steps) = read_steps(rt.alloc(), spec, b"call tcb_0 1 tcb_2 1") else {
        return println!(rt; "read_steps: refused");
    };
    let [step] = steps.as_slice() else {
        return println!(rt; "read_steps: other steps");
    };
    match boot(rt.alloc(), spec) {
        Ok(state) => show_step(rt, spec, state, step),
        Err(_) => println!(rt; "boot: no memory"),
    }
}

fn show_step(rt: &HostRuntime, spec: &Spec, mut state: State, step: &Step) -> io::Result<()>
    requires { state.applied ≡ 0 }
{
    let before = state.applied();
    match state.apply(spec, step) {
        Ok(()) => {
            let after = state.applied();
            println!(rt; "applied: {before}, then {after}")
        }
        Err(_) => println!(rt; "apply: refused"),
    }
}
