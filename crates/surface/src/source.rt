//! A source: its names, types, hierarchy and settings.

ghost use Rattle.adl_meaning.specs.Prelude.{AreFew, AreNamesSound, HaveFewMembers, flat_of};
ghost use Rattle.std.specs.Prelude.{◌≡◌};

use crate::refused::show_refused;
use adl_ast::Source;
use adl_flatten::flatten;
use adl_import::load;
use adl_meaning::{Flat, is_prefix, same_end};
use adl_names::{Names, resolve};
use adl_settings::settle;
use adl_types::check_types;
use cam_io::Files;
use std::io;

/// The source of a root, phase by phase.
pub fn show_source<F: Files>(rt: &HostRuntime, files: &mut F) -> io::Result<()> {
    match load(rt.alloc(), files, "app.camkes") {
        Ok(source) => show_names(rt, &source),
        Err(_) => println!(rt; "load: refused"),
    }
}

fn show_names(rt: &HostRuntime, source: &Source) -> io::Result<()>
    requires few { AreFew source.now }
    requires members { HaveFewMembers source.now }
{
    match resolve(rt.alloc(), source) {
        Ok(names) => show_types(rt, source, &names),
        Err(why) => show_refused(rt, "resolve", &why),
    }
}

fn show_types(rt: &HostRuntime, source: &Source, names: &Names) -> io::Result<()>
    requires few { AreFew source.now }
    requires members { HaveFewMembers source.now }
    requires sound { AreNamesSound source.now }
{
    let procedures = names.procedures.len();
    let components = names.components.len();
    println!(rt; "resolve: {procedures} procedures, {components} components")?;
    match check_types(rt.alloc(), source, names) {
        Ok(()) => show_hierarchy(rt, source, names),
        Err(why) => show_refused(rt, "check_types", &why),
    }
}

fn show_hierarchy(rt: &HostRuntime, source: &Source, names: &Names) -> io::Result<()>
    requires few { AreFew source.now }
    requires members { HaveFewMembers source.now }
    requires sound { AreNamesSound source.now }
{
    println!(rt; "check_types: no fault")?;
    match flatten(rt.alloc(), source, names) {
        Ok(flat) => {
            show_flat(rt, &flat)?;
            show_settings(rt, source, names, &flat)
        }
        Err(why) => show_refused(rt, "flatten", &why),
    }
}

fn show_flat(rt: &HostRuntime, flat: &Flat) -> io::Result<()> {
    let leaves = flat.leaves.len();
    let domains = flat.domains.len();
    let connections = flat.connections.len();
    println!(rt; "flatten: {leaves} leaves, {domains} domains, {connections} connections")?;
    show_paths(rt, flat)?;
    show_ends(rt, flat)
}

/// Whether the path of the first leaf begins its own, and not that of the second.
fn show_paths(rt: &HostRuntime, flat: &Flat) -> io::Result<()> {
    let [first, second, ..] = flat.leaves.as_slice() else {
        return println!(rt; "flatten: other leaves");
    };
    if is_prefix(&first.path, &first.path) && !is_prefix(&first.path, &second.path) {
        println!(rt; "is_prefix: its own, no other")
    } else {
        println!(rt; "is_prefix: otherwise")
    }
}

/// Whether the first end of the first connection is itself, and not the second.
fn show_ends(rt: &HostRuntime, flat: &Flat) -> io::Result<()> {
    let [connection, ..] = flat.connections.as_slice() else {
        return println!(rt; "flatten: other connections");
    };
    let [first, second, ..] = connection.ends.as_slice() else {
        return println!(rt; "flatten: other ends");
    };
    if same_end(first, first) && !same_end(first, second) {
        println!(rt; "same_end: itself, no other")
    } else {
        println!(rt; "same_end: otherwise")
    }
}

fn show_settings(rt: &HostRuntime, source: &Source, names: &Names, flat: &Flat) -> io::Result<()>
    requires few { AreFew source.now }
    requires flat { flat.now ≡ flat_of source.now }
{
    match settle(rt.alloc(), source, names, flat) {
        Ok(settled) => {
            for leaf in settled.leaves.as_slice() {
                let priority = leaf.priority;
                let stack = leaf.stack;
                println!(rt; "settle: priority {priority}, stack {stack}")?;
            }
            Ok(())
        }
        Err(why) => show_refused(rt, "settle", &why),
    }
}
