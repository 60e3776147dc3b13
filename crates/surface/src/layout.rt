//! The slots and the spaces of a system.

ghost use Rattle.arch_compile.specs.Steps.{IsImaged};
ghost use Rattle.front_end.specs.Steps.{HasMeaning};

use crate::refused::show_refused;
use cam_io::Files;
use cspace_layout::{Slots, lay_caps};
use front_end::{Meaning, meaning_of};
use source_images::read_images;
use std::io;
use vspace_layout::{Images, Spaces, lay_spaces};

const ROOT: &str = "app.camkes";

/// What the source of a root means, and what is laid out for it.
pub fn show_layout<F: Files>(rt: &HostRuntime, files: &mut F) -> io::Result<()> {
    match meaning_of(rt.alloc(), files, ROOT) {
        Ok(meaning) => {
            show_slots(rt, &meaning)?;
            show_images(rt, files, &meaning)
        }
        Err(_) => println!(rt; "meaning_of: refused"),
    }
}

fn show_slots(rt: &HostRuntime, meaning: &Meaning) -> io::Result<()>
    requires { HasMeaning meaning.now.source meaning.now.flat meaning.now.settled }
{
    match lay_caps(rt.alloc(), &meaning.source, &meaning.flat, &meaning.settled) {
        Ok(slots) => show_uses(rt, &slots),
        Err(why) => show_refused(rt, "lay_caps", &why),
    }
}

fn show_uses(rt: &HostRuntime, slots: &Slots) -> io::Result<()> {
    for domain in slots.domains.as_slice() {
        let uses = domain.uses.len();
        println!(rt; "lay_caps: {uses} uses")?;
    }
    Ok(())
}

fn show_images<F: Files>(rt: &HostRuntime, files: &mut F, meaning: &Meaning) -> io::Result<()>
    requires { HasMeaning meaning.now.source meaning.now.flat meaning.now.settled }
{
    match read_images(rt.alloc(), files, ROOT, &meaning.source, &meaning.flat) {
        Ok(images) => show_spaces(rt, meaning, &images),
        Err(_) => println!(rt; "read_images: refused"),
    }
}

fn show_spaces(rt: &HostRuntime, meaning: &Meaning, images: &Images) -> io::Result<()>
    requires sound { HasMeaning meaning.now.source meaning.now.flat meaning.now.settled }
    requires imaged { IsImaged meaning.now.flat images.now }
{
    let laid = lay_spaces(
        rt.alloc(),
        &meaning.source,
        &meaning.flat,
        &meaning.settled,
        images,
    );
    match laid {
        Ok(spaces) => show_laid(rt, &spaces),
        Err(why) => show_refused(rt, "lay_spaces", &why),
    }
}

fn show_laid(rt: &HostRuntime, laid: &Spaces) -> io::Result<()> {
    for space in laid.spaces.as_slice() {
        let pages = space.pages.len();
        let threads = space.threads.len();
        let windows = space.windows.len();
        println!(rt; "lay_spaces: {pages} pages, {threads} threads, {windows} windows")?;
    }
    let frames = laid.frames.len();
    println!(rt; "lay_spaces: {frames} frames")
}
