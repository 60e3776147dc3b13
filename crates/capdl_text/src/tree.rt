//! The tree of a text, which borrows the names and texts that stand there.

use crate::Span;
use crate::borrowed::{NameAt, TextAt};
use cam_base::List;
use cap_model::{Arch, Level, Rights};

/// A word that names an object.
#[derive(Drop)]
pub struct Id<'x> {
    pub name: NameAt<'x>,
    pub place: Span,
}

#[derive(Clone, Copy)]
pub struct Number {
    pub value: u64,
    pub place: Span,
}

/// What a field of a thread says.
#[derive(Drop)]
pub enum ThreadValue<'x> {
    Addr(Number),
    Ip(Number),
    Sp(Number),
    Prio(Number),
    Elf(TextAt<'x>),
}

/// A field of a thread. The place is that of its word.
#[derive(Drop)]
pub struct ThreadField<'x> {
    pub place: Span,
    pub value: ThreadValue<'x>,
}

/// What a frame is filled with.
#[derive(Drop)]
pub struct FillLine<'x> {
    pub offset: Number,
    pub length: Number,
    pub file: TextAt<'x>,
    pub at: Number,
}

/// What a field of a frame says.
#[derive(Drop)]
pub enum FrameValue<'x> {
    Paddr(Number),
    Fill(Option<FillLine<'x>>),
}

/// A field of a frame. The place is that of its word.
#[derive(Drop)]
pub struct FrameField<'x> {
    pub place: Span,
    pub value: FrameValue<'x>,
}

/// What an object is said to be.
#[derive(Drop)]
pub enum KindLine<'x> {
    Endpoint,
    Notification,
    /// The number of bits.
    CNode(Number),
    Thread(List<ThreadField<'x>>),
    Frame(List<FrameField<'x>>),
    /// The place is that of the kind's word.
    Pages(Level, Span),
    Irq,
}

#[derive(Drop)]
pub struct ObjectLine<'x> {
    pub id: Id<'x>,
    pub kind: KindLine<'x>,
}

/// Which slot a line is about.
#[derive(Clone, Copy)]
pub enum SlotKey {
    Number(u64),
    Cspace,
    Vspace,
    Buffer,
}

/// A parameter of a capability. The place is that of the word.
#[derive(Clone, Copy)]
pub enum Param {
    Rights(Rights, Span),
    Badge(Span, Number),
}

/// A slot and its capability. The place is that of the slot's number or word.
#[derive(Drop)]
pub struct SlotLine<'x> {
    pub key: SlotKey,
    pub place: Span,
    pub object: Id<'x>,
    pub params: List<Param>,
}

#[derive(Drop)]
pub struct Holder<'x> {
    pub id: Id<'x>,
    pub slots: List<SlotLine<'x>>,
}

#[derive(Drop)]
pub struct IrqLine<'x> {
    pub number: Number,
    pub object: Id<'x>,
}

#[derive(Drop)]
pub struct SpecTree<'x> {
    pub arch: Arch,
    pub objects: List<ObjectLine<'x>>,
    pub holders: List<Holder<'x>>,
    pub irqs: List<IrqLine<'x>>,
}
