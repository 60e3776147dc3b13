use crate::{Id, Import, Words};
use cam_base::List;

/// A procedure: the methods that one side calls and the other provides.
#[derive(Drop)]
pub struct Procedure {
    pub id: Id,
    pub members: List<ProcMember>,
}

/// A member of a procedure.
#[derive(Drop)]
pub enum ProcMember {
    Include(Import),
    Method(Method),
}

/// A method of a procedure.
#[derive(Drop)]
pub struct Method {
    /// The words of the type that it answers, one to three.
    pub result: Words,
    pub id: Id,
    /// Between the parentheses stands `void` alone.
    pub void: bool,
    pub params: List<Param>,
}

/// Which way a parameter is passed.
#[derive(Clone, Copy, Debug, PartialEq, Eq)]
pub enum Direction {
    DirIn,
    DirOut,
    DirInOut,
    DirRefIn,
}

/// A parameter of a method. Where no direction stands it is `in`.
#[derive(Drop)]
pub struct Param {
    pub direction: Option<Direction>,
    /// `[]` stands behind the name.
    pub array: bool,
    /// The words of its type, one to three.
    pub words: Words,
    pub id: Id,
}
