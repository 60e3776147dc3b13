ghost use Rattle.explain.specs.declared.reason.ExplainError.TheVariants.{NoMemory as WantOfMemory};
ghost use Rattle.std.specs.Prelude.{◌≡◌};

use cam_base::NoMemory;
use thiserror::Error;

/// By which rule an authority is assigned.
#[derive(Clone, Copy)]
pub enum Rule {
    /// By a row of the connector table.
    Direct,
    /// A server may reply to its callers.
    ByCall,
    /// A device may signal what the handler of its interrupt may signal.
    ByBind,
}

/// Why an authority is assigned. Ends are told by the numbers of the connection and of the end among its ends, a lock by its
/// leaf and its place among the members of the leaf's component. Of a call `first` is the `from` end and `second` the `to`
/// end; of a bound interrupt `first` is its `to` end, and `second` the `from` end of a notification, or `lock` the lock.
#[derive(Clone, Copy)]
pub struct Reason {
    pub rule: Rule,
    pub first: (u32, u32),
    pub second: Option<(u32, u32)>,
    pub lock: Option<(u32, u32)>,
}

/// Why nothing is explained.
#[derive(Clone, Copy, Debug, Error)]
pub enum ExplainError {
    /// No label of the first text is assigned the authority over one of the second.
    #[error("not assigned")]
    NotAssigned,
    /// Want of memory.
    #[error("no memory")]
    NoMemory,
}

impl From<NoMemory> for ExplainError {
    ghost from_gives = { λ _ error. error ≡ WantOfMemory };

    fn from(_: NoMemory) -> ExplainError {
        ExplainError::NoMemory
    }
}
