//! The words of operations that have the same arguments.

/// The word of an operation on an object that has no other argument. Each is that of the operation
/// of the same name.
#[derive(Clone, Copy, PartialEq, Eq, Debug)]
pub enum ObjectWord {
    NewCondition,
    NewLock,
    Take,
    Next,
    Close,
    IsOpen,
    IsReady,
    Notify,
    Reset,
    EWait,
    Lock,
    Unlock,
    CWait,
    CBack,
    Acquire,
    Release,
    AGet,
}

/// The word of an operation on an object with a number of 64 bits. Each is that of the operation
/// of the same name.
#[derive(Clone, Copy, PartialEq, Eq, Debug)]
pub enum NumberWord {
    NewAtomic,
    Put,
    Offer,
    ASet,
    AAdd,
    ASub,
    AXchg,
}
