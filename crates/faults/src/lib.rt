// Why a text is refused while it is loaded, why a run breaks off, and why a public call does nothing: each has its number in document 01's
// table.
#![tactic(auto)]

ghost use Rattle.std.specs.Prelude.{◌≡◌};
ghost use Rattle.faults.specs.declared.Fault.TheVariants.{Load, Run};
ghost use Rattle.faults.specs.Numbers.{load_number, run_number, fault_number};

// Why a text is refused.
#[derive(Clone, Copy, PartialEq, Eq)]
pub enum LoadFault {
    // 2: it is too large or holds byte 0
    BadText,
    // 3: it has no legal flag line
    BadFlags,
    // 4: a content of a template, a code line or a layout is too long
    LongContent,
    // 5: a template has ten placeholders
    ManyPlaceholders,
    // 6: a template was met before
    MetTemplate,
    // 7: malformed code, a missing layout, an unmatched or too deep iteration
    BadCode,
    // 8: the section isn't ended
    OpenSection,
    // 9: a count limit is passed
    OverLimit,
}

// Why a run breaks off.
#[derive(Clone, Copy, PartialEq, Eq)]
pub enum RunFault {
    // 11: an input line's content is too long
    LongInput,
    // 12: a line that is built would be too long
    LongLine,
    // 13: an output lacks room
    NoRoom,
    // 14: a call more than may be open
    DeepCall,
    // 15: an expression has no value
    NoValue,
    // 16: conversion 8 of what is not exactly one character
    NoCodePoint,
    // 17: an iteration meets a bracket that begins no group
    NoAtom,
    // 18: a skip is negative or lands in other iterations
    BadSkip,
    // 19: too many names, or too many bytes of names and texts
    FullStore,
    // 20: the fuel is used
    NoFuel,
    // 21: bytes that are no character
    BadCharacter,
}

// Why a public call does nothing, or a run breaks off.
#[derive(Clone, Copy, PartialEq, Eq)]
pub enum Fault {
    // 1: what is lent is too small, or the fuel isn't 1 to 1,000,000
    Illegal,
    // the text is refused
    Load(LoadFault),
    // the run breaks off
    Run(RunFault),
}

impl From<LoadFault> for Fault {
    ghost from_gives = { λ cause fault. fault ≡ Load cause };

    fn from(cause: LoadFault) -> Fault
        ensures { result ≡ Load cause }
    {
        Fault::Load(cause)
    }
}

impl From<RunFault> for Fault {
    ghost from_gives = { λ cause fault. fault ≡ Run cause };

    fn from(cause: RunFault) -> Fault
        ensures { result ≡ Run cause }
    {
        Fault::Run(cause)
    }
}

impl From<LoadFault> for u64 {
    ghost from_gives = { λ fault number. number ≡ load_number fault };

    fn from(fault: LoadFault) -> u64
        ensures { result ≡ load_number fault }
    {
        match fault {
            LoadFault::BadText => 2,
            LoadFault::BadFlags => 3,
            LoadFault::LongContent => 4,
            LoadFault::ManyPlaceholders => 5,
            LoadFault::MetTemplate => 6,
            LoadFault::BadCode => 7,
            LoadFault::OpenSection => 8,
            LoadFault::OverLimit => 9,
        }
    }
}

impl From<RunFault> for u64 {
    ghost from_gives = { λ fault number. number ≡ run_number fault };

    fn from(fault: RunFault) -> u64
        ensures { result ≡ run_number fault }
    {
        match fault {
            RunFault::LongInput => 11,
            RunFault::LongLine => 12,
            RunFault::NoRoom => 13,
            RunFault::DeepCall => 14,
            RunFault::NoValue => 15,
            RunFault::NoCodePoint => 16,
            RunFault::NoAtom => 17,
            RunFault::BadSkip => 18,
            RunFault::FullStore => 19,
            RunFault::NoFuel => 20,
            RunFault::BadCharacter => 21,
        }
    }
}

impl From<Fault> for u64 {
    ghost from_gives = { λ fault number. number ≡ fault_number fault };

    fn from(fault: Fault) -> u64
        ensures { result ≡ fault_number fault }
    {
        match fault {
            Fault::Illegal => 1,
            Fault::Load(refused) => refused.into(),
            Fault::Run(broken) => broken.into(),
        }
    }
}
