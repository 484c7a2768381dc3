//! The functions that a program may call, and the errors that a map operation gives (bpf(2)).

/// A helper function, called by its static number: `bpf_map_lookup_elem` (1), `bpf_map_update_elem` (2)
/// and `bpf_map_delete_elem` (3).
#[derive(Clone, Copy, Debug, PartialEq, Eq)]
pub enum Helper {
    Lookup,
    Update,
    Delete,
}

/// What a helper takes in a register: a reference to a map of the program's list; a reference to the frame, to as
/// many bytes as a key or a value of that map has; or a number.
#[derive(Clone, Copy, Debug, PartialEq, Eq)]
pub enum ArgumentKind {
    MapOfProgram,
    KeyOfMap,
    ValueOfMap,
    AnyNumber,
}

/// What a helper leaves in r0: a reference to an element's value, or 0; or 0, or an error as a negative number.
#[derive(Clone, Copy, Debug, PartialEq, Eq)]
pub enum ResultKind {
    ElementOrNull,
    Integer,
}

/// A kernel function, called by its BTF number: `bpf_rcu_read_lock` (1) and `bpf_rcu_read_unlock` (2).
#[derive(Clone, Copy, Debug, PartialEq, Eq)]
pub enum KernelFunction {
    ReadLock,
    ReadUnlock,
}

/// Why a map operation fails. In r0 the number is negative (`ret_word`), and so it is in the
/// text of a script's answer.
#[derive(Clone, Copy, Debug, PartialEq, Eq)]
pub enum Errno {
    /// ENOENT, 2: the key has no element.
    NoEntry,
    /// E2BIG, 7: a hash map has as many linked elements as its shape allows, or an array has no such index.
    TooBig,
    /// ENOMEM, 12: no map slot is free.
    NoMemory,
    /// EEXIST, 17: the key has an element.
    Exists,
    /// EINVAL, 22: the flags are none that there are, or an element of an array is to be deleted.
    InvalidArgument,
}

impl Errno {
    ghost use Rattle.std.specs.Prelude.{◌≡◌};
    ghost use Rattle.bpf_model.specs.Call.{errno_number};

    /// Its number, positive.
    pub fn number(self) -> u8
        ensures { result ≡ errno_number self }
    {
        match self {
            Errno::NoEntry => 2,
            Errno::TooBig => 7,
            Errno::NoMemory => 12,
            Errno::Exists => 17,
            Errno::InvalidArgument => 22,
        }
    }
}

ghost use Rattle.std.specs.Prelude.{◌≡◌};
ghost use Rattle.bpf_model.specs.Call as model;

/// What a helper leaves in r0 for a result: 0, or the error as a negative number.
pub fn ret_word(ret: Result<(), Errno>) -> u64
    ensures { result ≡ model.ret_word ret }
{
    match ret {
        Ok(()) => 0,
        Err(errno) => u64::from(errno.number()).wrapping_neg(),
    }
}

impl Helper {
    ghost use Rattle.std.specs.Prelude.{◌≡◌};
    ghost use Rattle.bpf_model.specs.Call.{helper_of};
    ghost use Rattle.bpf_model.specs.Request.{signature_of};

    /// The helper of a static number, or `None` where no helper has it.
    pub fn from_number(number: i32) -> Option<Helper>
        ensures { result ≡ helper_of number }
    {
        if number == 1 {
            Some(Helper::Lookup)
        } else if number == 2 {
            Some(Helper::Update)
        } else if number == 3 {
            Some(Helper::Delete)
        } else {
            None
        }
    }

    /// The kinds of its arguments, from r1 on (Linux's `bpf_func_proto`).
    pub fn arguments(self) -> &'static [ArgumentKind]
        ensures { result.now ≡ (signature_of self).arguments }
    {
        match self {
            Helper::Lookup | Helper::Delete => &[
                ArgumentKind::MapOfProgram,
                ArgumentKind::KeyOfMap,
            ],
            Helper::Update => &[
                ArgumentKind::MapOfProgram,
                ArgumentKind::KeyOfMap,
                ArgumentKind::ValueOfMap,
                ArgumentKind::AnyNumber,
            ],
        }
    }

    /// The kind of its result.
    pub fn result(self) -> ResultKind
        ensures { result ≡ (signature_of self).result }
    {
        match self {
            Helper::Lookup => ResultKind::ElementOrNull,
            Helper::Update | Helper::Delete => ResultKind::Integer,
        }
    }
}

impl KernelFunction {
    ghost use Rattle.std.specs.Prelude.{◌≡◌};
    ghost use Rattle.bpf_model.specs.Call.{kernel_function_of};

    /// The kernel function of a BTF number, or `None` where no kernel function has it.
    pub fn from_number(number: i32) -> Option<KernelFunction>
        ensures { result ≡ kernel_function_of number }
    {
        if number == 1 {
            Some(KernelFunction::ReadLock)
        } else if number == 2 {
            Some(KernelFunction::ReadUnlock)
        } else {
            None
        }
    }
}
