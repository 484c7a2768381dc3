//! The words that commands begin with.
ghost use Rattle.std.specs.Prelude.{◌≡◌};
ghost use Rattle.std.specs.List.{find};
ghost use Rattle.std.specs.Str.{bytes_eq};
ghost use Rattle.script_lines.specs.Grammar.{verb_name, verb_of as verb_named};

/// The command that a line begins with.
#[derive(Clone, Copy, Debug, PartialEq, Eq)]
pub(crate) enum Verb {
    Map,
    Load,
    Put,
    Get,
    Del,
    Start,
    Step,
    Advance,
    Reap,
    Drop,
    Stat,
    Dump,
}

/// Every verb.
pub(crate) const VERBS: [Verb; 12] = [
    Verb::Map,
    Verb::Load,
    Verb::Put,
    Verb::Get,
    Verb::Del,
    Verb::Start,
    Verb::Step,
    Verb::Advance,
    Verb::Reap,
    Verb::Drop,
    Verb::Stat,
    Verb::Dump,
];

impl Verb {
    ghost use Rattle.std.specs.Prelude.{◌≡◌};
    ghost use Rattle.script_lines.specs.Grammar.{verb_name};

    fn name(self) -> &'static str
        ensures { result.now ≡ verb_name self }
    {
        match self {
            Verb::Map => "map",
            Verb::Load => "load",
            Verb::Put => "put",
            Verb::Get => "get",
            Verb::Del => "del",
            Verb::Start => "start",
            Verb::Step => "step",
            Verb::Advance => "advance",
            Verb::Reap => "reap",
            Verb::Drop => "drop",
            Verb::Stat => "stat",
            Verb::Dump => "dump",
        }
    }
}

/// Whether the word is the command's name.
fn is_named(verb: Verb, word: &[u8]) -> bool
    ensures { result ≡ bytes_eq word.now (verb_name verb) }
{
    word == verb.name().as_bytes()
}

fn first_named(verbs: &[Verb], word: &[u8]) -> Option<Verb>
    ensures { result ≡ find (λ v. bytes_eq word.now (verb_name v)) verbs.now }
{
    for verb in verbs {
        if is_named(*verb, word) {
            return Some(*verb);
        }
    }
    None
}

/// The command that begins with the word.
pub(crate) fn verb_of(word: &[u8]) -> Option<Verb>
    ensures { result ≡ verb_named word.now }
{
    first_named(&VERBS, word)
}
