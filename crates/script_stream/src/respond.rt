//! What answers the lines of a script.
ghost use Rattle.std.specs.Prelude.{◌≡◌, ℕ, List, ◌++◌, OnOk, OnErr, Err};

/// Why a line is not answered.
#[derive(Clone, Copy, Debug, PartialEq, Eq)]
pub enum LineFault {
    /// The line is no command.
    Bad,
    /// An allocation failed.
    Memory,
}

/// Answers lines, one after another.
pub trait Respond {
    /// What is told of a line that was answered, besides the text.
    type Told: Drop;

    /// From the first state the line is answered with this text, and the second state is left.
    ghost answers: { Self → List ℕ → List ℕ → Self → Type 0 };

    /// Whether the line is no command.
    ghost is_bad: { List ℕ → Type 0 };

    /// Adds the answer to a line, which comes without its line feed, and says what is told of it.
    ///
    /// Errors: the line is no command, or an allocation failed. What was added then is to be taken back.
    fn respond(&mut self, line: &[u8], out: &mut Vec<u8>) -> Result<Self::Told, LineFault>
        ensures answered { OnOk result ((text : List ℕ) × answers self.old line.now text self.new
            × (out.new.items ≡ out.old.items ++ text)) }
        ensures bad { result ≡ Err LineFault.Bad → is_bad line.now }
        ensures kept { OnErr result ((more : List ℕ) × (out.new.items ≡ out.old.items ++ more)) };
}
