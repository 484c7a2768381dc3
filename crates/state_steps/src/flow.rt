//! What an instruction leads to.
ghost use Rattle.std.specs.Prelude.{◌≡◌};
ghost use Rattle.state_steps.specs.Stepped.{single_flow};

use effects::{Region, Taken};

/// What an instruction reaches, and what is known where its conditional jump is taken. The state where
/// control falls through, or where any other jump leads, is the one that the instruction changed.
#[derive(Drop)]
pub struct Flow {
    pub region: Region,
    pub taken: Option<Taken>,
}

/// The flow of an instruction that has no second state behind it.
pub(crate) fn single(region: Region) -> Flow
    ensures { result ≡ single_flow region }
{
    Flow {
        region,
        taken: None,
    }
}
