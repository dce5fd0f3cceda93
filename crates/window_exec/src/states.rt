//! Lists of states behind a type of their own, so that contracts see them as the model's lists.
ghost use Rattle.std.specs.Prelude.{◌≡◌};

use crate::state::WState;
use std::marker::Model;

/// A list of states.
#[derive(Drop)]
pub struct States {
    states: Vec<WState>,
}

impl Model for States {
    ghost use Rattle.std.specs.Prelude.{List};
    ghost use Rattle.window_exec.specs.declared.state.WState.{WState};

    ghost Value = { List WState };

    ghost view = { λ s. s.states.items };
}

impl States {
    /// The states of a vector.
    pub fn new(states: Vec<WState>) -> States
        ensures { result ≡ states.items }
    {
        States { states }
    }

    /// The states, from the first on.
    pub fn as_slice(&self) -> &[WState]
        ensures { result.now ≡ self.now }
    {
        &self.states
    }

    /// The vector of the states.
    pub fn into_vec(self) -> Vec<WState>
        ensures { result.items ≡ self }
    {
        self.states
    }
}
