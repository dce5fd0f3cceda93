//! A model of a formula, as the solver answers it: a truth value for each variable, by place.
ghost use Rattle.std.specs.Prelude.{◌≡◌};

/// A truth value for each variable of a formula, from the first on.
#[derive(Debug, Drop)]
pub struct Model {
    values: Vec<bool>,
}

impl std::marker::Model for Model {
    ghost use Rattle.std.specs.Prelude.{List, Bool};

    ghost Value = { List Bool };

    ghost view = { λ m. m.values.items };
}

impl Model {
    ghost use Rattle.cnf_gates.specs.Meaning.{assigned};

    /// The model of these values.
    pub fn new(values: Vec<bool>) -> Model
        ensures { result ≡ values.items }
    {
        Model { values }
    }

    /// The values in order.
    pub fn values(&self) -> &[bool]
        ensures { result.now ≡ self.now }
    {
        self.values.as_slice()
    }

    /// The values, by which the model is used up.
    pub fn into_values(self) -> Vec<bool>
        ensures { result.items ≡ self }
    {
        let Model { values } = self;
        values
    }

    /// The value of a variable by its place, from 0 on, and False beyond the last.
    pub fn value(&self, place: u32) -> bool
        ensures { result ≡ assigned self.now place }
    {
        self.values.get(place as usize).copied().unwrap_or(false)
    }
}
