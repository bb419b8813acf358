// Supervisory classes: how far the supervisor steps in.
ghost use Rattle.std.specs.Prelude.{◌≡◌};
ghost use Rattle.ratio.specs.Classes.{class_of, lowest};

#[derive(Clone, Copy, PartialEq, Eq, Debug)]
pub enum SupervisoryClass {
    NoAction,
    First,
    Second,
    Third,
}

impl SupervisoryClass {
    // The class of a ratio, in ten-thousandths.
    pub fn of(ratio: u128) -> SupervisoryClass
        ensures { result ≡ class_of ratio }
    {
        [
            SupervisoryClass::NoAction,
            SupervisoryClass::First,
            SupervisoryClass::Second,
        ]
        .into_iter()
        .find(|class| class.lowest_ratio() <= ratio)
        .unwrap_or(SupervisoryClass::Third)
    }

    // The lowest ratio of the class.
    pub fn lowest_ratio(&self) -> u128
        ensures { result ≡ lowest self.now }
    {
        match self {
            SupervisoryClass::NoAction => 10_000,
            SupervisoryClass::First => 7_000,
            SupervisoryClass::Second => 3_500,
            SupervisoryClass::Third => 0,
        }
    }
}
