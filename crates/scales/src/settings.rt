ghost use Rattle.std.specs.Prelude.{List, [], ◌∷◌};
ghost use Rattle.scales.specs.Models.{ScaleModel, model_of};
ghost use Rattle.scales.specs.Choices.{AllKeep, ChoicesStand};

use crate::scale::Scale;

// Settings side by side, each on a scale of its own kind.
pub trait Settings {
    // what the scales mean, in the settings' order
    ghost models: { Self → List ScaleModel };

    // The scales keep their laws.
    fn keep(&self)
        ensures { AllKeep (models self.now) };
}

// No setting.
#[derive(Drop)]
pub struct Empty;

impl Settings for Empty {
    ghost models = { λ _. [] };

    fn keep(&self) {}
}

// One setting more, in front.
#[derive(Drop)]
pub struct Also<S, R> {
    pub scale: S,
    pub rest: R,
}

impl<S: Scale, R: Settings> Settings for Also<S, R> {
    ghost models = { λ a. model_of S.Scale a.scale ∷ R.Settings.models a.rest };

    fn keep(&self) {
        self.rest.keep();
    }
}

// A choice and its profile determine each other and meet the same bounds, whatever the settings'
// scales are and of whatever kinds of value.
pub fn choices_stand<R: Settings>()
    ensures { (s : R) → AllKeep (R.Settings.models s) → ChoicesStand (R.Settings.models s) }
{}
