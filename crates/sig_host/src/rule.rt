// A rule of equality of the host program.
ghost use Rattle.std.specs.Prelude.{◌≡◌};
ghost use Rattle.sig_base.specs.Values.{is_alike};

use sig_base::Value;

/// When a cell's new value counts as equal to its old one, by a closure that the host program makes.
///
/// The closure may be called on any two values. It answers yes to two whole numbers that are at most
/// `slack` apart, and otherwise to the same value twice. Whoever makes a rule proves both, as by
/// `|a: &Value, b: &Value| alike(5, a, b)` beside a slack of 5.
pub struct EqualsRule {
    /// How far apart two whole numbers may be.
    pub slack: u64,
    /// Whether two values count as equal.
    pub call: Box<dyn Fn(&Value, &Value) -> bool>,
    /// It may be called on any two values.
    pub ghost callable: { IsAlwaysCallable call },
    /// It answers by the slack.
    pub ghost answers: { (a : _) (b : _) (r : _) → post call a b r → r ≡ is_alike slack a.now b.now },
}

impl Drop for EqualsRule {
    fn drop(self) {
        let EqualsRule { slack: _, call: _ } = self;
    }
}

impl EqualsRule {
    /// Whether two values count as equal.
    pub fn holds(&self, a: &Value, b: &Value) -> bool
        ensures { result ≡ is_alike self.now.slack a.now b.now }
    {
        (self.call)(a, b)
    }
}
