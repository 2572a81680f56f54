// What holds of bodies and what their places stand for.
ghost use Rattle.effect_teardown.specs.Sites.{ChildLaw};

/// The body of a child is what the place of the nested effect stands for in its parent's body.
pub fn child_law()
    ensures { ChildLaw }
{}
