// The settings line (02, point 13) and the opening of the queue accept the same settings, but for zeros: a theorem, no code.
#![tactic(auto)]

ghost use Rattle.line_opening.specs.Opens.{AsOpened};

pub fn as_opened()
    ensures { AsOpened }
{}
