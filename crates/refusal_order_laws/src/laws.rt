//! Laws over the definitions alone: each is the contract of a function that does nothing.
ghost use Rattle.refusal_order_laws.specs.Gaps.{TextsHaveBlocks, SettingsHaveAnswer};

/// What is not refused has its answer: a text that is refused at no line has blocks, and files with
/// settings and rows have their network or a first refusal.
pub fn no_gap_is_left()
    ensures blocks { TextsHaveBlocks }
    ensures answer { SettingsHaveAnswer }
{}
