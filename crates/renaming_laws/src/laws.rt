//! Laws of lists of statements: functions that do nothing, whose contracts are the laws.

ghost use Rattle.renaming_laws.specs.Laws.{StepsAlike, RenamedStepsAlike};

use engine::laws::step_keeps_worlds;

/// Two lists of the same statements, over worlds and values that correspond, have answers and
/// faults that correspond, one by one, and lead to worlds that correspond, both well typed: so it
/// is under every pairing that is one-to-one in deterministic classes.
pub fn steps_alike()
    ensures { StepsAlike }
{
    step_keeps_worlds();
}

/// The same under every renaming of cells: where two worlds, and the values that are sent to them,
/// differ by a renaming alone, all that statements answer and leave differs by that renaming alone.
pub fn renamed_steps_alike()
    ensures { RenamedStepsAlike }
{
    step_keeps_worlds();
}
