// A law of all scripts.
ghost use Rattle.pss_serving.specs.Outcomes.{ScriptsAreRight};

use psdl_sound::text_is_sound;
use script_service::{runs_are_right, stored_is_between};

/// What holds after any first lines of any script, over any text in which nothing is wrong: the machine's history is serial,
/// and all else that holds of every run; and what is stored are good objects under a next serial that is between the serials
/// that were committed and the machine's.
pub fn scripts_are_right()
    ensures { ScriptsAreRight }
{
    text_is_sound();
    runs_are_right();
    stored_is_between();
}
